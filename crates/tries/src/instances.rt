//! The instances and values that lines name. Their texts are those of a question and of a token in a session's lines,
//! so they are read as such lines are.

ghost use Rattle.std.specs.Prelude.{ℕ, map, IfOk, IsSome, IsTrue};
ghost use Rattle.std.specs.List.{AllByRecursion};
ghost use Rattle.at_model.specs.Instances.{AnyText};
ghost use Rattle.at_model.specs.Classes.{Classes};
ghost use Rattle.at_model.specs.Lines.{IsCommand};
ghost use Rattle.at_protocol.specs.LineView.{request_view};
ghost use Rattle.at_model.specs.Rules.{Class, Int, Text, Truth};
ghost use Rattle.at_model.specs.TypedRuns.{AreArguments, ClassAt, IsNodeOf, IsOfKind};
ghost use Rattle.at_rules.specs.Bodies.{kind_view};
ghost use Rattle.at_body.specs.Values.{value_view};
ghost use Rattle.tries.specs.Worlds.{classes_at, IsFor, IsOf, IsSound, IsTyped, RefersThere};

use crate::files::World;
use crate::refusal::Refusal;
use at_body::{Arguments, Inst, Value};
use at_class::ClassId;
use at_protocol::line::{Argument, LineFault, Place, Request, read_line};
use at_rules::Kind;
use at_store::Node;
use at_text::decimal::read_int;

/// The instance that a place and a call name.
///
/// # Errors
///
/// The first of these that applies: the text isn't of that form; a place leads to no node; the node has no such
/// attribute; the arguments don't fit. Or want of memory.
pub fn instance(world: &World, call: &str) -> Result<Inst, Refusal>
    requires { IsSound world.now }
    ensures { IfOk result (IsTyped world.now) }
{
    let line = line_of(world, "0 ask ", call, "")?;
    let request = request(world, line.as_str())?;
    let Request::Ask {
        place,
        attribute,
        arguments,
    } = &*request
    else {
        return Err(Refusal::Line);
    };
    let node = node(world, place)?;
    let values = values(world, arguments)?;
    let class = world.store.class(node);
    let Some(attribute) = world.rules.attribute_asked(class, attribute, values.len()) else {
        return Err(Refusal::Attribute);
    };
    if !are_of(world, world.rules.params(attribute), values.as_slice()) {
        return Err(Refusal::Arguments);
    }
    Ok(Inst::new(node, attribute, Arguments::of(values)?))
}

/// The value that the text names, where it is of the kind of the instance's attribute.
pub fn value_for(world: &World, inst: &Inst, text: &str) -> Result<Value, Refusal>
    requires { IsSound world.now }
    ensures { IfOk result (λ v. IsFor world.now inst.now (value_view v)) }
{
    let value = value(world, text)?;
    if !is_of(world, world.rules.result_kind(inst.attribute()), &value) {
        return Err(Refusal::Value);
    }
    Ok(value)
}

/// The value that the text names: a number, a truth value, or what an argument names.
fn value(world: &World, text: &str) -> Result<Value, Refusal>
    requires { IsSound world.now }
    ensures { IfOk result (λ v. RefersThere world.now (value_view v)) }
{
    if text == "true" || text == "false" {
        return Ok(Value::Bool(text == "true"));
    }
    if let Some(number) = read_int(text) {
        return Ok(Value::Int(number));
    }
    let line = line_of(world, "0 ask / v(", text, ")")?;
    let request = request(world, line.as_str())?;
    let Request::Ask { arguments, .. } = &*request else {
        return Err(Refusal::Line);
    };
    match arguments.as_slice() {
        [argument] => value_of(world, argument),
        _ => Err(Refusal::Line),
    }
}

/// The session's line that these texts make together.
fn line_of(world: &World, front: &str, text: &str, back: &str) -> Result<String, Refusal> {
    let mut line = String::from_str(world.alloc, front)?;
    line.push_str(text)?;
    line.push_str(back)?;
    Ok(line)
}

/// What the line asks or tells; in a box, which each exit lets go by one call.
fn request<'a>(world: &World, line: &'a str) -> Result<Box<Request<'a>>, Refusal>
    ensures { IfOk result (λ r. IsCommand (request_view r.value)) }
{
    match read_line(world.alloc, line.as_bytes()) {
        Ok(line) => Ok(Box::new(world.alloc, line.request)?),
        Err(LineFault::Syntax { .. }) => Err(Refusal::Line),
        Err(LineFault::Memory { .. }) => Err(Refusal::Memory),
    }
}

/// The node at the place. Nodes have no marks here.
fn node(world: &World, place: &Place<'_>) -> Result<Node, Refusal>
    requires { IsSound world.now }
    ensures { IfOk result (λ n. IsSome (classes_at world.now n)) }
{
    let Place::FromRoot(path) = place else {
        return Err(Refusal::Path);
    };
    let store = &world.store;
    match store.resolve(world.rules.classes(), store.root(), &path.steps) {
        Some(node) => Ok(node),
        None => Err(Refusal::Path),
    }
}

/// The values of the arguments.
fn values(world: &World, arguments: &[Argument<'_>]) -> Result<Vec<Value>, Refusal>
    requires { IsSound world.now }
    ensures { IfOk result (λ vs. AllByRecursion (RefersThere world.now) (map value_view vs.items)) }
{
    let mut values = Vec::new(world.alloc);
    for argument in arguments {
        values.push(value_of(world, argument)?)?;
    }
    Ok(values)
}

fn value_of(world: &World, argument: &Argument<'_>) -> Result<Value, Refusal>
    requires { IsSound world.now }
    ensures { IfOk result (λ v. RefersThere world.now (value_view v)) }
{
    match argument {
        Argument::Text(text) => Ok(Value::of_text(text.clone()?)?),
        Argument::Int(number) => Ok(Value::Int(*number)),
        Argument::Bool(truth) => Ok(Value::Bool(*truth)),
        Argument::Node(place) => Ok(Value::Ref(Some(node(world, place)?))),
        Argument::Null => Ok(Value::Ref(None)),
    }
}

/// Whether there are as many values as kinds, each of its kind.
fn are_of(world: &World, kinds: &[Kind], values: &[Value]) -> bool
    requires sound { IsSound world.now }
    requires there { AllByRecursion (RefersThere world.now) (map value_view values.now) }
    ensures { IsTrue result → AreArguments world.now.rules.classes (classes_at world.now) AnyText (map value_view values.now) (map kind_view kinds.now) }
{
    let mut wanted = kinds;
    let mut rest = values;
    while let Some((kind, other_kinds)) = wanted.split_first() {
        let Some((value, others)) = rest.split_first() else {
            return false;
        };
        if !is_of(world, *kind, value) {
            return false;
        }
        wanted = other_kinds;
        rest = others;
    }
    rest.is_empty()
}

/// Whether the value is of the kind. Null is of each class.
fn is_of(world: &World, kind: Kind, value: &Value) -> bool
    requires sound { IsSound world.now }
    requires there { RefersThere world.now (value_view value.now) }
    ensures { IsTrue result → IsOf world.now (kind_view kind) (value_view value.now) }
{
    match kind {
        Kind::Int => is_int(value),
        Kind::Bool => is_truth(value),
        Kind::Text => is_text(value),
        Kind::Class(class) => is_at(world, class, value),
    }
}

fn is_int(value: &Value) -> bool
    ensures { (classes : Classes) (at : ClassAt ℕ) → IsTrue result → IsOfKind classes at (value_view value.now) Int }
{
    match value {
        Value::Int(number) => {
            let _number: i32 = *number;
            true
        }
        Value::Bool(_) | Value::Text(_) | Value::Ref(_) => false,
    }
}

fn is_truth(value: &Value) -> bool
    ensures { (classes : Classes) (at : ClassAt ℕ) → IsTrue result → IsOfKind classes at (value_view value.now) Truth }
{
    match value {
        Value::Bool(_) => true,
        Value::Int(_) | Value::Text(_) | Value::Ref(_) => false,
    }
}

fn is_text(value: &Value) -> bool
    ensures { (classes : Classes) (at : ClassAt ℕ) → IsTrue result → IsOfKind classes at (value_view value.now) Text }
{
    match value {
        Value::Text(_) => true,
        Value::Int(_) | Value::Bool(_) | Value::Ref(_) => false,
    }
}

/// Whether the value is null, or a node of the class or below it.
fn is_at(world: &World, class: ClassId, value: &Value) -> bool
    requires sound { IsSound world.now }
    requires there { RefersThere world.now (value_view value.now) }
    ensures { IsTrue result → IsOf world.now (Class class) (value_view value.now) }
{
    match value {
        Value::Ref(Some(node)) => is_below(world, *node, class),
        Value::Ref(None) => true,
        Value::Int(_) | Value::Bool(_) | Value::Text(_) => false,
    }
}

/// Whether the node is of the class or below it.
fn is_below(world: &World, node: Node, class: ClassId) -> bool
    requires sound { IsSound world.now }
    requires there { IsSome (classes_at world.now node) }
    ensures { IsTrue result → IsNodeOf world.now.rules.classes (classes_at world.now) node class }
{
    let classes = world.rules.classes();
    classes.is_sub(world.store.class(node), class)
}
