//! Questions for the attributes of nodes.

ghost use Rattle.std.specs.Prelude.{◌≡◌, ℕ};
ghost use Rattle.at_model.specs.Bodies.{may_pass};
ghost use Rattle.at_model.specs.Run.{Int};
ghost use Rattle.at_engine.specs.Fitting.{is_near_int, is_text, is_truth};
ghost use Rattle.at_body.specs.Values.{value_view};

use super::Engine;
use super::view::View;
use crate::marks::Lookup;
use at_body::{Arguments, Inst, Value};
use at_class::ClassId;
use at_evict::Bounded;
use at_protocol::line::{Argument, Place};
use at_protocol::reply::{Form, Refusal};
use at_rules::{AttrId, Kind};
use at_store::Node;
use std::alloc::AllocError;

/// What the words of a question come to: the instance for which they ask, or why they are refused.
#[derive(Drop)]
pub enum Asked {
    Instance(Inst),
    Refused(Refusal),
}

/// An int that is passed is no farther from 0: this one is the greatest, and one below its negative the least.
const MAX_PASSED: i32 = 1_048_576;

/// Whether an int may be passed.
fn may_pass(number: i32) -> bool
    ensures { result ≡ may_pass {N = ℕ} (Int number) }
{
    if number > MAX_PASSED {
        return false;
    }
    number >= -MAX_PASSED - 1
}

/// The value of an int.
fn int_value(number: &i32) -> Value
    ensures { value_view result ≡ Int number.now }
{
    Value::Int(*number)
}

/// Whether the value is an int that may be passed.
fn is_near_int(value: &Value) -> bool
    ensures { result ≡ is_near_int (value_view value.now) }
{
    match value {
        Value::Int(number) => may_pass(*number),
        Value::Bool(_) | Value::Text(_) | Value::Ref(_) => false,
    }
}

/// Whether the value is a boolean.
fn is_truth(value: &Value) -> bool
    ensures { result ≡ is_truth (value_view value.now) }
{
    match value {
        Value::Bool(_) => true,
        Value::Int(_) | Value::Text(_) | Value::Ref(_) => false,
    }
}

/// Whether the value is a text.
fn is_text(value: &Value) -> bool
    ensures { result ≡ is_text (value_view value.now) }
{
    match value {
        Value::Text(_) => true,
        Value::Int(_) | Value::Bool(_) | Value::Ref(_) => false,
    }
}

impl<K: Bounded> Engine<K> {
    ghost use Rattle.std.specs.Prelude.{◌≡◌, IfOk, Some};
    ghost use Rattle.at_model.specs.Paths.{Node as NodeOf};
    ghost use Rattle.at_model.specs.Run.{Instance};
    ghost use Rattle.at_model.specs.Alike.{InstanceLike, Names};
    ghost use Rattle.at_model.specs.Lines.{Ask, Place as PlaceOf};
    ghost use Rattle.at_model.specs.Names.{IsName};
    ghost use Rattle.at_model.specs.Machine.{Asks, node_named, obeyed};
    ghost use Rattle.at_protocol.specs.LineView.{arguments_view, place_view};
    ghost use Rattle.at_store.specs.Shown.{path as path_shown};
    ghost use Rattle.at_engine.specs.Commanding.{Commands, Fulfils};
    ghost use Rattle.at_engine.specs.Engines.{rules_of, state_by, state_of};
    ghost use Rattle.at_engine.specs.Naming.{IsNumberOf};
    ghost use Rattle.at_engine.specs.Asking.{CanAskOf, CanEvaluate, CanLookUp, IsAskedBy};

    /// What the attribute of the node is, or why there is no answer.
    #[inline(always)]
    pub(super) fn ask_of(
        &mut self,
        session: u16,
        node: Node,
        attribute: &str,
        arguments: &[Argument<'_>],
    ) -> Result<Form, AllocError>
        requires { CanAskOf K.contents K.memories self.old session node attribute.now }
        ensures { (place : PlaceOf) → IsNumberOf self.old.store (node_named (rules_of self.old).classes (state_of self.old) session place) (Some node)
            → Commands K.contents K.memories self.old session (Ask place attribute.now (arguments_view arguments.now)) result self.new }
    {
        match self.view().asked_of(session, node, attribute, arguments)? {
            Asked::Instance(inst) => self.answer(&inst),
            Asked::Refused(refusal) => Ok(Form::Refused(refusal)),
        }
    }

    /// The answer to the question for an instance.
    fn answer(&mut self, inst: &Inst) -> Result<Form, AllocError>
        requires { CanEvaluate K.contents K.memories self.old inst.now }
        ensures { (q : Instance NodeOf) → InstanceLike (Names (path_shown self.old.store)) inst.now q
            → Fulfils K.contents K.memories self.old (Asks q) result self.new }
    {
        let answer = self.demand.answer(&self.rules, &self.store, inst)?;
        self.told(answer)
    }

    /// The instance for which the words of a question ask, by these marks, or why they are refused.
    pub(super) fn asked<M: Lookup>(
        &self,
        marks: &M,
        session: u16,
        place: &Place<'_>,
        attribute: &str,
        arguments: &[Argument<'_>],
    ) -> Result<Asked, AllocError>
        requires { CanLookUp K.contents K.memories self.now (M.marks marks.now) }
        ensures { IsName attribute.now → IfOk result (IsAskedBy (rules_of self.now) self.now.store
            (obeyed (rules_of self.now) (state_by self.now (M.marks marks.now)) session
            (Ask (place_view place.now) attribute.now (arguments_view arguments.now)))) }
    {
        let view = View {
            alloc: self.alloc,
            rules: &self.rules,
            store: &self.store,
            marks,
        };
        view.asked(session, place, attribute, arguments)
    }
}

impl<'e, M: Lookup> View<'e, M> {
    ghost use Rattle.std.specs.Prelude.{◌≡◌, map, option_map, IfOk, Some};
    ghost use Rattle.at_model.specs.Lines.{Ask, Place as PlaceOf};
    ghost use Rattle.at_model.specs.Names.{IsName};
    ghost use Rattle.at_engine.specs.Naming.{IsNumberOf};
    ghost use Rattle.at_model.specs.Machine.{each, node_named, obeyed, parameters_of, value_named};
    ghost use Rattle.at_protocol.specs.LineView.{argument_view, arguments_view, place_view};
    ghost use Rattle.at_rules.specs.Bodies.{kind_view};
    ghost use Rattle.at_store.specs.Shown.{contents, path as path_shown};
    ghost use Rattle.at_body.specs.Values.{value_view};
    ghost use Rattle.at_engine.specs.Answered.{AreValuesOf, IsValueOf};
    ghost use Rattle.at_engine.specs.Asking.{IsAskedBy};
    ghost use Rattle.at_engine.specs.Fitting.{fits_number, fit_numbers, is_of_class};
    ghost use Rattle.at_engine.specs.Seen.{state_seen};

    /// The instance for which the words of a session's question ask, or why they are refused.
    pub(super) fn asked(
        &self,
        session: u16,
        place: &Place<'_>,
        attribute: &str,
        arguments: &[Argument<'_>],
    ) -> Result<Asked, AllocError>
        ensures { IsName attribute.now → IfOk result (IsAskedBy self.now.rules.now self.now.store.now
            (obeyed self.now.rules.now (state_seen self.now.store.now (M.marks self.now.marks.now)) session
            (Ask (place_view place.now) attribute.now (arguments_view arguments.now)))) }
    {
        match self.node_named(session, place) {
            Some(node) => self.asked_of(session, node, attribute, arguments),
            None => Ok(Asked::Refused(Refusal::Path)),
        }
    }

    /// The same of a node that was found.
    pub(super) fn asked_of(
        &self,
        session: u16,
        node: Node,
        attribute: &str,
        arguments: &[Argument<'_>],
    ) -> Result<Asked, AllocError>
        ensures { (place : PlaceOf) → IsNumberOf self.now.store.now (node_named self.now.rules.now.classes
            (state_seen self.now.store.now (M.marks self.now.marks.now)) session place) (Some node) → IsName attribute.now
            → IfOk result (IsAskedBy self.now.rules.now self.now.store.now (obeyed self.now.rules.now
            (state_seen self.now.store.now (M.marks self.now.marks.now)) session (Ask place attribute.now (arguments_view arguments.now)))) }
    {
        let Some(values) = self.values_named(session, arguments)? else {
            return Ok(Asked::Refused(Refusal::Path));
        };
        let Some(attribute) = self
            .rules
            .attribute_asked(self.store.class(node), attribute, values.len())
        else {
            return Ok(Asked::Refused(Refusal::Attribute));
        };
        if !self.fit_parameters(attribute, values.as_slice()) {
            return Ok(Asked::Refused(Refusal::Arguments));
        }
        Ok(Asked::Instance(Inst::new(node, attribute, Arguments::of(values)?)))
    }

    /// The values that the arguments name; none where a place of theirs leads to no node.
    fn values_named(
        &self,
        session: u16,
        arguments: &[Argument<'_>],
    ) -> Result<Option<Vec<Value>>, AllocError>
        ensures { IfOk result (λ o. AreValuesOf (path_shown self.now.store.now) (each (map (value_named self.now.rules.now.classes
            (state_seen self.now.store.now (M.marks self.now.marks.now)) session) (arguments_view arguments.now))) (option_map (λ vs. vs.items) o)) }
    {
        let mut values = Vec::new(self.alloc);
        for argument in arguments {
            let Some(value) = self.value_named(session, argument)? else {
                return Ok(None);
            };
            values.push(value)?;
        }
        Ok(Some(values))
    }

    /// The value that the argument names; none where its place leads to no node.
    fn value_named(
        &self,
        session: u16,
        argument: &Argument<'_>,
    ) -> Result<Option<Value>, AllocError>
        ensures { IfOk result (IsValueOf (path_shown self.now.store.now) (value_named self.now.rules.now.classes
            (state_seen self.now.store.now (M.marks self.now.marks.now)) session (argument_view argument.now))) }
    {
        match argument {
            Argument::Text(text) => {
                let text = String::from_str(self.alloc, text.as_str())?;
                let value = Value::of_text(text)?;
                Ok(Some(value))
            }
            Argument::Int(number) => Ok(Some(int_value(number))),
            Argument::Bool(truth) => Ok(Some(Value::Bool(*truth))),
            Argument::Node(place) => match self.node_named(session, place) {
                Some(node) => Ok(Some(Value::Ref(Some(node)))),
                None => Ok(None),
            },
            Argument::Null => Ok(Some(Value::Ref(None))),
        }
    }

    /// Whether there are as many values as parameters, each of its parameter's kind.
    fn fit_parameters(&self, attribute: AttrId, values: &[Value]) -> bool
        ensures { result
            ≡ fit_numbers self.now.rules.now.classes (contents self.now.store.now) (parameters_of self.now.rules.now attribute) (map value_view values.now) }
    {
        let mut kinds = self.rules.params(attribute);
        let mut rest = values;
        while let Some((kind, other_kinds)) = kinds.split_first() {
            let Some((value, others)) = rest.split_first() else {
                return false;
            };
            if !self.fits_parameter(*kind, value) {
                return false;
            }
            kinds = other_kinds;
            rest = others;
        }
        rest.is_empty()
    }

    /// Null and the nodes of the class or below it fit a class, texts fit a text, booleans and ints that may be passed their kinds.
    fn fits_parameter(&self, kind: Kind, value: &Value) -> bool
        ensures { result ≡ fits_number self.now.rules.now.classes (contents self.now.store.now) (kind_view kind) (value_view value.now) }
    {
        match kind {
            Kind::Text => is_text(value),
            Kind::Class(class) => self.is_of_class(class, value),
            Kind::Int => is_near_int(value),
            Kind::Bool => is_truth(value),
        }
    }

    /// Whether the value is null or a node of the class or one below it.
    fn is_of_class(&self, class: ClassId, value: &Value) -> bool
        ensures { result ≡ is_of_class self.now.rules.now.classes (contents self.now.store.now) class (value_view value.now) }
    {
        match value {
            Value::Ref(None) => true,
            Value::Ref(Some(node)) => self.rules.classes().is_sub(self.store.class(*node), class),
            Value::Int(_) | Value::Bool(_) | Value::Text(_) => false,
        }
    }
}
