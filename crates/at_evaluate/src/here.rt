//! Where the equation of an instance stands, and its beginning.

ghost use Rattle.std.specs.Prelude.{◌≡◌, ◌-◌, [], IfOk, IsTrue, length, map, nat_eq, option_copied, slice_get};
ghost use Rattle.at_model.specs.Bodies.{index_of, named};
ghost use Rattle.at_model.specs.Classes.{Classes};
ghost use Rattle.at_model.specs.Rules.{attribute_name, by_inherited};
ghost use Rattle.at_model.specs.Run.{Gives};
ghost use Rattle.at_model.specs.Terms.{max_depth};
ghost use Rattle.at_store.specs.Shown.{IsIdle, contents};
ghost use Rattle.at_rules.specs.Bodies.{bodies_view, body_view};
ghost use Rattle.at_body.specs.Rest.{ev, ev_all};
ghost use Rattle.at_body.specs.Standing.{Place, scope};
ghost use Rattle.at_body.specs.Values.{value_view};
ghost use Rattle.at_model.specs.Rules.{evaluation};
ghost use Rattle.at_evaluate.specs.Looking.{HasBegun, HasLooked};
ghost use Rattle.at_evaluate.specs.Place.{place_at};

use crate::stop::Stop;
use at_body::{Arguments, Inst, Reads, Stack, Value, is_passed, look_at};
use at_rules::{AttrId, Body, Rules};
use at_store::{Loc, Node, Store};
use at_tree::reader::MAX_DEPTH;
use std::alloc::{AllocError, Global};

/// Where an expression stands.
pub struct Here {
    /// The node at which its equation stands.
    pub this: Node,
    /// The child of that node on the way down to the instance, where the equation is an inherited one.
    pub child: Option<Node>,
    /// The elements of the folds around the expression, the innermost on top.
    pub bound: Stack<Node>,
    /// What was passed to the attribute.
    pub arguments: Arguments,
}

/// One call, where each exit that lets it go would else have a case for each field.
impl Drop for Here {
    fn drop(self) {
        let Here {
            this: _,
            child: _,
            bound: _,
            arguments: _,
        } = self;
    }
}

impl Here {
    // At the node, outside of all folds.
    fn new(alloc: Global, this: Node, child: Option<Node>, arguments: Arguments) -> Here
        ensures { place_at result ≡ record { this = this; bound = []; passed = arguments; child = child } }
    {
        Here {
            this,
            child,
            bound: Stack::new(alloc),
            arguments,
        }
    }

    /// The same place once more. An error where memory is wanting.
    pub fn copy(&self) -> Result<Here, AllocError>
        ensures { IfOk result (λ h. place_at h ≡ place_at self.now) }
    {
        Ok(Here {
            this: self.this,
            child: self.child,
            bound: self.bound.copy()?,
            arguments: self.arguments.share()?,
        })
    }

    /// Whether the arguments of a call are just the names of all that was passed, in order.
    pub fn hands_on(&self, passed: &[Body]) -> bool
        ensures { IsTrue result → (classes : Classes)
            → ev_all classes (bodies_view passed.now) (place_at self.now) ≡ Gives (map value_view self.now.arguments) }
    {
        are_names(passed, self.bound.len(), self.arguments.as_slice())
    }

    /// All that was passed, which is shared. An error where its count is at its end.
    pub fn handed_on(&self) -> Result<Arguments, Stop>
        ensures { IfOk result (λ a. a ≡ self.now.arguments) }
    {
        Ok(self.arguments.share()?)
    }

    /// The value of an expression that has no parts; where that is an index, the child's index is looked at. Gives up at an expression with parts, at a
    /// name behind all that was passed, and at an index where there is no child. Or memory is wanting.
    #[inline(always)]
    pub fn value(&self, store: &Store, reads: &mut Reads, body: &Body) -> Result<Value, Stop>
        requires idle { IsIdle store.now }
        ensures { (classes : Classes)
            → IfOk result (λ v. HasLooked (contents store.now) reads.old reads.new (ev classes (body_view body.now) (place_at self.now)) (value_view v)) }
    {
        match body {
            Body::Int(n) => Ok(Value::Int(*n)),
            Body::Truth(b) => Ok(Value::Bool(*b)),
            Body::Text(text) => Ok(Value::of_text(text.clone()?)?),
            Body::Null => Ok(Value::Ref(None)),
            Body::This => Ok(Value::Ref(Some(self.this))),
            Body::Name(position) => self.name(*position),
            Body::IndexName => self.index(store, reads),
            _ => Err(Stop::GivesUp),
        }
    }

    // What a name stands for.
    #[inline(always)]
    fn name(&self, position: usize) -> Result<Value, Stop>
        ensures { IfOk result (λ v. named (scope (place_at self.now)).names position ≡ value_view v) }
    {
        match self.bound.get(position) {
            Some(node) => Ok(Value::Ref(Some(node))),
            None => self.argument(position),
        }
    }

    // What a name behind those of the folds stands for.
    #[inline(always)]
    fn argument(&self, position: usize) -> Result<Value, Stop>
        ensures { IfOk result (λ v. named (map value_view self.now.arguments) (position - length self.now.bound) ≡ value_view v) }
    {
        let passed = position.saturating_sub(self.bound.len());
        match at(self.arguments.as_slice(), passed) {
            Some(value) => Ok(value.copy()?),
            None => Err(Stop::GivesUp),
        }
    }

    // The index of the child on the way down.
    fn index(&self, store: &Store, reads: &mut Reads) -> Result<Value, Stop>
        requires idle { IsIdle store.now }
        ensures { IfOk result (λ v. HasLooked (contents store.now) reads.old reads.new (index_of self.now.child) (value_view v)) }
    {
        match self.child {
            Some(child) => {
                reads.push(Loc::Idx(child))?;
                Ok(Value::of_count(store.index_in(child)))
            }
            None => Err(Stop::GivesUp),
        }
    }
}

/// Begins the evaluation of an instance: where its equation stands, and its body. The classes of the node and of the nodes among the arguments are
/// looked at, and the way up to an inherited equation. Gives up where there is no equation. Or memory is wanting.
#[inline(always)]
pub fn begin<'a>(
    alloc: Global,
    rules: &'a Rules,
    store: &Store,
    reads: &mut Reads,
    inst: &Inst,
) -> Result<(Here, &'a Body), Stop>
    requires idle { IsIdle store.now }
    ensures { IfOk result (λ r. HasBegun (contents store.now) reads.old reads.new (evaluation rules.now nat_eq inst.now)
        (ev rules.now.classes (body_view r.1.now) (place_at r.0))) }
{
    let node = inst.node();
    let attribute = inst.attribute();
    let arguments = inst.shared_arguments()?;
    reads.push(Loc::Is(node))?;
    look_at(arguments.as_slice(), reads)?;
    if rules.is_inherited(attribute) {
        return climb(alloc, rules, store, reads, node, attribute, arguments);
    }
    match rules.own_body(store.class(node), attribute) {
        Some(body) => Ok((Here::new(alloc, node, None, arguments), body)),
        None => Err(Stop::GivesUp),
    }
}

// Goes up to where the inherited equation stands.
fn climb<'a>(
    alloc: Global,
    rules: &'a Rules,
    store: &Store,
    reads: &mut Reads,
    node: Node,
    attribute: AttrId,
    arguments: Arguments,
) -> Result<(Here, &'a Body), Stop>
    requires idle { IsIdle store.now }
    ensures { IfOk result (λ r. HasBegun (contents store.now) reads.old reads.new
        (by_inherited rules.now nat_eq (attribute_name rules.now attribute) (map value_view arguments) max_depth node)
        (ev rules.now.classes (body_view r.1.now) (place_at r.0))) }
{
    let mut below = node;
    let mut height = MAX_DEPTH;
    while height > 0 {
        height -= 1;
        reads.push(Loc::Up(below))?;
        let Some((parent, part)) = store.up(below) else {
            return Err(Stop::GivesUp);
        };
        reads.push(Loc::Is(parent))?;
        if let Some(body) = rules.inherited_body(store.class(parent), part, attribute) {
            return Ok((Here::new(alloc, parent, Some(below), arguments), body));
        }
        below = parent;
    }
    Err(Stop::GivesUp)
}

// The argument at a position.
pub(crate) fn at(arguments: &[Value], position: usize) -> Option<&Value>
    ensures { option_copied result ≡ slice_get arguments.now position }
{
    arguments.iter().nth(position)
}

// Whether the expressions are just the names of these arguments, in order, behind those of so many elements of folds.
pub(crate) fn are_names(passed: &[Body], bound: usize, arguments: &[Value]) -> bool
    ensures { IsTrue result → (classes : Classes) (p : Place) → length p.bound ≡ bound → p.passed ≡ arguments.now
        → ev_all classes (bodies_view passed.now) p ≡ Gives (map value_view arguments.now) }
{
    if passed.len() != arguments.len() {
        return false;
    }
    for (index, argument) in passed.iter().enumerate() {
        if !is_passed(argument, bound, index) {
            return false;
        }
    }
    true
}
