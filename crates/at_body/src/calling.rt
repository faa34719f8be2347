//! The receivers of calls, and arguments that are handed on.

ghost use Rattle.std.specs.Prelude.{◌≡◌, ◌<◌, ◌+◌, [], ◌∷◌, ℕ, IfOk, IfSome, IsTrue, Some, map};
ghost use Rattle.at_model.specs.Bodies.{Child, Name, This};
ghost use Rattle.at_model.specs.Classes.{Classes};
ghost use Rattle.at_model.specs.Rules.{Rules as Meant};
ghost use Rattle.at_model.specs.Run.{Contents, Gives, Ref};
ghost use Rattle.at_model.specs.TypedRuns.{ClassAt};
ghost use Rattle.at_store.specs.Shown.{contents, IsIdle};
ghost use Rattle.at_rules.specs.Bodies.{body_view, bodies_view};
ghost use Rattle.at_body.specs.declared.todo.Now.TheVariants.{Ask};
ghost use Rattle.at_body.specs.declared.todo.Todo.TheVariants.{Arguments};
ghost use Rattle.at_body.specs.Calling.{IsReceiver};
ghost use Rattle.at_body.specs.Rest.{GoesOn, called, ev_all, evaluated_for, load, place_of, rest, weight};
ghost use Rattle.at_body.specs.Size.{size, sizes};
ghost use Rattle.at_body.specs.Typed.{Calls, Enters, IsOver, IsTypedNow};
ghost use Rattle.at_body.specs.Values.{value_view};

use super::starting::node_in;
use super::todo::{Now, Todo};
use super::trial::Trial;
use at_rules::{AttrId, Body};
use at_store::{Loc, Node, Store};
use std::alloc::{AllocError, Global};

impl<'a> Trial<'a> {
    /// Evaluates the receiver of a call, and then its arguments. `this`, an element of a fold and a child of `this`, as most receivers
    /// are, are taken at once.
    pub(crate) fn call(
        &mut self,
        alloc: Global,
        store: &'a Store,
        receiver: &'a Body,
        attribute: AttrId,
        arguments: &'a [Body],
    ) -> Result<Now<'a>, AllocError>
        requires idle_store { IsIdle store.now }
        ensures same { (classes : Classes)
            → IfOk result (λ now. GoesOn (contents store.now) classes self.old.reads
            (evaluated_for classes self.old (Arguments attribute arguments.entry) (body_view receiver.now)) now self.new) }
        ensures less { IfOk result (λ now. weight now self.new < size (body_view receiver.now) + sizes (bodies_view arguments.now) + 3 + load self.old.todo) }
        ensures typed { (meant : Meant) (at : ClassAt ℕ) → IsOver meant at (contents store.now)
            → Enters meant at (record self.old { todo = Arguments attribute arguments.entry ∷ self.old.todo }) receiver.now
            → IfOk result (λ now. IsTypedNow meant at now self.new) }
    {
        let near = self.receiver(store, receiver)?;
        match near {
            Some(node) => self.call_at(alloc, node, attribute, arguments),
            None => self.then(Todo::Arguments(attribute, arguments), receiver),
        }
    }

    /// Demands the attribute of the node with all that was passed, which the call then shares, where it hands just that on; else
    /// evaluates its first argument.
    fn call_at(
        &mut self,
        alloc: Global,
        node: Node,
        attribute: AttrId,
        arguments: &'a [Body],
    ) -> Result<Now<'a>, AllocError>
        ensures same { (classes : Classes)
            → IfOk result (λ now. called classes self.old attribute (Ref (Some node)) [] (bodies_view arguments.now) ≡ rest classes now self.new) }
        ensures less { IfOk result (λ now. weight now self.new < sizes (bodies_view arguments.now) + 2 + load self.old.todo) }
        ensures reads { IfOk result (λ now. self.new.reads ≡ self.old.reads) }
        ensures typed { (meant : Meant) (at : ClassAt ℕ) (look : Contents ℕ) → IsOver meant at look
            → Calls meant at self.old attribute (Some node) [] (bodies_view arguments.now)
            → IfOk result (λ now. IsTypedNow meant at now self.new) }
    {
        if self.hands_on(arguments) {
            return self.handed_on(attribute, node);
        }
        self.first_argument(alloc, attribute, Some(node), arguments)
    }

    /// The demand of an attribute of a node with all that was passed, which is shared.
    fn handed_on(&self, attribute: AttrId, node: Node) -> Result<Now<'a>, AllocError>
        ensures { IfOk result (λ now. now ≡ Ask attribute node self.now.arguments) }
    {
        Ok(Now::Ask(attribute, node, self.arguments.share()?))
    }

    /// Whether the arguments of a call are just the names of all that was passed, in order.
    fn hands_on(&self, arguments: &[Body]) -> bool
        ensures { IsTrue result → (classes : Classes)
            → ev_all classes (bodies_view arguments.now) (place_of self.now) ≡ Gives (map value_view self.now.arguments) }
    {
        if arguments.len() != self.arguments.as_slice().len() {
            return false;
        }
        let bound = self.bound.len();
        for (index, argument) in arguments.iter().enumerate() {
            if !is_passed(argument, bound, index) {
                return false;
            }
        }
        true
    }

    /// The node that the expression stands for where it is at hand or a child of `this`, which is looked at then; none where it is null
    /// or another expression, or there is no such child.
    fn receiver(&mut self, store: &'a Store, body: &Body) -> Result<Option<Node>, AllocError>
        requires idle_store { IsIdle store.now }
        ensures { IfOk result (IsReceiver (contents store.now) (body_view body.now) self.old self.new) }
    {
        match self.at_hand(body) {
            Some(value) => Ok(node_in(&value)),
            None => self.own_child(store, body),
        }
    }

    /// The child of `this` that the expression stands for, which is looked at then; none where it is another expression, or there is
    /// no such child.
    fn own_child(&mut self, store: &'a Store, body: &Body) -> Result<Option<Node>, AllocError>
        requires idle_store { IsIdle store.now }
        ensures { IfOk result (IsReceiver (contents store.now) (body_view body.now) self.old self.new) }
    {
        let Some(part) = own_part(body) else {
            return Ok(None);
        };
        let node = self.this;
        let Some(child) = store.child(node, part) else {
            return Ok(None);
        };
        self.reads.push(Loc::Slot(node, part))?;
        Ok(Some(child))
    }
}

/// Whether the expression is the name of the argument at an index, behind the names of so many elements of folds.
pub fn is_passed(body: &Body, bound: usize, index: usize) -> bool
    ensures { IsTrue result → body_view body.now ≡ Name (bound + index) }
{
    match body {
        Body::Name(position) => {
            if *position < bound {
                return false;
            }
            *position - bound == index
        }
        _ => false,
    }
}

/// The component whose child of `this` the expression stands for; none for another expression.
pub(crate) fn own_part(body: &Body) -> Option<usize>
    ensures { IfSome result (λ part. body_view body.now ≡ Child This part) }
{
    match body {
        Body::Child(node, part) => part_of(node, *part),
        _ => None,
    }
}

/// The component, where the node whose child is meant is `this`.
fn part_of(node: &Body, part: usize) -> Option<usize>
    ensures { IfSome result (λ p. Child (body_view node.now) part ≡ Child This p) }
{
    match node {
        Body::This => Some(part),
        _ => None,
    }
}
