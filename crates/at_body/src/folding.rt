//! The folds over the elements of a component.

ghost use Rattle.std.specs.Prelude.{◌≡◌, ◌<◌, ◌≤◌, ◌+◌, [], ℕ, length, IfOk};
ghost use Rattle.std.specs.Int.{w32, int_wrapping_add};
ghost use Rattle.at_model.specs.Classes.{Classes};
ghost use Rattle.at_model.specs.Bodies.{Expr, int_of};
ghost use Rattle.at_model.specs.Run.{Gives, Slot};
ghost use Rattle.at_model.specs.Rules.{Rules as Meant};
ghost use Rattle.at_model.specs.TypedRuns.{ClassAt};
ghost use Rattle.at_store.specs.Shown.{contents, IsIdle};
ghost use Rattle.at_body.specs.Standing.{Place};
ghost use Rattle.at_body.specs.Size.{size, tests, most};
ghost use Rattle.at_body.specs.Typed.{Decides, Folds, GoesOver, IsOver, IsTold, IsTypedNow};
ghost use Rattle.at_body.specs.ValueKinds.{IsInt};
ghost use Rattle.at_body.specs.Values.{value_view};
ghost use Rattle.at_rules.specs.Bodies.{body_view};
ghost use Rattle.at_body.specs.declared.todo.Fold.TheVariants.{Sum};
ghost use Rattle.at_body.specs.Rest.{GoesOn, rest, weight, over, gone_over, folded, decided, load};

use super::todo::{Fold, Now, Todo};
use super::trial::Trial;
use super::value::{FaultKind, Value};
use at_rules::Body;
use at_store::{Loc, Node, Store};
use std::alloc::AllocError;

impl<'a> Trial<'a> {
    /// Goes over the elements in a component of a node, or gives a fault.
    pub(crate) fn elements(
        &mut self,
        store: &'a Store,
        fold: Fold,
        part: usize,
        body: &'a Body,
        node: Option<Node>,
    ) -> Result<Now<'a>, AllocError>
        requires idle_store { IsIdle store.now }
        ensures same { (classes : Classes)
            → IfOk result (λ now. GoesOn (contents store.now) classes self.old.reads
            (folded classes self.old fold part (body_view body.now) node) now self.new) }
        ensures less { IfOk result (λ now. weight now self.new < tests (size (body_view body.now)) most + load self.old.todo + 1) }
        ensures typed { (meant : Meant) (at : ClassAt ℕ) → IsOver meant at (contents store.now) → Folds meant at self.old fold part body.now node
            → IfOk result (λ now. IsTypedNow meant at now self.new) }
    {
        match node {
            Some(node) => {
                self.reads.push(Loc::Slot(node, part))?;
                self.next_element(fold, body, children(store, node, part))
            }
            None => Ok(Now::Fail(FaultKind::Null)),
        }
    }

    /// Goes on at the next element, or gives what the fold comes to where there is none.
    fn next_element(
        &mut self,
        fold: Fold,
        body: &'a Body,
        nodes: &'a [Node],
    ) -> Result<Now<'a>, AllocError>
        ensures same { (classes : Classes) → IfOk result (λ now. gone_over classes self.old fold (body_view body.now) nodes.now ≡ rest classes now self.new) }
        ensures less { IfOk result (λ now. weight now self.new < tests (size (body_view body.now)) (length nodes.now) + load self.old.todo) }
        ensures reads { IfOk result (λ now. self.new.reads ≡ self.old.reads) }
        ensures typed { (meant : Meant) (at : ClassAt ℕ) → GoesOver meant at self.old fold body.now nodes.now
            → IfOk result (λ now. IsTypedNow meant at now self.new) }
    {
        match nodes.split_first() {
            Some((node, others)) => {
                self.bound.push(*node)?;
                self.then(Todo::Element(fold, body, *node, others), body)
            }
            None => Ok(Now::Back(come_to(&fold))),
        }
    }

    /// Uses what the fold's expression gives at an element.
    pub(crate) fn decide(
        &mut self,
        fold: Fold,
        body: &'a Body,
        node: Node,
        others: &'a [Node],
        value: &Value,
    ) -> Result<Now<'a>, AllocError>
        requires told { IsTold fold (value_view value.now) }
        ensures same { (classes : Classes)
            → IfOk result (λ now. decided classes self.old fold (body_view body.now) node others.now (value_view value.now) ≡ rest classes now self.new) }
        ensures less { IfOk result (λ now. weight now self.new < tests (size (body_view body.now)) (length others.now) + load self.old.todo) }
        ensures reads { IfOk result (λ now. self.new.reads ≡ self.old.reads) }
        ensures typed { (meant : Meant) (at : ClassAt ℕ) → Decides meant at self.old fold body.now node others.now (value_view value.now)
            → IfOk result (λ now. IsTypedNow meant at now self.new) }
    {
        match &fold {
            Fold::Exists => {
                if value.truth() {
                    return Ok(Now::Back(Value::Bool(true)));
                }
                self.next_element(Fold::Exists, body, others)
            }
            Fold::First => {
                if value.truth() {
                    return Ok(Now::Back(Value::Ref(Some(node))));
                }
                self.next_element(Fold::First, body, others)
            }
            Fold::Sum(total) => self.next_element(sum(total, value), body, others),
        }
    }
}

/// What a fold comes to at the end.
pub fn come_to(fold: &Fold) -> Value
    ensures { (classes : Classes) (e : Expr) (p : Place) → over classes fold.now e p [] ≡ Gives (value_view result) }
{
    match fold {
        Fold::Exists => Value::Bool(false),
        Fold::First => Value::Ref(None),
        Fold::Sum(total) => Value::Int(*total),
    }
}

/// A sum with one int more; it wraps.
fn sum(total: &i32, value: &Value) -> Fold
    requires { IsInt (value_view value.now) }
    ensures { result ≡ Sum (int_wrapping_add w32 total.now (int_of (value_view value.now))) }
{
    Fold::Sum(total.wrapping_add(value.int()))
}

/// The children in a component.
pub(crate) fn children<'a>(store: &'a Store, node: Node, part: usize) -> &'a [Node]
    requires idle_store { IsIdle store.now }
    ensures children { result.now ≡ contents store.now (Slot node part) }
    ensures few { length result.now ≤ most }
{
    store.children(node, part)
}
