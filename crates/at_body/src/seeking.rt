//! The folds over the elements of a component that stand under a mark.

ghost use Rattle.std.specs.Prelude.{◌≡◌, ◌<◌, ◌+◌, ◌∷◌, ℕ, length, IfOk};
ghost use Rattle.at_model.specs.Classes.{Classes};
ghost use Rattle.at_model.specs.Rules.{Rules as Meant};
ghost use Rattle.at_model.specs.TypedRuns.{ClassAt};
ghost use Rattle.at_rules.specs.Bodies.{body_view};
ghost use Rattle.at_store.specs.Shown.{contents, IsIdle};
ghost use Rattle.at_body.specs.Rest.{GoesOn, cost, decided, gone_over, load, rest, sought_over, used, weight};
ghost use Rattle.at_body.specs.Seeking.{candidates, fold_of, found_by};
ghost use Rattle.at_body.specs.Size.{most, size, tests};
ghost use Rattle.at_body.specs.Typed.{Decides, Folds, GoesOver, IsOver, IsTypedNow, Uses};
ghost use Rattle.at_body.specs.ValueKinds.{IsTruth};
ghost use Rattle.at_body.specs.Values.{value_view};
ghost use Rattle.at_body.specs.declared.todo.Now.TheVariants.{Enter};
ghost use Rattle.at_body.specs.declared.todo.Todo.TheVariants.{Among, Under};

use super::candidates::{Candidates, mark_at};
use super::folding::come_to;
use super::todo::{Now, Search, Todo};
use super::trial::Trial;
use super::value::{FaultKind, Value};
use at_rules::{Body, Lookup};
use at_store::{Loc, Node, Store};
use std::alloc::AllocError;

impl<'a> Trial<'a> {
    /// Evaluates the node over whose elements under a mark the search of an expression goes.
    pub(crate) fn under(
        &mut self,
        search: Search,
        node: &'a Body,
        lookup: &'a Lookup,
        body: &'a Body,
    ) -> Result<Now<'a>, AllocError>
        ensures { IfOk result (λ now. (now ≡ Enter node.entry)
            × (self.new ≡ record self.old { todo = Under search lookup.entry body.entry ∷ self.old.todo })) }
    {
        self.then(Todo::Under(search, lookup, body), node)
    }

    /// Goes over the elements in a component of a node that stand under the mark of what is looked for, or gives a fault.
    pub(crate) fn elements_under(
        &mut self,
        store: &'a Store,
        search: Search,
        lookup: &'a Lookup,
        body: &'a Body,
        node: Option<Node>,
    ) -> Result<Now<'a>, AllocError>
        requires idle_store { IsIdle store.now }
        ensures same { (classes : Classes)
            → IfOk result (λ now. GoesOn (contents store.now) classes self.old.reads
            (sought_over classes self.old search lookup.now (body_view body.now) node) now self.new) }
        ensures less { IfOk result (λ now. weight now self.new < tests (size (body_view body.now)) most + load self.old.todo + 1) }
        ensures typed { (meant : Meant) (at : ClassAt ℕ) → IsOver meant at (contents store.now)
            → Folds meant at self.old (fold_of search) lookup.now.part body.now node → IfOk result (λ now. IsTypedNow meant at now self.new) }
    {
        match node {
            Some(node) => {
                let mark = mark_at(&self.bound, self.arguments.as_slice(), &lookup.sought);
                self.reads
                    .push(Loc::drawer(node, lookup.part, lookup.key, mark))?;
                let all = Candidates::of(store, node, lookup);
                self.next_among(search, mark, body, &all)
            }
            None => Ok(Now::Fail(FaultKind::Null)),
        }
    }

    /// Goes on at the next element under the mark, or gives what the search comes to where there is none.
    fn next_among(
        &mut self,
        search: Search,
        mark: u32,
        body: &'a Body,
        among: &Candidates<'a>,
    ) -> Result<Now<'a>, AllocError>
        requires idle_store { IsIdle among.now.store.now }
        ensures same { (classes : Classes) → IfOk result (λ now.
            gone_over classes self.old (fold_of search) (body_view body.now) (candidates among.now mark) ≡ rest classes now self.new) }
        ensures less { IfOk result (λ now. weight now self.new < tests (size (body_view body.now)) (length (candidates among.now mark)) + load self.old.todo) }
        ensures reads { IfOk result (λ now. self.new.reads ≡ self.old.reads) }
        ensures typed { (meant : Meant) (at : ClassAt ℕ) → GoesOver meant at self.old (fold_of search) body.now (candidates among.now mark)
            → IfOk result (λ now. IsTypedNow meant at now self.new) }
    {
        match among.split_first(mark) {
            Some(next) => {
                let others = Candidates {
                    lookup: among.lookup,
                    store: among.store,
                    children: next.1,
                };
                self.bound.push(next.0)?;
                self.then(Todo::Among(search, mark, body, others), body)
            }
            None => Ok(Now::Back(come_to(&search.fold()))),
        }
    }

    /// Uses what the search's expression gives at the element that was bound last, which is bound no more.
    pub(crate) fn behind(
        &mut self,
        search: Search,
        mark: u32,
        body: &'a Body,
        others: &Candidates<'a>,
        value: &Value,
    ) -> Result<Now<'a>, AllocError>
        requires typed { (meant : Meant) × (at : ClassAt ℕ) × Uses meant at self.old (Among search mark body others.now) (value_view value.now) }
        ensures same { (classes : Classes)
            → IfOk result (λ now. used classes (Among search mark body.entry others.now) self.old (value_view value.now) ≡ rest classes now self.new) }
        ensures less { IfOk result (λ now. weight now self.new < cost (Among search mark body.entry others.now) + load self.old.todo) }
        ensures reads { IfOk result (λ now. self.new.reads ≡ self.old.reads) }
        ensures typed { (meant : Meant) (at : ClassAt ℕ) → Uses meant at self.old (Among search mark body.entry others.now) (value_view value.now)
            → IfOk result (λ now. IsTypedNow meant at now self.new) }
    {
        match self.bound.pop() {
            Some(node) => self.decide_among(search, mark, body, node, others, value),
            None => unreachable!(),
        }
    }

    /// Uses what the search's expression gives at an element.
    fn decide_among(
        &mut self,
        search: Search,
        mark: u32,
        body: &'a Body,
        node: Node,
        others: &Candidates<'a>,
        value: &Value,
    ) -> Result<Now<'a>, AllocError>
        requires truth { IsTruth (value_view value.now) }
        requires idle_store { IsIdle others.now.store.now }
        ensures same { (classes : Classes) → IfOk result (λ now. decided classes self.old (fold_of search) (body_view body.now) node
            (candidates others.now mark) (value_view value.now) ≡ rest classes now self.new) }
        ensures less { IfOk result (λ now. weight now self.new < tests (size (body_view body.now)) (length (candidates others.now mark)) + load self.old.todo) }
        ensures reads { IfOk result (λ now. self.new.reads ≡ self.old.reads) }
        ensures typed { (meant : Meant) (at : ClassAt ℕ)
            → Decides meant at self.old (fold_of search) body.now node (candidates others.now mark) (value_view value.now)
            → IfOk result (λ now. IsTypedNow meant at now self.new) }
    {
        if value.truth() {
            return Ok(Now::Back(found(&search, node)));
        }
        self.next_among(search, mark, body, others)
    }
}

/// What a search comes to at an element of which its expression is true.
fn found(search: &Search, node: Node) -> Value
    ensures { value_view result ≡ found_by search.now node }
{
    match search {
        Search::Any => Value::Bool(true),
        Search::First => Value::Ref(Some(node)),
    }
}
