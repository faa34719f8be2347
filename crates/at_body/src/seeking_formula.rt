//! The formula of whether there is one of the elements that stand under a mark.

ghost use Rattle.std.specs.Prelude.{◌≡◌, ◌<◌, ◌≤◌, ◌+◌, ◌*◌, ℕ, IfOk, length, not};
ghost use Rattle.at_model.specs.Rules.{Rules as Meant};
ghost use Rattle.at_model.specs.Run.{Contents};
ghost use Rattle.at_model.specs.TypedRuns.{ClassAt};
ghost use Rattle.at_rules.specs.Bodies.{body_view};
ghost use Rattle.at_store.specs.Shown.{contents, IsIdle};
ghost use Rattle.at_body.specs.Forms.{CarriesOn, GoesOn, among, gone_over, load, place_of, rest, settled, sought_over, weight};
ghost use Rattle.at_body.specs.Pieces.{HasTop, top_of};
ghost use Rattle.at_body.specs.Seeking.{candidates};
ghost use Rattle.at_body.specs.Size.{most, size, tests};
ghost use Rattle.at_body.specs.Typed.{IsOver};
ghost use Rattle.at_body.specs.TypedForms.{Decides, Folds, GoesOver, IsForm, IsTypedDoing};

use super::candidates::{Candidates, mark_at};
use super::forming::Forming;
use super::task::{Doing, Task};
use super::value::FaultKind;
use at_rules::{Body, Lookup};
use at_store::{Loc, Node, Store};
use std::alloc::{AllocError, Global};

impl<'a> Forming<'a> {
    /// Goes over the elements in a component of a node that stand under the mark of what is looked for, or gives a fault.
    pub(crate) fn elements_under(
        &mut self,
        alloc: Global,
        store: &'a Store,
        positive: bool,
        lookup: &'a Lookup,
        body: &'a Body,
        node: Option<Node>,
    ) -> Result<Doing<'a>, AllocError>
        requires idle_store { IsIdle store.now }
        ensures same { (meant : Meant) → IfOk result (λ d. GoesOn (contents store.now) meant self.old.trial.reads
            (sought_over meant self.old positive lookup.now (body_view body.now) node) d self.new) }
        ensures less { IfOk result (λ d. weight d self.new < 3 * tests (size (body_view body.now)) most + 1 + load self.old.tasks) }
        ensures typed { (meant : Meant) (at : ClassAt ℕ) → IsOver meant at (contents store.now)
            → Folds meant at self.old lookup.now.part body.now node → IfOk result (λ d. IsTypedDoing meant at (contents store.now) d self.new) }
    {
        match node {
            Some(node) => {
                let mark = mark_at(&self.bound, self.arguments.as_slice(), &lookup.sought);
                let loc = Loc::drawer(node, lookup.part, lookup.key, mark);
                self.trial.reads.push(loc)?;
                let all = Candidates::of(store, node, lookup);
                self.next_among(alloc, positive, mark, body, &all)
            }
            None => Ok(Doing::Fail(FaultKind::Null)),
        }
    }

    /// The formula at the next element under the mark, or that there is none.
    fn next_among(
        &mut self,
        alloc: Global,
        positive: bool,
        mark: u32,
        body: &'a Body,
        among: &Candidates<'a>,
    ) -> Result<Doing<'a>, AllocError>
        requires idle_store { IsIdle among.now.store.now }
        ensures same { (meant : Meant)
            → IfOk result (λ d. gone_over meant self.old positive (body_view body.now) (candidates among.now mark) ≡ rest meant d self.new) }
        ensures less { IfOk result (λ d.
            weight d self.new + 2 ≤ 3 * tests (size (body_view body.now)) (length (candidates among.now mark)) + load self.old.tasks) }
        ensures reads { IfOk result (λ d. self.new.trial.reads ≡ self.old.trial.reads) }
        ensures typed { (meant : Meant) (at : ClassAt ℕ) (look : Contents ℕ) → GoesOver meant at self.old body.now (candidates among.now mark)
            → IfOk result (λ d. IsTypedDoing meant at look d self.new) }
    {
        match among.split_first(mark) {
            Some(next) => {
                let others = Candidates {
                    lookup: among.lookup,
                    store: among.store,
                    children: next.1,
                };
                let boxed = Box::new(alloc, others)?;
                self.bound.push(next.0)?;
                self.tasks.push(Task::Among(positive, mark, body, boxed))?;
                Ok(Doing::Form(positive, body))
            }
            None => self.known(!positive),
        }
    }

    /// The next element under the mark, where this one doesn't decide.
    pub(crate) fn decide_among(
        &mut self,
        alloc: Global,
        positive: bool,
        mark: u32,
        body: &'a Body,
        others: &Candidates<'a>,
    ) -> Result<Doing<'a>, AllocError>
        requires top { HasTop self.old.pile }
        requires idle_store { IsIdle others.now.store.now }
        ensures does { IfOk result (λ d. CarriesOn (λ meant. settled meant self.old positive (not positive)
            (among meant self.old.start positive (body_view body.now) (place_of self.old) (candidates others.now mark)))
            (3 * tests (size (body_view body.now)) (length (candidates others.now mark))) self.old d self.new) }
        ensures typed { (meant : Meant) (at : ClassAt ℕ) (look : Contents ℕ) → IsForm meant at (top_of self.old.pile)
            → Decides meant at self.old body.now (candidates others.now mark) → IfOk result (λ d. IsTypedDoing meant at look d self.new) }
    {
        if self.pile.is_surely(positive) {
            return Ok(Doing::Made);
        }
        self.keep(!positive)?;
        self.next_among(alloc, positive, mark, body, others)
    }
}
