//! Questions that are open: their words, the marks in these, and how far each has come.

ghost use Rattle.std.specs.Prelude.{◌≡◌, ◌++◌, ◌∷◌, ◌<◌, ◌+◌, [], nat_eq, nat_le, count_by, position, find, slice_get, remove, IfOk, OnErr, None, Some, MatchBool, MatchOption, length};
ghost use Rattle.std.specs.Option.{option_map};
ghost use Rattle.at_model.specs.Alike.{ListLike};
ghost use Rattle.at_model.specs.Lines.{last_post};
ghost use Rattle.at_store.specs.Shown.{path};
ghost use Rattle.at_engine.specs.Posted.{is_numbered, turns_given, IsBegunAnew};

use crate::marks::Noted;
use crate::nodes::Nodes;
use at_demand::Question;
use at_protocol::line::{Argument, Place};
use std::alloc::{AllocError, Global};

/// How many questions a session may have open.
pub const MAX_POSTED: usize = 100;

/// A question that is open: its number, whose it is, its words, the marks in these as they were when it was posted, and how
/// far it has come on the tree as it is, where its words were looked at.
pub struct Posted {
    pub(crate) number: u64,
    pub(crate) session: u16,
    pub(crate) place: Place<'static>,
    pub(crate) attribute: String,
    pub(crate) arguments: Vec<Argument<'static>>,
    pub(crate) marks: Noted,
    pub(crate) question: Option<Question>,
}

/// One call, where each exit that lets it go would else have a case for each field.
impl Drop for Posted {
    fn drop(self) {
        let Posted {
            number: _,
            session: _,
            place: _,
            attribute: _,
            arguments: _,
            marks: _,
            question: _,
        } = self;
    }
}

impl Posted {
    /// Whether it is the session's question of that number.
    fn is(&self, session: u16, number: u64) -> bool
        ensures { result ≡ is_numbered session number self.now }
    {
        session == self.session && number == self.number
    }

    /// How many turns it was given since it was posted, or since the last edit.
    fn turns(&self) -> u128
        ensures { result ≡ turns_given self.now.question }
    {
        match &self.question {
            Some(question) => question.turns(),
            None => 0,
        }
    }

    /// Drops what was done for it, and forgets the marks of nodes that are gone.
    fn begin_anew(&mut self, there: &Nodes<'_>)
        ensures { IsBegunAnew (path there.now.store.now) self.old self.new }
    {
        self.question = None;
        self.marks.keep_live(there);
    }
}

/// The questions of all sessions that are open, in the order of their numbers, and how many were posted.
#[derive(Drop)]
pub struct Posts {
    pub(crate) count: u64,
    pub(crate) items: Vec<Posted>,
}

impl Posts {
    ghost use Rattle.at_engine.specs.Turning.{PutsBack, Renews, TakesOut};

    /// None, and none was posted.
    pub fn new(alloc: Global) -> Posts
        ensures count { result.count ≡ 0 }
        ensures items { result.items.items ≡ [] }
    {
        Posts {
            count: 0,
            items: Vec::new(alloc),
        }
    }

    /// Whether no question is open.
    pub fn is_empty(&self) -> bool
        ensures { MatchBool result (self.now.items.items ≡ []) (0 < length self.now.items.items) }
    {
        self.items.is_empty()
    }

    /// Whether the session has as many questions open as it may.
    pub fn is_full(&self, session: u16) -> bool
        ensures { result ≡ nat_le 100 (count_by (λ p. nat_eq session p.session) self.now.items.items) }
    {
        self.items
            .iter()
            .filter(|posted| session == posted.session)
            .count()
            >= MAX_POSTED
    }

    /// The number of the next question; none behind the last number.
    pub fn next_number(&self) -> Option<u64>
        ensures { MatchOption result (self.now.count ≡ last_post) (λ n. (n ≡ self.now.count + 1) × (self.now.count < last_post)) }
    {
        self.count.checked_add(1)
    }

    /// One more question, behind the others. Where memory is wanting all stays as it was.
    pub fn push(&mut self, posted: Posted) -> Result<(), AllocError>
        ensures items { IfOk result (λ u. self.new.items.items ≡ self.old.items.items ++ posted ∷ []) }
        ensures count { IfOk result (λ u. self.new.count ≡ posted.number) }
        ensures err { OnErr result ((self.new.items.items ≡ self.old.items.items) × (self.new.count ≡ self.old.count)) }
    {
        let number = posted.number;
        self.items.push(posted)?;
        self.count = number;
        Ok(())
    }

    /// The position of the session's open question of that number.
    pub fn position(&self, session: u16, number: u64) -> Option<usize>
        ensures { result ≡ position (is_numbered session number) self.now.items.items }
    {
        self.items
            .iter()
            .position(|posted| posted.is(session, number))
    }

    /// How many turns the open question of that number was given; none where none is open under it.
    pub fn turns(&self, number: u64) -> Option<u128>
        ensures { result ≡ option_map (λ p. turns_given p.question) (find (λ p. nat_eq number p.number) self.now.items.items) }
    {
        for posted in &self.items {
            if posted.number == number {
                return Some(posted.turns());
            }
        }
        None
    }

    /// The question at the position.
    pub fn at(&self, position: usize) -> &Posted
        requires { position < length self.now.items.items }
        ensures { slice_get self.now.items.items position ≡ Some result.now }
    {
        &self.items[position]
    }

    /// What was done for the question at the position, which has nothing of it any more; nothing where none stands there.
    pub fn take(&mut self, position: usize) -> Option<Question>
        ensures { TakesOut position self.old self.new result }
    {
        match self.items.get_mut(position) {
            Some(posted) => posted.question.take(),
            None => None,
        }
    }

    /// The question at the position has come so far; nothing changes where none stands there.
    pub fn keep(&mut self, position: usize, question: Question)
        ensures { PutsBack position self.old self.new question }
    {
        if let Some(posted) = self.items.get_mut(position) {
            posted.question = Some(question);
        }
    }

    /// Takes the question at the position off.
    pub fn remove(&mut self, position: usize) -> Posted
        requires { position < length self.old.items.items }
        ensures count { self.new.count ≡ self.old.count }
        ensures posted { slice_get self.old.items.items position ≡ Some result }
        ensures items { self.new.items.items ≡ remove self.old.items.items position }
    {
        self.items.remove(position)
    }

    /// Drops what was done for the questions, and forgets the marks of nodes that are gone.
    pub fn begin_anew(&mut self, there: &Nodes<'_>)
        ensures count { self.new.count ≡ self.old.count }
        ensures items { ListLike (IsBegunAnew (path there.now.store.now)) self.old.items.items self.new.items.items }
    {
        for position in 0..self.items.len() {
            self.renew(position, there);
        }
    }

    /// Drops what was done for the question at the position, and forgets its marks of nodes that are gone.
    fn renew(&mut self, position: usize, there: &Nodes<'_>)
        ensures { Renews (path there.now.store.now) position self.old self.new }
    {
        if let Some(posted) = self.items.get_mut(position) {
            posted.begin_anew(there);
        }
    }
}
