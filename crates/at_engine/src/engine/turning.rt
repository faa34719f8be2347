//! Turns of open questions.

use super::asking::Asked;
use super::saying::{Told, say};
use super::{Engine, REPLY_ROOM};
use crate::marks::has_asked;
use at_demand::Question;
use at_evict::Bounded;
use at_protocol::reply::{Form, Posting, Refusal};
use std::alloc::AllocError;

/// What a turn begins with: what was done for the question, or why its words are refused.
#[derive(Drop)]
pub enum Begun {
    Question(Question),
    Refused(Refusal),
}

/// What turns were spent: how many, where there is a limit, and, where the question was answered by the last one, whether for
/// want of memory.
#[derive(Clone, Copy, Debug)]
pub struct Spent {
    pub turns: u64,
    pub told: Option<bool>,
}

impl<K: Bounded> Engine<K> {
    ghost use Rattle.std.specs.Prelude.{◌≡◌, ◌+◌, ◌<◌, ◌≤◌, IfOk, MatchBool, None, [], length, vec_len, vec_capacity};
    ghost use Rattle.at_store.specs.Shown.{contents};
    ghost use Rattle.at_demand.specs.Groups.{KeepsGroups};
    ghost use Rattle.at_engine.specs.Engines.{rules_of, IsSound};
    ghost use Rattle.at_engine.specs.Holding.{HasBegun};
    ghost use Rattle.at_engine.specs.Keeping.{IsSparingOn};
    ghost use Rattle.at_engine.specs.Making.{WentOn};
    ghost use Rattle.at_engine.specs.declared.posts.Posted.{Posted};
    ghost use Rattle.at_engine.specs.Hearing.{IsClosed};
    ghost use Rattle.at_engine.specs.Telling.{IsSaid};
    ghost use Rattle.at_protocol.specs.Writable.{IsWritable};
    ghost use Rattle.at_engine.specs.Serving.{Calls};
    ghost use Rattle.at_engine.specs.Turned.{HasGiven, HasTurned};
    ghost use Rattle.at_engine.specs.Turning.{Attends, Begins, BeginsSparing, CanGoOn, CanSpend, CanTurn, HasGone, IsHeldAt, StandsAt, TakesOff, told_of};

    /// Gives one turn to the open question with the least number, and appends the line with its answer, where it has one.
    /// Whether a question is open.
    ///
    /// # Errors
    ///
    /// Where room for 64 bytes is refused, and then nothing has changed. Every other want of memory is an answer.
    pub fn turn(&mut self, out: &mut Vec<u8>) -> Result<bool, AllocError>
        requires sound { IsSound K.contents K.memories self.old }
        ensures { Calls K.contents K.memories self.old self.new out.old out.new
            (HasTurned K.contents K.memories self.old self.new out.old.items out.new.items) result }
    {
        let is_settled = self.posts.is_empty();
        self.give(Some(1), out)?;
        Ok(!is_settled)
    }

    /// Whether no question is open.
    pub(crate) fn is_settled(&self) -> bool
        ensures { MatchBool result (self.now.posts.items.items ≡ []) (0 < length self.now.posts.items.items) }
    {
        self.posts.is_empty()
    }

    /// Gives up to so many turns to the open question with the least number, or, without a limit, as many as it needs, and
    /// appends the line with its answer, where it has one.
    pub(crate) fn give(
        &mut self,
        limit: Option<u64>,
        out: &mut Vec<u8>,
    ) -> Result<Spent, AllocError>
        requires { CanSpend K.contents K.memories self.old limit }
        ensures { Calls K.contents K.memories self.old self.new out.old out.new
            (HasGiven K.contents K.memories limit self.old self.new out.old.items out.new.items) result }
    {
        out.reserve(REPLY_ROOM)?;
        if self.posts.is_empty() {
            return Ok(Spent {
                turns: 0,
                told: None,
            });
        }
        let (turns, form) = match self.go_on(0, limit) {
            Ok(gone) => gone,
            Err(error) => {
                let told = Some(self.tell(0, Err(error), out));
                return Ok(Spent { turns: 1, told });
            }
        };
        match form {
            None => Ok(Spent { turns, told: None }),
            Some(form) => {
                let told = Some(self.tell(0, Ok(form), out));
                Ok(Spent { turns, told })
            }
        }
    }

    /// What is told of a line that waits for the question at the position, which is given turns until it is answered.
    pub(super) fn wait(&mut self, position: usize) -> Told
        requires { CanTurn K.contents K.memories self.old position }
        ensures attends { Attends K.contents K.memories self.old self.new position
            (λ p. IsClosed K.contents K.memories self.old self.new p result) (KeepsGroups (rules_of self.old) result.form) }
        ensures went { WentOn K.contents K.memories [] self.old self.new }
    {
        let (_, form) = match self.go_on(position, None) {
            Ok(gone) => gone,
            Err(error) => return self.close(position, Err(error)),
        };
        match form {
            Some(form) => self.close(position, Ok(form)),
            None => unreachable!(),
        }
    }

    /// Takes the question at the position off, and appends the line with its answer; whether that is `memory`.
    fn tell(&mut self, position: usize, form: Result<Form, AllocError>, out: &mut Vec<u8>) -> bool
        requires there { IsHeldAt K.contents K.memories self.old position }
        requires writable { IfOk form IsWritable }
        requires room { vec_len out.old + 64 ≤ vec_capacity out.old }
        ensures off { TakesOff K.contents K.memories self.old self.new position
            (λ p. IsSaid (told_of p self.old.version form) result out.old.items out.new.items) }
        ensures room { vec_capacity out.old ≤ vec_capacity out.new }
    {
        say(self.close(position, form), out)
    }

    /// Takes the question at the position off; what is told of it.
    fn close(&mut self, position: usize, form: Result<Form, AllocError>) -> Told
        requires { IsHeldAt K.contents K.memories self.old position }
        ensures { TakesOff K.contents K.memories self.old self.new position (λ p. result ≡ told_of p self.old.version form) }
    {
        let posted = self.posts.remove(position);
        let done = Posting {
            number: posted.number,
            version: self.version,
        };
        Told {
            session: Some(posted.session),
            done: Some(done),
            form,
        }
    }

    /// So many turns of the question at the position, or fewer where it is answered; without a limit, turns until it is. How
    /// many they were, where there is a limit, and its answer.
    fn go_on(
        &mut self,
        position: usize,
        limit: Option<u64>,
    ) -> Result<(u64, Option<Form>), AllocError>
        requires { CanGoOn K.contents K.memories self.old position limit }
        ensures attends { Attends K.contents K.memories self.old self.new position
            (λ p. HasGone K.contents K.memories limit self.old self.new position p result) (KeepsGroups (rules_of self.old) result) }
        ensures went { WentOn K.contents K.memories [] self.old self.new }
    {
        let begun = self.posts.take(position);
        let mut question = match self.begin(position, begun)? {
            Begun::Question(question) => question,
            Begun::Refused(refusal) => return Ok((1, Some(Form::Refused(refusal)))),
        };
        let (turns, answer) = self
            .demand
            .turns(&self.rules, &self.store, &mut question, limit)?;
        match answer {
            Some(answer) => Ok((turns, Some(self.told(answer)?))),
            None => {
                self.posts.keep(position, question);
                Ok((turns, None))
            }
        }
    }

    /// What was done for the question at the position; where nothing was, its words are looked at.
    fn begin(&self, position: usize, begun: Option<Question>) -> Result<Begun, AllocError>
        requires { CanTurn K.contents K.memories self.now position }
        ensures begins { (p : Posted) → StandsAt self.now.posts.items.items position p
            → HasBegun (rules_of self.now) self.now.store (K.contents self.now.demand.keeper) p begun
            → IfOk result (Begins (rules_of self.now) self.now.store (K.contents self.now.demand.keeper) p begun) }
        ensures sparing { IsSparingOn (rules_of self.now) (contents self.now.store) (K.contents self.now.demand.keeper) begun
            → IfOk result (BeginsSparing (rules_of self.now) (contents self.now.store) (K.contents self.now.demand.keeper)) }
    {
        match begun {
            Some(question) => Ok(Begun::Question(question)),
            None => self.begin_anew(position),
        }
    }

    /// A question for the words at the position, or why they are refused.
    fn begin_anew(&self, position: usize) -> Result<Begun, AllocError>
        requires { CanTurn K.contents K.memories self.now position }
        ensures begins { (p : Posted) → StandsAt self.now.posts.items.items position p
            → IfOk result (Begins (rules_of self.now) self.now.store (K.contents self.now.demand.keeper) p None) }
        ensures sparing { IfOk result (BeginsSparing (rules_of self.now) (contents self.now.store) (K.contents self.now.demand.keeper)) }
    {
        let posted = self.posts.at(position);
        let arguments = posted.arguments.as_slice();
        if !self.reads(arguments) {
            return Ok(Begun::Refused(Refusal::Syntax));
        }
        if !has_asked(&posted.marks, posted.session, &posted.place, arguments) {
            return Ok(Begun::Refused(Refusal::Mark));
        }
        let asked = self.asked(
            &posted.marks,
            posted.session,
            &posted.place,
            posted.attribute.as_str(),
            arguments,
        )?;
        match asked {
            Asked::Instance(inst) => Ok(Begun::Question(self.demand.post(inst)?)),
            Asked::Refused(refusal) => Ok(Begun::Refused(refusal)),
        }
    }
}
