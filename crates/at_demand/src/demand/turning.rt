//! Turns of a question: each tries one equation, once.

ghost use Rattle.std.specs.Prelude.{◌≡◌, ◌≤◌, ◌⊎◌, ◌+◌, ◌-◌, ◌^◌, ℕ, IfOk, IfSome, None, min};
ghost use Rattle.at_model.specs.Run.{Contents};
ghost use Rattle.at_model.specs.Instances.{AnyText};
ghost use Rattle.at_model.specs.Rules.{Rules};
ghost use Rattle.at_model.specs.TypedRuns.{IsWellTyped};
ghost use Rattle.at_model.specs.Turning.{posted};
ghost use Rattle.at_model.specs.of_fixpoints.Searching.{posted as search_posted};
ghost use Rattle.at_store.specs.Shown.{Shown, contents};
ghost use Rattle.at_body.specs.Typed.{class_shown};
ghost use Rattle.at_cache.specs.Kept.{Entries};
ghost use Rattle.at_demand.specs.Answerable.{CanBeTried, CanGoOn, CanTurn, CanTurnWith};
ghost use Rattle.at_demand.specs.Levels.{IsSearch, StandsFor};
ghost use Rattle.at_demand.specs.Sound.{AreSound};
ghost use Rattle.at_demand.specs.Turns.{IsStanding, IsSparingTurns, under_way};
ghost use Rattle.at_demand.specs.Answered.{HasTurnedOften, HasTurnedOn, HasTurnedWith, TracesNothing};
ghost use Rattle.at_demand.specs.Attempts.{HasAttempted, IsGoing};
ghost use Rattle.at_demand.specs.Searches.{CanResolve, CanSpoil, CanTryLast, CanTurnOn, HasResolved, HasSpoilt, NotesOf, NotesTold, WasTold};
ghost use Rattle.at_demand.specs.Tries.{CanCarryOn, HasCarriedOn};
ghost use Rattle.at_demand.specs.KeptTrials.{Fit, IsNotedRight};
ghost use Rattle.at_demand.specs.LastTried.{CanForm, HasFormed, IsDeeperLast, IsPassedLast, IsPassedOver, IsSettledLast};
ghost use Rattle.at_demand.specs.InTurns.{PutsInTurns, PutsSo};
ghost use Rattle.at_demand.specs.StateOf.{state_of};
ghost use Rattle.at_demand.specs.Went.{TakesTurn};
ghost use Rattle.at_evaluate.specs.Traces.{AreJustified};

use super::Demand;
use super::searching::Resolved;
use crate::answer::Answer;
use crate::evaluation::{Find, Frame};
use crate::question::Question;
use crate::trials::{Attempt, Trials};
use crate::trying::{Going, Tried, Trying, came_to_formula, came_to_value};
use at_body::{Inst, Step, Value};
use at_cache::Keeper;
use at_rules::Rules;
use at_search::{Ending, Fault, Formed};
use at_store::Store;
use indexmap::IndexMap;
use std::alloc::{AllocError, Global};

impl<K: Keeper> Demand<K> {
    /// The question for an instance, as it is before its first turn. It takes no memory as yet, so there is no error.
    pub fn post(&self, inst: Inst) -> Result<Question, AllocError>
        ensures posted { IfOk result (λ q. under_way q ≡ posted inst) }
        ensures search { (entries : Entries) → IfOk result (λ q. IsSearch entries q (search_posted inst)) }
        ensures stands { (entries : Entries) (rules : Rules) (s : Shown) → IsWellTyped rules (class_shown s) AnyText inst → AreSound rules s entries
            → IfOk result (λ q. StandsFor rules s entries q (search_posted inst)) }
        ensures standing { (entries : Entries) (rules : Rules) (s : Shown) → IsWellTyped rules (class_shown s) AnyText inst
            → IfOk result (IsStanding rules s entries) }
        ensures sparing { (entries : Entries) (rules : Rules) (look : Contents ℕ) → IfOk result (IsSparingTurns rules look entries) }
    {
        Ok(Question::new(self.alloc, inst))
    }

    /// So many turns of a question that was posted on the tree as it is, or fewer where one of them answers it; without a limit, turns until one
    /// does. How many they were, from 0 up to the limit, and its answer, if there is one. In each, where the keeper says that turns do so, what can be kept again with
    /// no evaluation is kept first, of the last instance, what it used, and so on. Then at most one equation is tried, once, and at most the values of the last instance and of
    /// those that searches under way have seen come to what is kept. Where that doesn't answer it, its chain has one level more, or the
    /// equation of its last instance has ended. A trial that was begun is gone on with, and not begun anew. An error where memory is
    /// wanting, or where no turn more can be counted; then the question is of no use any more.
    pub fn turns(
        &mut self,
        rules: &Rules,
        store: &Store,
        question: &mut Question,
        limit: Option<u64>,
    ) -> Result<(u64, Option<Answer>), AllocError>
        requires can { CanTurn rules.now store.now (K.contents self.old.keeper) question.old }
        requires justified { AreJustified rules.now (contents store.now) (K.memories self.old.keeper) }
        ensures { TracesNothing (HasTurnedOften rules.now store.now (K.memories self.old.keeper) (K.contents self.old.keeper)
            (K.contents self.new.keeper) self.old.work self.new.work limit question.old question.new result)
            (state_of K.contents K.memories self.old) (state_of K.contents K.memories self.new) }
    {
        // Positions among the finds of one question say nothing of another one.
        self.sharing.clear();
        let again = self.keeper.keeps_in_turns();
        let mut trials = Trials::new(self.alloc);
        let most = limit.unwrap_or(u64::MAX);
        let mut given = 0;
        while given < most {
            self.keep_again_in_turns(again, &question.inst);
            let told = self.turn_with(rules, store, question, &mut trials)?;
            given += 1;
            if let Some(answer) = told {
                return Ok((given, Some(answer)));
            }
        }
        if limit.is_none() {
            return Err(AllocError);
        }
        Ok((given, None))
    }

    // A turn, which goes on with the trial of the last instance where it is there, and leaves those of the others; it is counted where it
    // doesn't answer the question, and so is what it put. An error where memory is wanting, or where no turn more can be counted.
    pub(super) fn turn_with<'a>(
        &mut self,
        rules: &'a Rules,
        store: &'a Store,
        question: &mut Question,
        trials: &mut Trials<'a>,
    ) -> Result<Option<Answer>, AllocError>
        requires { CanTurnWith rules.now store.now (K.contents self.old.keeper) question.old trials.old }
        ensures { TakesTurn (HasTurnedWith rules.now store.now (K.contents self.old.keeper) (K.contents self.new.keeper)
            self.old.work self.new.work question.old question.new trials.new result)
            (state_of K.contents K.memories self.old) (state_of K.contents K.memories self.new) }
    {
        let before = self.work;
        let made = self.made;
        let told = self.turn_unless_kept(rules, store, question, trials);
        self.made = made_since(made, before, self.work);
        told
    }

    // The same, where what it put isn't counted yet.
    fn turn_unless_kept<'a>(
        &mut self,
        rules: &'a Rules,
        store: &'a Store,
        question: &mut Question,
        trials: &mut Trials<'a>,
    ) -> Result<Option<Answer>, AllocError>
        requires { CanTurnWith rules.now store.now (K.contents self.old.keeper) question.old trials.old }
        ensures { PutsSo (HasTurnedWith rules.now store.now (K.contents self.old.keeper) (K.contents self.new.keeper)
            self.old.work self.new.work question.old question.new trials.new result)
            (K.memories self.old.keeper) (K.memories self.new.keeper) }
    {
        if let Some(value) = self.keeper.get(question.asked()) {
            return Ok(Some(Answer::Value(value.copy()?)));
        }
        if let Some(answer) = self.turn_on(rules, store, question, trials)? {
            return Ok(Some(answer));
        }
        question.count_turn()?;
        Ok(None)
    }

    // The same, where what was asked isn't kept; it isn't counted yet. Where the last instance is kept by now, no equation is tried.
    fn turn_on<'a>(
        &mut self,
        rules: &'a Rules,
        store: &'a Store,
        question: &mut Question,
        trials: &mut Trials<'a>,
    ) -> Result<Option<Answer>, AllocError>
        requires { CanTurnOn rules.now store.now (K.contents self.old.keeper) question.old trials.old }
        ensures { PutsSo (HasTurnedOn rules.now store.now (K.contents self.old.keeper) (K.contents self.new.keeper)
            self.old.work self.new.work question.old question.new trials.new result)
            (K.memories self.old.keeper) (K.memories self.new.keeper) }
    {
        if let Some(value) = self.keeper.get(&question.inst) {
            let value = value.copy()?;
            if question.level.is_none() {
                return pass_over(self.alloc, question, trials, value);
            }
            trials.forget();
            return self.go_along(rules, store, question, trials);
        }
        self.try_last(rules, store, question, trials)
    }

    // Tries the equation of the last instance, which isn't kept, up to its end or to the demand of an instance that isn't known and has no
    // fault yet.
    fn try_last<'a>(
        &mut self,
        rules: &'a Rules,
        store: &'a Store,
        question: &mut Question,
        trials: &mut Trials<'a>,
    ) -> Result<Option<Answer>, AllocError>
        requires { CanTryLast rules.now store.now (K.contents self.old.keeper) question.old trials.old }
        ensures { PutsSo (HasTurnedOn rules.now store.now (K.contents self.old.keeper) (K.contents self.new.keeper)
            self.old.work self.new.work question.old question.new trials.new result)
            (K.memories self.old.keeper) (K.memories self.new.keeper) }
    {
        let mut going = self.trial_of(rules, store, question, trials)?;
        loop {
            match self.carry_on(rules, store, &question.found, &question.inst, going)? {
                Tried::Kept(value) => return pass_last(self.alloc, question, trials, value),
                Tried::Found(find) => return settle_last(self.alloc, question, trials, find),
                Tried::Forms(formed) => return self.form(rules, store, question, trials, formed),
                Tried::Fails(kind) => {
                    let at = question.inst.copy(self.alloc)?;
                    return self.spoil(rules, store, question, trials, Fault { kind, at });
                }
                Tried::Waits(trying, needed) => {
                    match self.resolve_noted(rules, store, question, trials, &needed)? {
                        Resolved::Known => going = trying.going(needed),
                        Resolved::Spoilt(fault) => {
                            return self.spoil(rules, store, question, trials, fault);
                        }
                        Resolved::Back => return self.close(rules, store, question, needed),
                        Resolved::Open => return deepen_last(question, trials, trying, needed),
                    }
                }
            }
        }
    }

    // What is known of an instance that isn't kept or found. A fault that was told before is told again, without a search for it.
    fn resolve_noted<'a>(
        &mut self,
        rules: &Rules,
        store: &Store,
        question: &mut Question,
        trials: &mut Trials<'a>,
        inst: &Inst,
    ) -> Result<Resolved, AllocError>
        requires can { CanResolve rules.now store.now (K.contents self.old.keeper) question.old }
        requires noted { IsNotedRight rules.now (contents store.now) trials.old.noted.entries }
        ensures resolved { HasResolved rules.now store.now (K.contents self.old.keeper) (K.contents self.new.keeper) (K.memories self.old.keeper)
            (K.memories self.new.keeper) self.old.work self.new.work question.old question.new inst.now result }
        ensures frames { trials.new.frames.items ≡ trials.old.frames.items }
        ensures awaited { trials.new.awaited ≡ trials.old.awaited }
        ensures noted { IsNotedRight rules.now (contents store.now) trials.new.noted.entries }
    {
        let before = told_before(self.alloc, question, trials, inst)?;
        if let Some(fault) = before {
            return Ok(Resolved::Spoilt(fault));
        }
        let told = self.resolve(rules, store, question, inst);
        note_told(self.alloc, trials, inst, &told);
        told
    }

    // The equation of the last instance gives that formula: the search goes on behind it.
    fn form<'a>(
        &mut self,
        rules: &Rules,
        store: &Store,
        question: &mut Question,
        trials: &mut Trials<'a>,
        formed: Formed,
    ) -> Result<Option<Answer>, AllocError>
        requires can { CanForm rules.now store.now (K.contents self.old.keeper) question.old trials.old formed }
        requires none { trials.old.awaited ≡ None }
        ensures { HasFormed rules.now store.now (K.contents self.old.keeper) (K.contents self.new.keeper) (K.memories self.old.keeper)
            (K.memories self.new.keeper) self.old.work self.new.work question.old question.new trials.new result }
    {
        question.end(self.alloc, Ending::Formed(formed))?;
        self.go_along(rules, store, question, trials)
    }

    // The equation of the last instance has that fault: where no search is under way that is the answer, else the search goes on.
    fn spoil<'a>(
        &mut self,
        rules: &Rules,
        store: &Store,
        question: &mut Question,
        trials: &mut Trials<'a>,
        fault: Fault,
    ) -> Result<Option<Answer>, AllocError>
        requires { CanSpoil rules.now store.now (K.contents self.old.keeper) question.old trials.old fault }
        ensures { HasSpoilt rules.now store.now (K.contents self.old.keeper) (K.contents self.new.keeper) (K.memories self.old.keeper)
            (K.memories self.new.keeper) self.old.work self.new.work question.old question.new trials.new fault result }
    {
        if question.is_plain() {
            return Ok(Some(Answer::of_fault(fault)));
        }
        question.end(self.alloc, Ending::Spoilt(fault))?;
        self.go_along(rules, store, question, trials)
    }

    // The trial of the last instance, begun anew where it isn't there.
    fn trial_of<'a>(
        &self,
        rules: &'a Rules,
        store: &'a Store,
        question: &Question,
        trials: &mut Trials<'a>,
    ) -> Result<Going<'a>, AllocError>
        requires { CanBeTried rules.now store.now (K.contents self.now.keeper) question.now trials.old }
        ensures standing { IfOk result (IsGoing rules.now (class_shown store.now) (contents store.now) (K.contents self.now.keeper)
            question.now.found.entries question.now.inst) }
        ensures none { trials.new.awaited ≡ None }
        ensures fit { Fit rules.now store.now (K.contents self.now.keeper) question.now trials.new }
    {
        match trials.last() {
            Some((trying, needed)) => Ok(trying.going(needed)),
            None => Going::start(self.alloc, rules, store, &question.inst),
        }
    }

    // Goes on with the trial of an instance that isn't kept, up to its end or to an instance that isn't known.
    #[tactic(auto, using(crate::proofs::of_traces::TurnsPut::puts_same))]
    fn carry_on<'a>(
        &mut self,
        rules: &'a Rules,
        store: &'a Store,
        found: &IndexMap<Inst, Find>,
        inst: &Inst,
        going: Going<'a>,
    ) -> Result<Tried<'a>, AllocError>
        requires { CanCarryOn rules.now store.now (K.contents self.old.keeper) found.now.entries inst.now going }
        ensures tried { HasCarriedOn rules.now store.now (K.contents self.old.keeper) (K.contents self.new.keeper) self.old.work self.new.work
            found.now.entries inst.now result }
        ensures traces { PutsInTurns (K.memories self.old.keeper) (K.memories self.new.keeper) }
    {
        match going {
            Going::Value(frame, step) => {
                let mut frame = frame;
                let attempt = self.go_on(rules, store, found, inst, &mut frame, step)?;
                Ok(came_to_value(attempt, frame))
            }
            Going::Formula(formation, progress) => {
                let mut formation = formation;
                let progress = formation.go_on(
                    self.alloc,
                    &self.keeper,
                    found,
                    rules,
                    store,
                    progress,
                )?;
                Ok(came_to_formula(self.alloc, progress, formation))
            }
        }
    }

    // Goes on with the trial of an instance that isn't kept, up to its end or to an instance that isn't known, and keeps its
    // value where it is lazy.
    fn go_on<'a>(
        &mut self,
        rules: &'a Rules,
        store: &'a Store,
        found: &IndexMap<Inst, Find>,
        inst: &Inst,
        frame: &mut Frame<'a>,
        step: Step,
    ) -> Result<Attempt, AllocError>
        requires { CanGoOn rules.now store.now (K.contents self.old.keeper) found.now.entries inst.now frame.old step }
        ensures attempted { HasAttempted rules.now store.now (K.contents self.old.keeper) (K.contents self.new.keeper) self.old.work self.new.work
            found.now.entries inst.now frame.new result }
        ensures traces { PutsInTurns (K.memories self.old.keeper) (K.memories self.new.keeper) }
    {
        let step = frame.go_on(self.alloc, &self.keeper, found, rules, store, step)?;
        match step {
            Step::Value(value) => {
                let find = frame.take_find(self.alloc, value);
                let is_kept = self.keep(rules, found, inst, &find)?;
                if is_kept {
                    Ok(Attempt::Kept(find.into_value()))
                } else {
                    Ok(Attempt::Found(find))
                }
            }
            Step::Fault(kind) => Ok(Attempt::Fails(kind)),
            Step::Need(needed) => Ok(Attempt::Needs(needed)),
        }
    }
}

// How many values were made, where so many were before, and the work has grown from that by those that turns put. Once the work has come to the
// greatest number, so has this.
fn made_since(made: u64, before: u64, work: u64) -> u64
    ensures { (n : ℕ) → work ≡ min (before + n) (2 ^ 64 - 1) → (result ≡ made + n) ⊎ (2 ^ 64 - 1 ≤ result) }
{
    if work == u64::MAX {
        return work;
    }
    made.saturating_add(work.saturating_sub(before))
}

// The fault that was told of the instance before, where its equation has ended.
fn told_before(
    alloc: Global,
    question: &Question,
    trials: &Trials<'_>,
    inst: &Inst,
) -> Result<Option<Fault>, AllocError>
    ensures { IfOk result (λ o. IfSome o (WasTold question.now trials.now inst.now)) }
{
    if question.is_whole(inst).is_none() {
        return Ok(None);
    }
    trials.noted_of(alloc, inst)
}

// A fault that is told of the instance is noted, where there is memory for that.
fn note_told(
    alloc: Global,
    trials: &mut Trials<'_>,
    inst: &Inst,
    told: &Result<Resolved, AllocError>,
)
    ensures { NotesTold told.now inst.now trials.old trials.new }
{
    match told {
        Ok(resolved) => note_resolved(alloc, trials, inst, resolved),
        Err(_) => {}
    }
}

// So it is where that is known of it.
fn note_resolved(alloc: Global, trials: &mut Trials<'_>, inst: &Inst, resolved: &Resolved)
    ensures { NotesOf resolved.now inst.now trials.old trials.new }
{
    match resolved {
        Resolved::Spoilt(fault) => trials.note(alloc, inst, fault),
        Resolved::Known => {}
        Resolved::Back => {}
        Resolved::Open => {}
    }
}

// The last instance is kept with this value, and no longer tried: the trial of the one below is told of it.
fn pass_over(
    alloc: Global,
    question: &mut Question,
    trials: &mut Trials<'_>,
    value: Value,
) -> Result<Option<Answer>, AllocError>
    ensures { IfOk result (IsPassedOver question.old question.new trials.old trials.new value) }
{
    trials.end_last();
    pass_last(alloc, question, trials, value)
}

// The last instance came to be kept with this value: the trial of the one below is told of it.
fn pass_last(
    alloc: Global,
    question: &mut Question,
    trials: &mut Trials<'_>,
    value: Value,
) -> Result<Option<Answer>, AllocError>
    ensures { IfOk result (IsPassedLast question.old question.new trials.old trials.new value) }
{
    trials.awaited = Some(question.inst.copy(alloc)?);
    question.pass(value)
}

// Its value was found.
fn settle_last(
    alloc: Global,
    question: &mut Question,
    trials: &mut Trials<'_>,
    find: Find,
) -> Result<Option<Answer>, AllocError>
    ensures { IfOk result (IsSettledLast question.old question.new trials.old trials.new find) }
{
    trials.awaited = Some(question.inst.copy(alloc)?);
    question.settle(find)
}

// The last instance waits for another one, which is tried at a level of its own.
fn deepen_last<'a>(
    question: &mut Question,
    trials: &mut Trials<'a>,
    trying: Trying<'a>,
    needed: Inst,
) -> Result<Option<Answer>, AllocError>
    ensures none { IfOk result (λ o. o ≡ None) }
    ensures deeper { IfOk result (λ o. IsDeeperLast question.old question.new trials.old trials.new trying.entry needed) }
{
    trials.push(trying)?;
    question.deepen(needed)?;
    Ok(None)
}
