//! The search of a level: which equation is tried next, what comes back, and what has an outcome.

ghost use Rattle.std.specs.Prelude.{◌≡◌, ℕ, IfOk};
ghost use Rattle.std.specs.Map.{keys_of};
ghost use Rattle.at_model.specs.Meaning.{Among};
ghost use Rattle.at_model.specs.Run.{Contents};
ghost use Rattle.at_model.specs.of_fixpoints.Formulas.{Forms};
ghost use Rattle.at_search.specs.Recorded.{AreFacts, AreWhole, IsMarked};
ghost use Rattle.at_demand.specs.Levels.{known_to};
ghost use Rattle.at_demand.specs.Searches.{CanClose, CanGoAlong, CanLeave, CanResolve, CanSearch, CanSolveLevel, HasClosed, HasFallen, HasGoneAlong, HasLeft, HasLookedAt, IsLastUnseen};
ghost use Rattle.at_demand.specs.Searches.{HasResolved, HasRisenTo, HasSearched, HasSearchedOn, HasSolvedLevel, IsMetFault, look_of};

use super::Demand;
use crate::answer::Answer;
use crate::question::Question;
use crate::trials::Trials;
use at_body::Inst;
use at_cache::Keeper;
use at_rules::Rules;
use at_search::{Ending, Fault};
use at_store::Store;
use std::alloc::AllocError;

// What is to be done with an instance that a search looks at: nothing, since it is known or was seen; its equation has ended, and what it
// leads to is looked at; its equation is to be tried; or it is under way at a lower level.
#[derive(Drop)]
pub enum Look {
    Passed,
    Ended,
    Untried,
    Back,
}

// Where a search comes to: one whose equation is to be tried; one that is under way at a lower level; or its end.
#[derive(Drop)]
pub enum Searched {
    Next,
    Back(Inst),
    Over,
}

// What becomes of a question whose last level is off: it is told of, or its search goes on in the level below.
#[derive(Drop)]
pub enum Left {
    Told(Option<Answer>),
    Fallen,
}

// What is known of an instance that isn't kept or found: a value, since now; a fault; it is under way; or nothing.
#[derive(Drop)]
pub enum Resolved {
    Known,
    Spoilt(Fault),
    Back,
    Open,
}

impl<K: Keeper> Demand<K> {
    // Goes on once the equation of the last instance has ended: to the next one of its level, or to the level's end. There all that was
    // seen and has a value is known. A fault is then that of the equation that waits, and so on.
    pub(super) fn go_along<'a>(
        &mut self,
        rules: &Rules,
        store: &Store,
        question: &mut Question,
        trials: &mut Trials<'a>,
    ) -> Result<Option<Answer>, AllocError>
        requires { CanGoAlong rules.now store.now (K.contents self.old.keeper) question.old trials.old }
        ensures { HasGoneAlong rules.now store.now (K.contents self.old.keeper) (K.contents self.new.keeper) (K.memories self.old.keeper)
            (K.memories self.new.keeper) self.old.work self.new.work question.old question.new trials.new result }
    {
        loop {
            match self.search(rules, store, question)? {
                Searched::Next => return Ok(None),
                Searched::Back(at) => return self.close(rules, store, question, at),
                Searched::Over => {}
            }
            if let Left::Told(told) = self.leave(rules, store, question, trials)? {
                return Ok(told);
            }
        }
    }

    // The search of the last level is over: what it has seen and has a value is known from now on, and the level is off.
    fn leave<'a>(
        &mut self,
        rules: &Rules,
        store: &Store,
        question: &mut Question,
        trials: &mut Trials<'a>,
    ) -> Result<Left, AllocError>
        requires { CanLeave rules.now store.now (K.contents self.old.keeper) question.old trials.old }
        ensures { HasLeft rules.now store.now (K.contents self.old.keeper) (K.contents self.new.keeper) (K.memories self.old.keeper)
            (K.memories self.new.keeper) self.old.work self.new.work question.old question.new trials.new result }
    {
        self.solve_level(rules, store, question)?;
        match question.take_fault() {
            None => Ok(Left::Told(self.rise(question, trials)?)),
            Some(fault) => self.fall(question, trials, fault),
        }
    }

    // The root of the last level has that fault: it is that of the equation that waits for it; where none waits, that was the question.
    #[tactic(auto, using(crate::proofs::of_levels::Resolving::risen_found))]
    fn fall<'a>(
        &self,
        question: &mut Question,
        trials: &mut Trials<'a>,
        fault: Fault,
    ) -> Result<Left, AllocError>
        requires { IsLastUnseen question.old.waiting.entries }
        ensures fallen { IfOk result (HasFallen question.old question.new trials.old trials.new fault) }
        ensures found { question.new.found.entries ≡ question.old.found.entries }
    {
        if question.rise().is_none() {
            return Ok(Left::Told(Some(Answer::of_fault(fault))));
        }
        trials.drop_last();
        question.end(self.alloc, Ending::Spoilt(fault))?;
        Ok(Left::Fallen)
    }

    // The root of the last level is known: the one that waits for it is the last, and goes on; where none waits, that was the question.
    #[tactic(auto, using(crate::proofs::of_levels::Resolving::risen_found))]
    fn rise<'a>(
        &mut self,
        question: &mut Question,
        trials: &mut Trials<'a>,
    ) -> Result<Option<Answer>, AllocError>
        ensures risen { HasRisenTo (K.contents self.old.keeper) (K.contents self.new.keeper) (K.memories self.old.keeper) (K.memories self.new.keeper)
            self.old.work self.new.work question.old question.new trials.old trials.new result }
        ensures found { question.new.found.entries ≡ question.old.found.entries }
    {
        let root = question.root().copy(self.alloc)?;
        if question.rise().is_some() {
            trials.awaited = Some(root);
            return Ok(None);
        }
        let value = self.known_value(question, &root)?;
        Ok(Some(Answer::Value(value.ok_or(AllocError)?)))
    }

    // The question is answered by a circle: what was seen and has a value is known from now on. Where no search is under way nothing was.
    pub(super) fn close(
        &mut self,
        rules: &Rules,
        store: &Store,
        question: &mut Question,
        at: Inst,
    ) -> Result<Option<Answer>, AllocError>
        requires { CanClose rules.now store.now (K.contents self.old.keeper) question.old }
        ensures { HasClosed rules.now store.now (K.contents self.old.keeper) (K.contents self.new.keeper) (K.memories self.old.keeper)
            (K.memories self.new.keeper) self.old.work self.new.work question.old question.new at result }
    {
        if question.is_plain() {
            return Ok(Some(Answer::Circular { at }));
        }
        loop {
            self.solve_level(rules, store, question)?;
            if question.rise().is_none() {
                return Ok(Some(Answer::Circular { at }));
            }
        }
    }

    // Looks at those to do, up to one whose equation is to be tried: that is the last one.
    fn search(
        &mut self,
        rules: &Rules,
        store: &Store,
        question: &mut Question,
    ) -> Result<Searched, AllocError>
        requires { CanSearch rules.now store.now (K.contents self.old.keeper) question.old }
        ensures { HasSearched rules.now store.now (K.contents self.old.keeper) (K.contents self.new.keeper) (K.memories self.old.keeper)
            (K.memories self.new.keeper) self.old.work self.new.work question.old question.new result }
    {
        loop {
            if let Some(searched) = self.search_on(rules, store, question)? {
                return Ok(searched);
            }
        }
    }

    // Looks at the next one to do. None where the search goes on behind it.
    fn search_on(
        &mut self,
        rules: &Rules,
        store: &Store,
        question: &mut Question,
    ) -> Result<Option<Searched>, AllocError>
        requires { CanSearch rules.now store.now (K.contents self.old.keeper) question.old }
        ensures { HasSearchedOn rules.now store.now (K.contents self.old.keeper) (K.contents self.new.keeper) (K.memories self.old.keeper)
            (K.memories self.new.keeper) self.old.work self.new.work question.old question.new result }
    {
        let Some(inst) = question.next() else {
            return Ok(Some(Searched::Over));
        };
        match self.look_at(rules, store, question, &inst)? {
            Look::Passed => Ok(None),
            Look::Ended => {
                question.go_over(self.alloc, inst)?;
                Ok(None)
            }
            Look::Back => Ok(Some(Searched::Back(inst))),
            Look::Untried => {
                question.inst = inst;
                Ok(Some(Searched::Next))
            }
        }
    }

    // What is to be done with an instance that the search of the last level looks at.
    fn look_at(
        &mut self,
        rules: &Rules,
        store: &Store,
        question: &mut Question,
        inst: &Inst,
    ) -> Result<Look, AllocError>
        requires { CanResolve rules.now store.now (K.contents self.old.keeper) question.old }
        ensures { HasLookedAt rules.now store.now (K.contents self.old.keeper) (K.contents self.new.keeper) (K.memories self.old.keeper)
            (K.memories self.new.keeper) self.old.work self.new.work question.old question.new inst.now result }
    {
        if question.has_seen(inst) || self.is_known(question, inst) {
            return Ok(Look::Passed);
        }
        Ok(looked(self.resolve(rules, store, question, inst)?))
    }

    // What is known of an instance that isn't kept or found, and wasn't seen by the search that asks. Where all to which formulas lead from
    // it has ended it has an outcome, and else it is under way: it leads to the last one of its level.
    pub(super) fn resolve(
        &mut self,
        rules: &Rules,
        store: &Store,
        question: &mut Question,
        inst: &Inst,
    ) -> Result<Resolved, AllocError>
        requires { CanResolve rules.now store.now (K.contents self.old.keeper) question.old }
        ensures { HasResolved rules.now store.now (K.contents self.old.keeper) (K.contents self.new.keeper) (K.memories self.old.keeper)
            (K.memories self.new.keeper) self.old.work self.new.work question.old question.new inst.now result }
    {
        if question.is_tried(inst) {
            return Ok(Resolved::Back);
        }
        let Some(is_whole) = question.is_whole(inst) else {
            return Ok(Resolved::Open);
        };
        if is_whole {
            return self.spoilt_by(question, inst);
        }
        self.resolve_ended(rules, store, question, inst)
    }

    // What is known of an instance that isn't tried, and whose equation has ended, but isn't marked whole.
    fn resolve_ended(
        &mut self,
        rules: &Rules,
        store: &Store,
        question: &mut Question,
        inst: &Inst,
    ) -> Result<Resolved, AllocError>
        requires can { CanResolve rules.now store.now (K.contents self.old.keeper) question.old }
        requires ended { Among inst.now (keys_of question.old.ended.entries) }
        requires unmarked { IsMarked question.old.ended.entries inst.now → ⊥ }
        ensures { HasResolved rules.now store.now (K.contents self.old.keeper) (K.contents self.new.keeper) (K.memories self.old.keeper)
            (K.memories self.new.keeper) self.old.work self.new.work question.old question.new inst.now result }
    {
        let Some(seen) = self.closure_of(question, inst)? else {
            return Ok(Resolved::Back);
        };
        self.solve_and_mark(rules, store, question, &seen)?;
        if self.is_known(question, inst) {
            return Ok(Resolved::Known);
        }
        self.spoilt_by(question, inst)
    }

    // The fault of an instance that is marked whole and isn't known.
    fn spoilt_by(&self, question: &Question, inst: &Inst) -> Result<Resolved, AllocError>
        ensures { (look : Contents ℕ) (forms : Forms ℕ) → AreFacts look forms question.now.ended.entries
            → AreWhole look forms (known_to (K.contents self.now.keeper) question.now) → IfOk result (IsMetFault look forms inst.now) }
    {
        let fault = self.first_fault_of(question, inst)?;
        Ok(Resolved::Spoilt(fault.ok_or(AllocError)?))
    }

    // What the last level has seen has an outcome: what has a value is known from now on.
    fn solve_level(
        &mut self,
        rules: &Rules,
        store: &Store,
        question: &mut Question,
    ) -> Result<(), AllocError>
        requires { CanSolveLevel rules.now store.now (K.contents self.old.keeper) question.old }
        ensures { HasSolvedLevel rules.now store.now (K.contents self.old.keeper) (K.contents self.new.keeper) (K.memories self.old.keeper)
            (K.memories self.new.keeper) self.old.work self.new.work question.old question.new result }
    {
        let seen = question.take_seen(self.alloc);
        self.solve_and_mark(rules, store, question, &seen)
    }
}

// What is to be done with an instance of which that is known.
fn looked(resolved: Resolved) -> Look
    ensures { result ≡ look_of resolved }
{
    match resolved {
        Resolved::Known => Look::Passed,
        Resolved::Spoilt(_) => Look::Ended,
        Resolved::Back => Look::Back,
        Resolved::Open => Look::Untried,
    }
}
