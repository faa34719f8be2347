//! Questions for the values of instances.

ghost use Rattle.std.specs.Prelude.{◌≡◌, ◌≤◌, ◌<◌, ◌^◌, [], is_some, map, IfOk, IfSome, OnSome, None, false, true};
ghost use Rattle.at_model.specs.of_fixpoints.Fixpoints.{HasValue};
ghost use Rattle.at_store.specs.Located.{loc_view};
ghost use Rattle.at_store.specs.Shown.{IsIdle, contents};
ghost use Rattle.at_body.specs.Values.{value_view};
ghost use Rattle.at_cache.specs.Kept.{AreKept, AreNamed, LeavesKept, value_at};
ghost use Rattle.at_index.specs.Asking.{Answers as Says};
ghost use Rattle.at_cache.specs.Traced.{StayTraced};
ghost use Rattle.at_demand.specs.Answerable.{CanBeAsked, CanBeKept, CanBeKeptLazily};
ghost use Rattle.at_evaluate.specs.Valued.{meaning};
ghost use Rattle.at_evaluate.specs.Made.{Makes};
ghost use Rattle.at_demand.specs.Keeping.{IsKeptWhereLazy, IsPlaced, IsPut};
ghost use Rattle.at_demand.specs.Answered.{Forgets, IsAnswered};
ghost use Rattle.at_demand.specs.State.{is_over, state_by};
ghost use Rattle.at_evaluate.specs.Led.{AreLed};
ghost use Rattle.at_evaluate.specs.Sparing.{AreSpare, HasWorthy};
ghost use Rattle.at_evaluate.specs.Inner.{Gains};
ghost use Rattle.at_evaluate.specs.InParts.{AreHeld, HasGrown, held};
ghost use Rattle.at_evaluate.specs.Traces.{StayJustified};

mod recalling;
mod searching;
mod shared;
mod solving;
mod turning;

use crate::answer::Answer;
use crate::caution::Caution;
use crate::evaluation::Find;
use crate::question::Question;
use crate::sharing::Sharing;
use crate::trials::Trials;
use at_body::{Inst, Value};
use at_cache::{Keeper, Order};
use at_evaluate::{Basis, Direct, Stop};
use at_evict::Bounded;
use at_rules::Rules;
use at_store::{Loc, Places, Store};
use indexmap::IndexMap;
use std::alloc::{AllocError, Global};

// By how many instances the chain of a question gets longer until its last one is evaluated in one go.
const AHEAD: usize = 128;

// How deep expressions nest at most in an evaluation in one go, with those of the instances that they demand.
const DEPTH: usize = 800;

// The same where few others wait for what is evaluated: not much is lost where that gives up.
const SHALLOW: usize = 80;

/// Answers questions, and keeps the values of lazy attributes.
#[derive(Drop)]
pub struct Demand<K> {
    alloc: Global,
    keeper: K,
    work: u64,
    made: u64,
    // Whether the last question that wasn't kept was answered in turns.
    in_turns: bool,
    sharing: Sharing,
    caution: Caution,
    ghost few: { work < 2 ^ 64 },
}

impl<K: Keeper> Demand<K> {
    /// Questions, with that keeper, and no work yet.
    pub fn new(alloc: Global, keeper: K) -> Demand<K>
        ensures keeper { result.keeper ≡ keeper }
        ensures work { result.work ≡ 0 }
        ensures made { result.made ≡ 0 }
    {
        Demand {
            alloc,
            keeper,
            work: 0,
            made: 0,
            in_turns: false,
            sharing: Sharing::new(alloc),
            caution: Caution::new(),
        }
    }

    /// The answer for a well-typed instance, over well-formed rules and a sound tree, where what is kept is right. Just the lazy
    /// instances come to what is kept that the question leads to and that have a value, and the work grows by their number. An error where
    /// memory is wanting.
    pub fn answer(
        &mut self,
        rules: &Rules,
        store: &Store,
        inst: &Inst,
    ) -> Result<Answer, AllocError>
        requires { CanBeAsked rules.now store.now (K.contents self.old.keeper) (K.memories self.old.keeper) inst.now }
        ensures { IsAnswered rules.now store.now (state_by K.contents K.memories self.old.keeper self.old.work self.old.made)
            (state_by K.contents K.memories self.new.keeper self.new.work self.new.made) inst.now result self.new.in_turns }
    {
        if let Some(value) = self.keeper.get(inst) {
            return Ok(Answer::Value(value.copy()?));
        }
        self.answer_anew(rules, store, inst)
    }

    /// Whether the value of the instance is kept: then it is answered without that anything is evaluated.
    pub fn is_kept(&self, inst: &Inst) -> bool
        ensures { result ≡ is_some (value_at (K.contents self.now.keeper inst.now)) }
    {
        self.keeper.get(inst).is_some()
    }

    // The answer for an instance that isn't kept: in one go or, where that gives up, by the turns of a question.
    #[inline(never)]
    fn answer_anew(
        &mut self,
        rules: &Rules,
        store: &Store,
        inst: &Inst,
    ) -> Result<Answer, AllocError>
        requires { CanBeAsked rules.now store.now (K.contents self.old.keeper) (K.memories self.old.keeper) inst.now }
        ensures { IsAnswered rules.now store.now (state_by K.contents K.memories self.old.keeper self.old.work self.old.made)
            (state_by K.contents K.memories self.new.keeper self.new.work self.new.made) inst.now result self.new.in_turns }
    {
        self.in_turns = false;
        let at_once = self.answer_at_once(rules, store, inst, DEPTH)?;
        match at_once {
            Some(value) => Ok(Answer::Value(value)),
            None => {
                let told = self.answer_looking_ahead(rules, store, inst);
                self.in_turns = true;
                told
            }
        }
    }

    // The value of an instance that isn't kept, by an evaluation in one go, which nests so deep at most; none where that gives up.
    fn answer_at_once(
        &mut self,
        rules: &Rules,
        store: &Store,
        inst: &Inst,
        deepest: usize,
    ) -> Result<Option<Value>, AllocError>
        requires idle { IsIdle store.now }
        requires held { AreHeld rules.now store.now (K.contents self.old.keeper) (K.memories self.old.keeper) self.old.work self.old.made }
        ensures value { IfOk result (λ o. IfSome o (λ v. HasValue (contents store.now) (meaning rules.now) inst.now (value_view v))) }
        ensures all { AreSpare rules.now (contents store.now) (K.contents self.old.keeper)
            → IfOk result (λ o. OnSome o (HasWorthy rules.now (contents store.now) inst.now (K.contents self.new.keeper))) }
        ensures gains { Gains rules.now store.now inst.now (K.contents self.old.keeper) (K.contents self.new.keeper) [] [] self.old.work self.new.work }
        ensures led { AreLed rules.now store.now inst.now (K.contents self.old.keeper) (K.contents self.new.keeper) }
        ensures traces { StayJustified rules.now store.now inst.now (K.memories self.old.keeper) (K.memories self.new.keeper) }
        ensures makes { Makes (K.contents self.old.keeper) (K.contents self.new.keeper) (K.memories self.old.keeper) (K.memories self.new.keeper)
            self.old.made self.new.made }
    {
        let mut direct = Direct::new(self.alloc, self.work, self.made);
        let told = direct.answer(&mut self.keeper, &Basis { rules, store }, inst, deepest);
        self.work = direct.work();
        self.made = direct.made();
        match told {
            Ok(value) => Ok(Some(value)),
            Err(Stop::GivesUp) => Ok(None),
            Err(Stop::Memory) => Err(AllocError),
        }
    }

    // The answer for an instance by all turns of a question. Where its chain gets long its last instance is evaluated in one go first, so that what
    // lies deep takes no turns. An error behind the greatest number, as if memory were wanting.
    fn answer_looking_ahead(
        &mut self,
        rules: &Rules,
        store: &Store,
        inst: &Inst,
    ) -> Result<Answer, AllocError>
        requires { CanBeAsked rules.now store.now (K.contents self.old.keeper) (K.memories self.old.keeper) inst.now }
        ensures { IsAnswered rules.now store.now (state_by K.contents K.memories self.old.keeper self.old.work self.old.made)
            (state_by K.contents K.memories self.new.keeper self.new.work self.new.made) inst.now result true }
    {
        let mut question = self.post(inst.copy(self.alloc)?)?;
        // Positions among the finds of one question say nothing of another one.
        self.sharing.clear();
        self.caution.begin(rules, inst.attribute());
        let mut trials = Trials::new(self.alloc);
        let mut due = AHEAD;
        let mut given: u64 = 0;
        while given < u64::MAX {
            let is_new = trials.awaited.is_none();
            let next = self.look_ahead(rules, store, &question, is_new, due)?;
            let told = self.turn_with(rules, store, &mut question, &mut trials)?;
            due = next;
            given += 1;
            if let Some(answer) = told {
                return Ok(answer);
            }
        }
        Err(AllocError)
    }

    // Keeps the last instance of a question again, where that can be done with no evaluation; or evaluates it in one go, where that is worth it, or
    // as many others wait. Says how many are to wait the next time. Where nothing comes to be kept by an evaluation, that is the last time.
    fn look_ahead(
        &mut self,
        rules: &Rules,
        store: &Store,
        question: &Question,
        is_new: bool,
        due: usize,
    ) -> Result<usize, AllocError>
        requires idle { IsIdle store.now }
        requires held { AreHeld rules.now store.now (K.contents self.old.keeper) (K.memories self.old.keeper) self.old.work self.old.made }
        ensures { HasGrown rules.now store.now question.now.inst
            (held (K.contents self.old.keeper) (K.memories self.old.keeper) [] self.old.work self.old.made)
            (held (K.contents self.new.keeper) (K.memories self.new.keeper) [] self.new.work self.new.made) }
    {
        self.keep_again(&question.inst);
        let worth = self.caution.is_worth(rules, question, is_new, due);
        if !worth {
            return Ok(lowered(due, question.waiting.len()));
        }
        let before = self.work;
        let deepest = depth_for(due, question.waiting.len());
        let told = self.answer_at_once(rules, store, &question.inst, deepest)?;
        self.caution.note(told.is_none());
        Ok(due_next(due, question.waiting.len(), self.work == before))
    }

    /// How many values of lazy attributes were made: found by an evaluation that ended, and put. What is kept again isn't made, with `work` all
    /// the same. It stays at the greatest number.
    pub fn made(&self) -> u64
        ensures { result ≡ self.now.made }
    {
        self.made
    }

    /// Whether the last question that wasn't kept was answered in turns: its evaluation in one go gave up.
    pub fn is_in_turns(&self) -> bool
        ensures { result ≡ self.now.in_turns }
    {
        self.in_turns
    }

    /// How many times a question found a value of a lazy attribute that wasn't kept. It stays at the greatest number.
    pub fn work(&self) -> u64
        ensures { result ≡ self.now.work }
    {
        self.work
    }

    // Keeps the value that was found of the instance, if its attribute is lazy, and says whether it is.
    #[inline(always)]
    fn keep(
        &mut self,
        rules: &Rules,
        found: &IndexMap<Inst, Find>,
        inst: &Inst,
        find: &Find,
    ) -> Result<bool, AllocError>
        requires { CanBeKept rules.now (K.contents self.old.keeper) found.now.entries inst.now find.now }
        ensures { IsKeptWhereLazy rules.now (K.contents self.old.keeper) (K.contents self.new.keeper)
            (K.memories self.old.keeper) (K.memories self.new.keeper) self.old.work self.new.work found.now.entries inst.now find.now result }
    {
        if !rules.is_lazy(inst.attribute()) {
            return Ok(false);
        }
        // Where no other find stands below it, it rests on its own reads and what it took of what is kept.
        if find.demanded.finds.is_empty() {
            let reads = find.reads.as_slice();
            let kept = find.demanded.kept.as_slice();
            self.put(inst, &find.value, reads, kept)?;
            return Ok(true);
        }
        self.keep_with(rules, found, inst, find)?;
        Ok(true)
    }

    // Keeps a find for all that it and those below it rest on.
    fn keep_with(
        &mut self,
        rules: &Rules,
        found: &IndexMap<Inst, Find>,
        inst: &Inst,
        find: &Find,
    ) -> Result<(), AllocError>
        requires { CanBeKeptLazily rules.now (K.contents self.old.keeper) found.now.entries inst.now find.now }
        ensures { IsPlaced rules.now (K.contents self.old.keeper) (K.contents self.new.keeper)
            (K.memories self.old.keeper) (K.memories self.new.keeper) self.old.work self.new.work found.now.entries inst.now find.now result }
    {
        let sources = self.gather(rules, found, find)?;
        self.put(
            inst,
            &find.value,
            sources.reads.as_slice(),
            sources.kept.as_slice(),
        )?;
        Ok(())
    }

    // Puts a value to what is kept, and counts it.
    #[inline(always)]
    fn put(
        &mut self,
        inst: &Inst,
        value: &Value,
        reads: &[Loc],
        uses: &[Inst],
    ) -> Result<(), AllocError>
        requires absent { K.contents self.old.keeper inst.now ≡ None }
        requires present { AreKept (K.contents self.old.keeper) uses.now }
        ensures { IsPut (K.contents self.old.keeper) (K.contents self.new.keeper)
            (K.memories self.old.keeper) (K.memories self.new.keeper) self.old.work self.new.work inst.now value.now (map loc_view reads.now) uses.now result }
    {
        self.keeper.put(
            inst.copy(self.alloc)?,
            Some(value.copy()?),
            reads,
            uses,
            Order::Any,
        )?;
        self.work = self.work.saturating_add(1);
        Ok(())
    }
}

impl<K: Bounded> Demand<K> {
    /// Forgets what an edit touches, all of which the places name: called once the edit is decided, and before it is made. Where there is a
    /// bound on how many entries are in memory, no more are left than that.
    pub fn after_edit_at<F: Fn(Loc) -> bool>(
        &mut self,
        most: Option<usize>,
        places: &Places<'_>,
        touched: &F,
    )
        requires callable { F.IsAlwaysCallable touched.now }
        requires named { AreNamed places.now (F.post touched.now) }
        ensures forgets { Forgets (Says (F.post touched.now)) most
            (state_by K.contents K.memories self.old.keeper self.old.work self.old.made)
            (state_by K.contents K.memories self.new.keeper self.new.work self.new.made) }
        ensures bound { IfSome most (λ m. (K.memories self.new.keeper).count ≤ m) }
    {
        fit(&mut self.keeper, most);
        self.keeper.flush(places, touched);
    }
}

// Where there is a bound, no more entries are left in memory than that.
fn fit<K: Bounded>(keeper: &mut K, most: Option<usize>)
    ensures kept { LeavesKept (K.contents keeper.old) (K.contents keeper.new) }
    ensures stay { StayTraced (K.memories keeper.old) (K.memories keeper.new) }
    ensures within { is_over most (K.memories keeper.old).count ≡ false → keeper.new ≡ keeper.old }
    ensures few { IfSome most (λ m. (K.memories keeper.new).count ≤ m) }
{
    match most {
        Some(most) => keeper.fit(most),
        None => {}
    }
}

// How deep an evaluation in one go may nest where so many wait.
fn depth_for(due: usize, waiting: usize) -> usize {
    if waiting < due { SHALLOW } else { DEPTH }
}

// How many instances are to wait the next time, behind an evaluation in one go with so many that wait.
fn due_next(due: usize, waiting: usize, is_idle: bool) -> usize {
    if waiting < due {
        return lowered(due, waiting);
    }
    if is_idle {
        return usize::MAX;
    }
    waiting.saturating_add(AHEAD)
}

// How many instances are to wait the next time, where so many wait now: no more than if it had been now. Of the last time it stays as it is.
fn lowered(due: usize, waiting: usize) -> usize {
    if due == usize::MAX {
        return due;
    }
    due.min(waiting.saturating_add(AHEAD))
}
