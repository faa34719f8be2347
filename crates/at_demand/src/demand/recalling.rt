//! What is known of instances while a question is answered, in the words of `at_search`.

ghost use Rattle.std.specs.Prelude.{◌≡◌, ◌∷◌, [], ℕ, IfNone, IfOk, IfSome, false, is_some, option_map};
ghost use Rattle.std.specs.Map.{keys_of};
ghost use Rattle.at_model.specs.Run.{Contents};
ghost use Rattle.at_model.specs.of_fixpoints.Fixpoints.{EndsSo, Meets};
ghost use Rattle.at_model.specs.of_fixpoints.Formulas.{Forms};
ghost use Rattle.at_body.specs.Values.{fault_view, value_view};
ghost use Rattle.at_search.specs.LedTo.{IsClosure, LeadsOut};
ghost use Rattle.at_search.specs.Recorded.{AreFacts, AreWhole, IsSettled};
ghost use Rattle.at_demand.specs.Again.{HasKeptAgain};
ghost use Rattle.at_demand.specs.Levels.{known_to};

use super::Demand;
use crate::knowing::Knowing;
use crate::question::Question;
use at_body::{Inst, Known, Value};
use at_cache::Keeper;
use at_search::{Fault, closure, first_fault};
use indexmap::IndexMap;
use std::alloc::AllocError;

impl<K: Keeper> Demand<K> {
    // Keeps an instance again where that can be done with no evaluation, and before it what it used, and so on. What is kept again is counted.
    pub(super) fn keep_again(&mut self, inst: &Inst)
        ensures kept { HasKeptAgain (K.memories self.old.keeper) (K.memories self.new.keeper) (K.contents self.old.keeper)
            (K.contents self.new.keeper) self.old.work self.new.work inst.now }
        ensures made { self.new.made ≡ self.old.made }
    {
        let count = self.keeper.settle(inst, 0);
        self.work = self.work.saturating_add(count);
    }

    // So it does before a turn, where turns are to keep again; else all stays as it is.
    pub(super) fn keep_again_in_turns(&mut self, again: bool, inst: &Inst)
        ensures kept { HasKeptAgain (K.memories self.old.keeper) (K.memories self.new.keeper) (K.contents self.old.keeper)
            (K.contents self.new.keeper) self.old.work self.new.work inst.now }
        ensures made { self.new.made ≡ self.old.made }
        ensures stays { again ≡ false → (K.contents self.new.keeper ≡ K.contents self.old.keeper)
            × (K.memories self.new.keeper ≡ K.memories self.old.keeper) × (self.new.work ≡ self.old.work) }
    {
        if !again {
            return;
        }
        self.keep_again(inst);
    }

    // What is kept, and what the question found.
    pub(super) fn knowing<'q>(&'q self, question: &'q Question) -> Knowing<'q, K>
        ensures keeper { result.keeper.now ≡ self.now.keeper }
        ensures found { result.found.now ≡ question.now.found }
    {
        Knowing {
            keeper: &self.keeper,
            found: &question.found,
        }
    }

    // Whether the instance has a value that is kept or found.
    pub(super) fn is_known(&self, question: &Question, inst: &Inst) -> bool
        ensures { result ≡ is_some (known_to (K.contents self.now.keeper) question.now inst.now) }
    {
        self.knowing(question).known(inst).is_some()
    }

    // The value of the instance that is kept or found.
    pub(super) fn known_value(
        &self,
        question: &Question,
        inst: &Inst,
    ) -> Result<Option<Value>, AllocError>
        ensures { IfOk result (λ o. option_map value_view o ≡ known_to (K.contents self.now.keeper) question.now inst.now) }
    {
        match self.knowing(question).known(inst) {
            Some(value) => Ok(Some(value.copy()?)),
            None => Ok(None),
        }
    }

    // The instances without an outcome to which formulas lead from this one; none where the equation of one hasn't ended.
    pub(super) fn closure_of(
        &self,
        question: &Question,
        inst: &Inst,
    ) -> Result<Option<IndexMap<Inst, ()>>, AllocError>
        ensures some { IfOk result (λ o. IfSome o (λ set. IsClosure (known_to (K.contents self.now.keeper) question.now) question.now.ended.entries
            inst.now (keys_of set.entries))) }
        ensures none { IfOk result (λ o. IfNone o (LeadsOut (IsSettled (known_to (K.contents self.now.keeper) question.now) question.now.ended.entries)
            question.now.ended.entries inst.now)) }
    {
        closure(self.alloc, &question.ended, &self.knowing(question), inst)
    }

    // The fault that a search, depth first, from this instance meets first, where each equation that it comes to has ended.
    pub(super) fn first_fault_of(
        &self,
        question: &Question,
        inst: &Inst,
    ) -> Result<Option<Fault>, AllocError>
        ensures { (look : Contents ℕ) (forms : Forms ℕ) → AreFacts look forms question.now.ended.entries
            → AreWhole look forms (known_to (K.contents self.now.keeper) question.now)
            → IfOk result (λ o. IfSome o (λ f. Meets (EndsSo look forms) [] (inst.now ∷ []) (fault_view f.kind) f.at)) }
    {
        first_fault(self.alloc, &question.ended, &self.knowing(question), inst)
    }
}
