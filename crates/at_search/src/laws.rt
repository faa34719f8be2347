//! Laws of what is solved: the contract of a function that does nothing.

ghost use Rattle.std.specs.Prelude.{◌≡◌, ℕ, Bool, List, Some, slice_get};
ghost use Rattle.at_model.specs.Meaning.{Among};
ghost use Rattle.at_model.specs.Run.{Contents, Instance, Known, Truth};
ghost use Rattle.at_model.specs.of_fixpoints.Fixpoints.{HasValue};
ghost use Rattle.at_model.specs.of_fixpoints.Formulas.{Forms};
ghost use Rattle.at_search.specs.Solved.{AreDerived, AreRight, AreShutIn, value_at};
ghost use Rattle.at_search.specs.Systems.{IsSystem};
ghost use Rattle.at_search.specs.declared.ended.Ended.{Ended};
ghost use Rattle.at_search.specs.declared.system.System.{System};

/// In the system of instances each one has the value that is derived of its conditions, where neither it nor what its formula leads
/// to, in any number of steps, is open.
pub fn what_is_shut_has_its_value()
    ensures { (look : Contents ℕ) (forms : Forms ℕ) (known : Known ℕ) (ended : List (Instance ℕ × Ended)) (insts : List (Instance ℕ)) (s : System)
        → AreRight look forms s.conditions.start known ended insts → IsSystem s.conditions.start known ended insts s
        → (positions : List ℕ) → AreShutIn s positions → (derived : List Bool) → AreDerived s derived
        → (m : ℕ) (i : Instance ℕ) → Among m positions → slice_get insts m ≡ Some i
        → HasValue look forms i (Truth (value_at s.conditions.start derived m)) }
{}
