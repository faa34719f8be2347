//! What every keeper does.

ghost use Rattle.std.specs.Prelude.{◌≡◌, ◌≤◌, ◌+◌, ◌-◌, ◌^◌, ℕ, Option, None, Some, IfSome, OnErr, OnOk, false, is_some, map, min};
ghost use Rattle.std.specs.Option.{option_map};
ghost use Rattle.at_model.specs.Run.{Instance, Value};
ghost use Rattle.at_body.specs.Values.{value_view};
ghost use Rattle.at_store.specs.Located.{loc_view};
ghost use Rattle.at_cache.specs.Kept.{AreNamed, Kept, KeepsAll, Puts, AreKept, LeavesUntouched, LosesTouched, value_at};
ghost use Rattle.at_index.specs.Asking.{Answers};
ghost use Rattle.at_cache.specs.Traced.{AreAlike, FlushesTraces, IsNext, Memories, PutsTrace, Settled, SparesAtEdit, SparesOthers, StayTraced};

use at_body::{Inst, Value};
use at_store::{Loc, Places};
use std::alloc::AllocError;

/// How the instances stand that an entry used.
#[derive(Clone, Copy, PartialEq, Eq, Debug)]
pub enum Order {
    /// As its evaluation took them, one behind the other: it can be kept again once they are.
    AsTaken,
    /// In any order.
    Any,
}

/// Keeps values of instances, each with the locations that it stands for. An entry may be without a value: then it only stands for
/// what its instance rests on, for the entries that use it.
pub trait Keeper: Drop {
    /// The entries, as a finite map.
    ghost contents: { Self → Instance ℕ → Option Kept };

    /// What it remembers beside them, and how much is in memory.
    ghost memories: { Self → Memories };

    /// Whether turns keep again what can be kept so is the same at any time.
    ghost always_in_turns: { (k l : Self) → (memories l).in_turns ≡ (memories k).in_turns };

    /// The value that is kept is the last one.
    ghost kept_last: { (k : Self) (i : Instance ℕ) (v : Value ℕ) → value_at (contents k i) ≡ Some v → (memories k).last i ≡ Some v };

    /// The kept value of the instance.
    fn get(&self, inst: &Inst) -> Option<&Value>
        ensures { option_map (λ v. value_view v.now) result ≡ value_at (contents self.now inst.now) };

    /// Whether the instance has an entry, with a value or without one.
    fn stands(&self, inst: &Inst) -> bool
        ensures { result ≡ is_some (contents self.now inst.now) };

    /// Makes the entry of an instance that has none, with its value where that is kept, for the locations in `reads` and those of the
    /// entries of `uses`. An error where memory is wanting: what is kept is then as it was. What used it can be kept
    /// again still where it has the value that it had. A trace of its own goes.
    fn put(
        &mut self,
        inst: Inst,
        value: Option<Value>,
        reads: &[Loc],
        uses: &[Inst],
        order: Order,
    ) -> Result<(), AllocError>
        requires absent { contents self.old inst ≡ None }
        requires present { AreKept (contents self.old) uses.now }
        ensures puts { OnOk result (Puts (contents self.old) inst (option_map value_view value) (map loc_view reads.now) uses.now (contents self.new)) }
        ensures err { OnErr result (KeepsAll (contents self.old) (contents self.new)) }
        ensures traces { PutsTrace inst (option_map value_view value) (map loc_view reads.now) uses.now order (memories self.old) (memories self.new) }
        ensures spares { SparesOthers inst (contents self.new) (memories self.old) (memories self.new) }
        ensures fails { OnErr result (StayTraced (memories self.old) (memories self.new)) };

    /// Whether an instance that has no entry has a trace: it can be kept again once all that was used for it is.
    fn has_trace(&self, inst: &Inst) -> bool
        ensures { result ≡ false → contents self.now inst.now ≡ None → (memories self.now).traced inst.now ≡ None };

    /// Keeps again what can be kept with no evaluation, of the instance, what it used, and so on, and counts it: how much work was done
    /// then, where so much was done before. It stays at the greatest number.
    fn settle(&mut self, inst: &Inst, work: u64) -> u64
        ensures settled { (n : ℕ) × Settled (memories self.old) inst.now n (contents self.old) (contents self.new)
            × (result ≡ min (work + n) (2 ^ 64 - 1)) }
        ensures stay { StayTraced (memories self.old) (memories self.new) }
        ensures alike { AreAlike (memories self.old) (memories self.new) };

    /// The first one that stands in the way of keeping the instance again, of what it used and so on: it isn't kept, and can't be with no
    /// evaluation. None where that is the instance itself, or where nothing stands in its way.
    fn blocker(&self, inst: &Inst) -> Option<&Inst>
        ensures { IfSome result (λ b. IsNext (memories self.now) (contents self.now) inst.now b.now) };

    /// Whether turns of posted questions are to keep again what can be kept with no evaluation, too.
    fn keeps_in_turns(&self) -> bool
        ensures { result ≡ (memories self.now).in_turns };

    /// Forgets each entry that stands for a touched location. The places name all that is touched.
    fn flush<F: Fn(Loc) -> bool>(&mut self, places: &Places<'_>, touched: &F)
        requires callable { F.IsAlwaysCallable touched.now }
        requires named { AreNamed places.now (F.post touched.now) }
        ensures leaves { LeavesUntouched (Answers (F.post touched.now)) (contents self.old) (contents self.new) }
        ensures loses { LosesTouched (Answers (F.post touched.now)) (contents self.old) (contents self.new) }
        ensures traces { FlushesTraces (Answers (F.post touched.now)) (memories self.old) (memories self.new) }
        ensures spares { SparesAtEdit (Answers (F.post touched.now)) (memories self.old).crowded (memories self.old) (memories self.new) }
        ensures fewer { (memories self.new).count ≤ (memories self.old).count };
}
