//! Whether entries may be folded by a plan.

ghost use Rattle.std.specs.Prelude.{◌≡◌, ◌⊎◌, ℕ, Contains, IsTrue, Some, true};
ghost use Rattle.at_evict.specs.Prelude.{edges_in, AreTaken, FoldsAt, HasUser, IsBelow, into_of, is_told, Info, memory_of, edges_along, edges_of};

use crate::folding::{does_stay, has, slots_at};
use crate::refolding::Refolding;
use at_cache::entry::Entry;
use at_index::edge::{Edge, Edges, Slot};
use at_index::row::Row;

// Whether each of these is one of the others.
fn are_among(slots: &[Slot], others: &[Slot]) -> bool
    ensures { IsTrue result → (r : ℕ) → Contains slots.now r → Contains others.now r }
{
    for slot in slots {
        if !has(others, *slot) {
            return false;
        }
    }
    true
}

impl<'a> Refolding<'a> {
    // Whether what is in the slot stays, or is folded into each of the targets, too.
    fn is_below(&self, slot: Slot, targets: &[Slot]) -> bool
        ensures { IsTrue result → IsBelow (into_of self.now) targets.now slot }
    {
        if self.lone.is_at(slot) {
            return true;
        }
        if does_stay(self.plan, slot) {
            return true;
        }
        are_among(targets, slots_at(self.plan, slot))
    }

    // Whether that holds of each of these.
    fn are_below(&self, used: &[Slot], targets: &[Slot]) -> bool
        ensures { IsTrue result → (p : ℕ) → Contains used.now p → IsBelow (into_of self.now) targets.now p }
    {
        for slot in used {
            if !self.is_below(*slot, targets) {
                return false;
            }
        }
        true
    }

    // Whether the edge tells of an entry that is folded into the target.
    fn is_user(&self, edge: Edge, target: Slot) -> bool
        ensures current { IsTrue result → is_told self.now edge ≡ true }
        ensures folded { IsTrue result → Contains (into_of self.now edge.slot) target }
    {
        if !self.entries.is_current(&edge) {
            return false;
        }
        has(slots_at(self.plan, edge.slot), target)
    }

    // Whether one of the row does.
    fn is_in_row(&self, row: &Row, target: Slot) -> bool
        ensures { IsTrue result → HasUser (is_told self.now) (into_of self.now) (edges_of row.now) target }
    {
        let mut rest = *row;
        while let Some((edge, others)) = rest.split_first() {
            if self.is_user(edge, target) {
                return true;
            }
            rest = others;
        }
        false
    }

    // Whether one of these rows does.
    fn is_in_rows(&self, rows: &[Row], target: Slot) -> bool
        ensures { IsTrue result → HasUser (is_told self.now) (into_of self.now) (edges_along rows.now) target }
    {
        for row in rows {
            if self.is_in_row(row, target) {
                return true;
            }
        }
        false
    }

    // Whether one of the list does.
    fn is_in(&self, edges: &Edges, target: Slot) -> bool
        ensures { IsTrue result → HasUser (is_told self.now) (into_of self.now) (edges_in edges.now) target }
    {
        match edges {
            Edges::Empty => false,
            Edges::Few(count, step, slot, stamp) => {
                self.is_in_row(&Row::few(*count, *step, *slot, *stamp), target)
            }
            Edges::More(rows) => self.is_in_rows(rows.as_slice(), target),
        }
    }

    // Whether the target is that slot, or one of the users is folded into it.
    fn is_used(&self, slot: Slot, users: &Edges, target: Slot) -> bool
        ensures { IsTrue result → (target ≡ slot) ⊎ HasUser (is_told self.now) (into_of self.now) (edges_in users.now) target }
    {
        if target == slot {
            return true;
        }
        self.is_in(users, target)
    }

    // Whether that holds of each of the targets.
    fn are_used(&self, slot: Slot, users: &Edges, targets: &[Slot]) -> bool
        ensures { IsTrue result → (r : ℕ) → Contains targets.now r
            → (r ≡ slot) ⊎ HasUser (is_told self.now) (into_of self.now) (edges_in users.now) r }
    {
        for target in targets {
            if !self.is_used(slot, users, *target) {
                return false;
            }
        }
        true
    }

    // Whether the entry in the slot may be folded so.
    fn may_fold(&self, slot: Slot, entry: &Entry) -> bool
        ensures below { IsTrue result → (p : ℕ) → Contains entry.now.links.items p → IsBelow (into_of self.now) (into_of self.now slot) p }
        ensures used { IsTrue result → (r : ℕ) → Contains (into_of self.now slot) r
            → (r ≡ slot) ⊎ HasUser (is_told self.now) (into_of self.now) (edges_in entry.now.users) r }
    {
        let targets = slots_at(self.plan, slot);
        if !self.are_below(entry.links.as_slice(), targets) {
            return false;
        }
        self.are_used(slot, &entry.users, targets)
    }

    // Whether what is in the slot may be, if anything is.
    fn is_sound_at(&self, slot: Slot) -> bool
        ensures { IsTrue result → (e : Info) → memory_of self.now.entries.now slot ≡ Some e
            → FoldsAt (memory_of self.now.entries.now) (into_of self.now) slot e }
    {
        match self.entries.pair(slot) {
            Some((_, entry)) => self.may_fold(slot, entry),
            None => true,
        }
    }

    /// Whether each entry may be folded by the plan: they are in these slots.
    pub fn is_sound(&self, taken: &[Slot]) -> bool
        requires taken { AreTaken (memory_of self.now.entries.now) taken.now }
        ensures { IsTrue result → (s : ℕ) (e : Info) → memory_of self.now.entries.now s ≡ Some e
            → FoldsAt (memory_of self.now.entries.now) (into_of self.now) s e }
    {
        for slot in taken {
            if !self.is_sound_at(*slot) {
                return false;
            }
        }
        true
    }
}
