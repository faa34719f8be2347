//! Entries that stay in memory where they aren't kept.

ghost use Rattle.std.specs.Prelude.{◌≡◌, ◌+◌, ℕ, List, None, Some, false, is_some, length, option_copied, true};
ghost use Rattle.at_cache.specs.Prelude.{lookup, Location, same_instance, Edge, is_fresh, Info, memory_of, held_in, is_current, IsChanged, alive_in, held_among, held_of, remembered, standing_of, unheld, untraced};

use crate::again::slot_by;
use crate::entry::Entry;
use crate::packing::PackedStanding;
use crate::standing::{is_alive, packed_at, set_packed, standing_at};
use crate::table::Table;
use at_body::Inst;
use at_index::edge::{Edge, Slot};
use at_index::tells::Tells;

/// What an entry loses that an edge tells of.
#[derive(Clone, Copy)]
pub enum Loss {
    /// Its trace: it can't be kept again.
    Trace,
    /// What is kept of it, with all that used it.
    Value,
    Both,
}

/// Entries, and how each stands, by its slot.
pub struct Cut {
    pub entries: Table,
    pub standings: Vec<PackedStanding>,
}

/// One call, where each exit that lets it go would else have a case for each field.
impl Drop for Cut {
    fn drop(self) {
        let Cut {
            entries: _,
            standings: _,
        } = self;
    }
}

impl Cut {
    /// The entry of the instance, where it is kept; it may stand at that place.
    pub fn held(&self, instance: &Inst, place: usize) -> Option<&Entry>
        ensures { option_copied result ≡ held_of self.now.standings.items (lookup (same_instance instance.now) self.now.entries.entries.entries) }
    {
        let entry = self.entries.get_near(instance, place)?;
        if standing_at(self.standings.as_slice(), entry.slot).holds {
            Some(entry)
        } else {
            None
        }
    }

    /// Whether the entry in the slot can be kept again, if there is one.
    pub fn is_traced(&self, slot: Slot) -> bool
        ensures { result ≡ false → (e : Info) → memory_of self.now.entries slot ≡ Some e → (standing_of self.now.standings.items slot).traced ≡ false }
    {
        if !self.entries.is_taken(slot) {
            return false;
        }
        standing_at(self.standings.as_slice(), slot).traced
    }

    /// Whether the instance has a trace; its entry may stand at that place.
    pub fn has_trace(&self, instance: &Inst, place: usize) -> bool
        ensures { (lists : Location ℕ → List Edge) → result ≡ false
            → (remembered lists self.now.entries self.now.standings.items).traced instance.now ≡ None }
    {
        match slot_by(&self.entries, instance, place) {
            Some(slot) => self.is_traced(slot),
            None => false,
        }
    }

    /// Whether the entry of the instance is kept; it may stand at that place.
    pub fn is_held(&self, instance: &Inst, place: usize) -> bool
        ensures { result ≡ is_some (held_of self.now.standings.items (lookup (same_instance instance.now) self.now.entries.entries.entries)) }
    {
        match slot_by(&self.entries, instance, place) {
            Some(slot) => standing_at(self.standings.as_slice(), slot).holds,
            None => false,
        }
    }

    /// Whether the entry in the slot is kept, if there is one.
    pub fn holds(&self, slot: Slot) -> bool
        ensures { result ≡ (standing_of self.now.standings.items slot).holds }
    {
        standing_at(self.standings.as_slice(), slot).holds
    }

    /// Whether the entry that the edge tells of is kept, and isn't going yet.
    pub fn is_fresh(&self, edge: &Edge) -> bool
        ensures { result ≡ is_fresh edge.now (held_in self.now edge.now.slot) }
    {
        self.holds(edge.slot) && self.entries.is_fresh(edge)
    }
}

/// Edges tell of entries that are kept, or can be kept again.
impl Tells for Cut {
    ghost tells = { λ cut. is_current (alive_in cut) };

    fn tells_of(&self, edge: &Edge) -> bool {
        if !is_alive(standing_at(self.standings.as_slice(), edge.slot)) {
            return false;
        }
        self.entries.is_current(edge)
    }
}

/// What is in the slot can't be kept again.
pub fn take_trace(standings: &mut Vec<PackedStanding>, slot: Slot)
    ensures taken { IsChanged untraced slot standings.old.items standings.new.items }
    ensures room { length standings.new.items ≡ length standings.old.items }
    ensures count { held_among standings.new.items ≡ held_among standings.old.items }
{
    let standing = packed_at(standings.as_slice(), slot);
    if (slot as usize) < standings.len() {
        set_packed(standings, slot, standing.without_trace());
    }
}

/// What is in the slot isn't kept any more.
pub fn take_value(standings: &mut Vec<PackedStanding>, slot: Slot)
    ensures taken { IsChanged unheld slot standings.old.items standings.new.items }
    ensures fewer { (standing_of standings.old.items slot).holds ≡ true → held_among standings.new.items + 1 ≡ held_among standings.old.items }
{
    let standing = packed_at(standings.as_slice(), slot);
    if (slot as usize) < standings.len() {
        set_packed(standings, slot, standing.without_value());
    }
}
