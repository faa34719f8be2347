//! What stands in the way of keeping an entry again.

ghost use Rattle.std.specs.Prelude.{◌≡◌, IfSome};
ghost use Rattle.at_cache.specs.Blocking.{IsFirstOpen, LeadsTo, is_known};

use crate::packing::PackedStanding;
use crate::settling::LEVELS;
use crate::standing::standing_at;
use crate::table::Table;
use at_index::edge::Slot;

// Whether the entry in the slot is kept with a value. What can be kept again has one.
fn is_kept(entries: &Table, standings: &[PackedStanding], slot: Slot) -> bool
    ensures { result ≡ is_known entries.now standings.now slot }
{
    let standing = standing_at(standings, slot);
    if !standing.holds {
        return false;
    }
    if standing.traced {
        return true;
    }
    match entries.pair(slot) {
        Some((_, entry)) => entry.value.is_some(),
        None => false,
    }
}

// The first of the slots of which no value is kept.
fn first_open(entries: &Table, standings: &[PackedStanding], slots: &[Slot]) -> Option<Slot>
    ensures { IfSome result (IsFirstOpen entries.now standings.now slots.now) }
{
    for slot in slots {
        if !is_kept(entries, standings, *slot) {
            return Some(*slot);
        }
    }
    None
}

// Where the entry in the slot isn't kept, and can be again once all that it used is, the first of those that isn't.
fn next_open(entries: &Table, standings: &[PackedStanding], slot: Slot) -> Option<Slot>
    ensures { IfSome result (LeadsTo entries.now standings.now slot) }
{
    let (_, entry) = entries.pair(slot)?;
    let standing = standing_at(standings, slot);
    if standing.holds || !standing.traced {
        return None;
    }
    first_open(entries, standings, entry.links.as_slice())
}

/// The first entry that stands in the way of keeping the one in the slot again, of what it used and so on; the slot
/// itself, where nothing else does. Of a chain that is too long it is one in its midst.
pub fn blocking(entries: &Table, standings: &[PackedStanding], slot: Slot) -> Slot
    ensures { LeadsTo entries.now standings.now slot result }
{
    let mut last = slot;
    for _ in 0..LEVELS {
        match next_open(entries, standings, last) {
            Some(next) => last = next,
            None => return last,
        }
    }
    last
}
