//! What can be kept again with no evaluation.

ghost use Rattle.std.specs.Prelude.{ℕ, List, true};
ghost use Rattle.at_cache.specs.Prelude.{Location, Edge, memory_of, AreTaken};
ghost use Rattle.at_cache.specs.Settling.{CanKeep, HasSettled, HasSettledAll, IsWhole};

use crate::packing::{NUMBERS, PackedStanding};
use crate::standing::{Standing, is_verified, set_standing, standing_at};
use crate::table::Table;
use at_index::edge::Slot;

/// How many levels deep what was used is gone into at most. A level takes some hundred bytes of the native stack.
pub const LEVELS: usize = 400;

/// The numbers that were given to entries as they came to be kept, and how much work was done.
#[derive(Clone, Copy)]
pub struct Counts {
    pub puts: u64,
    pub work: u64,
}

/// Whether the entry in the slot is kept with a value, once all that can be kept again is, of what it used, and so on, and of itself. What lies
/// more levels below stays as it is.
#[inline(always)]
#[cycle(settling)]
pub fn settle_at(
    entries: &Table,
    standings: &mut Vec<PackedStanding>,
    counts: &mut Counts,
    slot: Slot,
    levels: usize,
) -> bool
    ensures { (lists : Location ℕ → List Edge) → IsWhole lists entries.now standings.old.items counts.old
        → HasSettled lists entries.now slot standings.old.items counts.old result standings.new.items counts.new }
{
    if is_verified(standing_at(standings.as_slice(), slot)) {
        return true;
    }
    settle_below(entries, standings, counts, slot, levels)
}

// The same, by a look at the entry itself.
#[cycle(settling)]
fn settle_below(
    entries: &Table,
    standings: &mut Vec<PackedStanding>,
    counts: &mut Counts,
    slot: Slot,
    levels: usize,
) -> bool
    ensures { (lists : Location ℕ → List Edge) → IsWhole lists entries.now standings.old.items counts.old
        → HasSettled lists entries.now slot standings.old.items counts.old result standings.new.items counts.new }
{
    let Some((_, entry)) = entries.pair(slot) else {
        return false;
    };
    let standing = standing_at(standings.as_slice(), slot);
    if standing.holds {
        return entry.value.is_some();
    }
    if !standing.traced || levels == 0 {
        return false;
    }
    if !settle_all(
        entries,
        standings,
        counts,
        entry.links.as_slice(),
        levels - 1,
    ) {
        return false;
    }
    keep_again(entries, standings, counts, slot)
}

// Whether the entries in all these slots are; those behind one that isn't stay as they are.
#[cycle(settling)]
fn settle_all(
    entries: &Table,
    standings: &mut Vec<PackedStanding>,
    counts: &mut Counts,
    slots: &[Slot],
    levels: usize,
) -> bool
    ensures { (lists : Location ℕ → List Edge) → IsWhole lists entries.now standings.old.items counts.old
        → AreTaken (memory_of entries.now) slots.now
        → HasSettledAll lists entries.now slots.now standings.old.items counts.old result standings.new.items counts.new }
{
    for slot in slots {
        if !settle_at(entries, standings, counts, *slot, levels) {
            return false;
        }
    }
    true
}

// Whether the traced entry in the slot, of which all that it used is kept, is kept, which it is from now on, where there is a number left.
fn keep_again(
    _entries: &Table,
    standings: &mut Vec<PackedStanding>,
    counts: &mut Counts,
    slot: Slot,
) -> bool
    ensures { (lists : Location ℕ → List Edge) → IsWhole lists _entries.now standings.old.items counts.old
        → CanKeep lists _entries.now slot standings.old.items counts.old
        → HasSettled lists _entries.now slot standings.old.items counts.old result standings.new.items counts.new }
{
    let standing = standing_at(standings.as_slice(), slot);
    if standing.holds {
        return true;
    }
    if counts.puts >= NUMBERS || !standing.traced {
        return false;
    }
    let again = Standing {
        since: counts.puts,
        holds: true,
        traced: true,
    };
    set_standing(standings, slot, again);
    counts.puts += 1;
    counts.work = counts.work.saturating_add(1);
    true
}
