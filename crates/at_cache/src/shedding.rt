//! What isn't kept leaves memory.

ghost use Rattle.std.specs.Prelude.{◌≤◌, OnOk, length};
ghost use Rattle.at_cache.specs.Prelude.{memory_of, table_len, LosesTraces, Sheds, ShedsAt};

use crate::cut::take_trace;
use crate::packing::PackedStanding;
use crate::standing::standing_at;
use crate::table::Table;
use at_index::edge::Slot;
use at_index::facet::small;
use std::alloc::AllocError;

// What is in the slot goes, if it isn't kept.
fn shed_at(entries: &mut Table, standings: &[PackedStanding], slot: Slot)
    ensures sheds { ShedsAt standings.now slot (memory_of entries.old) (memory_of entries.new) }
    ensures fewer { table_len entries.new ≤ table_len entries.old }
{
    let standing = standing_at(standings, slot);
    if standing.holds {
        return;
    }
    if !entries.is_taken(slot) {
        return;
    }
    let _ = entries.remove(slot);
}

/// What isn't kept of what is in the first so many slots goes, which are all.
pub fn shed(entries: &mut Table, standings: &[PackedStanding], count: Slot)
    requires all { length entries.old.places.slots ≤ count }
    ensures sheds { Sheds standings.now (memory_of entries.old) (memory_of entries.new) }
    ensures fewer { table_len entries.new ≤ table_len entries.old }
{
    for slot in 0..count {
        shed_at(entries, standings, slot);
    }
}

/// No entry can be kept again. An error where there are too many slots.
pub fn lose_traces(standings: &mut Vec<PackedStanding>) -> Result<(), AllocError>
    ensures { OnOk result (LosesTraces standings.old.items standings.new.items) }
{
    for number in 0..standings.len() {
        let slot = small(number)?;
        take_trace(standings, slot);
    }
    Ok(())
}
