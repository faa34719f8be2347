//! One entry more.

ghost use Rattle.std.specs.Prelude.{◌≡◌, ℕ, IfOk, option_map};
ghost use Rattle.at_cache.specs.Prelude.{Instance, value_view, info, memory_of, AreTaken, fresh_entry, AreTheirs};

use crate::entry::{Entry, Links};
use crate::mark::Mark;
use crate::table::Table;
use at_body::{Inst, Value};
use at_index::edge::{Edge, Edges};
use std::alloc::{AllocError, Global};

/// The slots of these instances. Mostly they came last, one behind the other, as their evaluations ended.
pub fn slots_of(alloc: Global, entries: &Table, uses: &[Inst]) -> Result<Links, AllocError>
    ensures taken { IfOk result (λ slots. AreTaken (memory_of entries.now) slots.items) }
    ensures theirs { IfOk result (λ slots. AreTheirs entries.now uses.now slots.items) }
{
    let mut slots = Links::with_capacity(alloc, uses.len())?;
    let first = entries.entries.len().saturating_sub(uses.len());
    for used in uses {
        if let Some(entry) = entries.get_near(used, first.saturating_add(slots.len())) {
            slots.push(entry.slot)?;
        }
    }
    Ok(slots)
}

/// An entry that is to come, which that edge tells of.
pub fn fresh(value: Option<Value>, links: Links, edge: Edge) -> Entry
    ensures entry { (i : Instance ℕ) → info (i, result) ≡ fresh_entry i (option_map value_view value) links.items edge.stamp }
    ensures slot { result.slot ≡ edge.slot }
{
    Entry {
        value,
        links,
        slot: edge.slot,
        stamp: edge.stamp,
        users: Edges::Empty,
        mark: Mark::Stays,
    }
}
