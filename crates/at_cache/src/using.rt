//! Those that used an entry: one more.

ghost use Rattle.std.specs.Prelude.{◌≡◌, ℕ, List, None, IsSome, Contains, OnOk};
ghost use Rattle.at_cache.specs.Prelude.{lookup, Instance, same_instance, Edge, memory_of, AreTaken, Uses, is_current, reused, users_at, alive_in};
ghost use Rattle.at_index.specs.Linking.{AreListed, Lists};

use crate::cut::Cut;
use at_index::edge::{Edge, Edges, Slot};
use at_index::linking::{add_edge, are_outdated};
use std::alloc::{AllocError, Global};

// One more edge to an entry that used this one.
fn add_user(alloc: Global, cut: &mut Cut, slot: Slot, edge: Edge) -> Result<(), AllocError>
    requires there { IsSome (memory_of cut.old.entries slot) }
    ensures lists { (users : List Edge) × ((k : ℕ) → memory_of cut.new.entries k ≡ reused slot users (memory_of cut.old.entries) k)
        × Lists (is_current (alive_in cut.old)) edge (users_at (memory_of cut.old.entries) slot) users × OnOk result (Contains users edge) }
    ensures standings { cut.new.standings.items ≡ cut.old.standings.items }
    ensures key { cut.new.entries.places.vacant_key ≡ cut.old.entries.places.vacant_key }
    ensures absent { (i : Instance ℕ) → lookup (same_instance i) cut.old.entries.entries.entries ≡ None
        → lookup (same_instance i) cut.new.entries.entries.entries ≡ None }
{
    let mut users = cut.entries.exchange_users(slot, Edges::of(edge));
    if users.is_empty() {
        return Ok(());
    }
    if are_outdated(cut, &users, edge) {
        return Ok(());
    }
    let result = add_edge(alloc, cut, &mut users, edge);
    cut.entries.exchange_users(slot, users);
    result
}

/// One more edge to each of these entries that used this one.
pub fn add_users(alloc: Global, cut: &mut Cut, slots: &[Slot], edge: Edge) -> Result<(), AllocError>
    requires there { AreTaken (memory_of cut.old.entries) slots.now }
    ensures uses { Uses (alive_in cut.old) edge slots.now (memory_of cut.old.entries) (memory_of cut.new.entries) }
    ensures listed { OnOk result (AreListed edge slots.now (users_at (memory_of cut.new.entries))) }
    ensures standings { cut.new.standings.items ≡ cut.old.standings.items }
    ensures key { cut.new.entries.places.vacant_key ≡ cut.old.entries.places.vacant_key }
    ensures absent { (i : Instance ℕ) → lookup (same_instance i) cut.old.entries.entries.entries ≡ None
        → lookup (same_instance i) cut.new.entries.entries.entries ≡ None }
{
    for slot in slots {
        add_user(alloc, cut, *slot, edge)?;
    }
    Ok(())
}
