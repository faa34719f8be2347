//! Entries are folded into those that used them: fewer are kept, and each of these stands for what it stood for.
//!
//! A plan has for each slot those of the entries that its entry is folded into: itself where it stays, none where it goes whole. Any plan that
//! passes `is_sound` is right, so that which one is made is a matter of speed alone.

ghost use Rattle.std.specs.Prelude.{◌≡◌, ℕ, Contains, IfOk, IsTrue, List, OnOk, nat_eq};
ghost use Rattle.at_evict.specs.Prelude.{list_any, get, AreOrdered, AreTaken, slots_at, memory_of, IsIndexed};
ghost use Rattle.at_index.specs.Asking.{AreNoted};
ghost use Rattle.at_index.specs.Finding.{edges_to};
ghost use Rattle.at_cache.specs.Shedding.{AreHeld, FoldsHeld};
ghost use Rattle.at_cache.specs.Standings.{held};
ghost use Rattle.at_cache.specs.declared.standing.Standing.{Standing};

use crate::lone::lone_of;
use crate::refolding::Refolding;
use crate::relinking::{relink, remove_folded};
use crate::room::Room;
use at_cache::entry::Links;
use at_cache::slots::slot_at;
use at_cache::table::Table;
use at_index::edge::Slot;
use at_index::run::AllReaders;
use std::alloc::{AllocError, Global};

/// How many slots or edges at the end of a list are looked at.
pub const NEAR: usize = 8;

/// The list at the place; an empty one where there is none.
pub fn list_at(lists: &[Links], place: usize) -> &[Slot]
    ensures { result.now ≡ slots_at lists.now place }
{
    match lists.get(place) {
        Some(list) => list.as_slice(),
        None => &[],
    }
}

/// That of the slot.
pub fn slots_at(lists: &[Links], slot: Slot) -> &[Slot]
    ensures { result.now ≡ slots_at lists.now slot }
{
    list_at(lists, slot as usize)
}

/// Whether the slot is one of these.
pub fn has(slots: &[Slot], slot: Slot) -> bool
    ensures { result ≡ list_any (nat_eq slot) slots.now }
{
    for other in slots {
        if slot == *other {
            return true;
        }
    }
    false
}

/// Whether the slot is one of the last of these.
pub fn is_near(slots: &[Slot], slot: Slot) -> bool
    ensures { IsTrue result → Contains slots.now slot }
{
    has(slots.split_at(slots.len().saturating_sub(NEAR)).1, slot)
}

/// Whether what is in the slot stays by the plan.
pub fn does_stay(plan: &[Links], slot: Slot) -> bool
    ensures { result ≡ list_any (nat_eq slot) (slots_at plan.now slot) }
{
    has(slots_at(plan, slot), slot)
}

/// The slots of all entries, in their order: of many slots most may be free.
pub fn taken_of(alloc: Global, entries: &Table) -> Result<Vec<Slot>, AllocError>
    ensures ordered { IfOk result (λ slots. AreOrdered (get entries.now.places) slots.items) }
    ensures taken { IfOk result (λ slots. AreTaken (memory_of entries.now) slots.items) }
{
    let mut slots = Vec::with_capacity(alloc, entries.entries.len())?;
    for place in 0..entries.entries.len() {
        let Some(slot) = slot_at(&entries.entries, place) else {
            return Err(AllocError);
        };
        slots.push(slot)?;
    }
    Ok(slots)
}

/// Folds the entries by the plan: those that don't stay go, and those into which they are folded have what these looked at and used. An error
/// where memory is wanting, or the plan isn't sound: what is left then means nothing.
pub fn fold(
    alloc: Global,
    entries: &mut Table,
    readers: &mut AllReaders,
    plan: &[Links],
) -> Result<(), AllocError>
    ensures held { (standings : List Standing) (puts : ℕ) → AreHeld standings (memory_of entries.old)
        → IsIndexed (edges_to readers.old) puts (held standings (memory_of entries.old))
        → OnOk result (FoldsHeld standings puts (edges_to readers.old) entries.old (edges_to readers.new) entries.new) }
    ensures noted { (nodes : List ℕ) → AreNoted (edges_to readers.old) nodes → OnOk result (AreNoted (edges_to readers.new) nodes) }
{
    let taken = taken_of(alloc, entries)?;
    let slots = taken.as_slice();
    let lone = lone_of(alloc, entries, plan, slots)?;
    let by = Refolding {
        alloc,
        entries,
        plan,
        lone: &lone,
    };
    if !by.is_sound(slots) {
        return Err(AllocError);
    }
    let links = by.links_of(slots)?;
    let mut room = Room::new(alloc, plan.len())?;
    by.rewrite(&mut room, &mut readers.own)?;
    by.rewrite_desks(&mut room, &mut readers.desks)?;
    by.rerun(&mut readers.runs)?;
    relink(
        alloc,
        entries,
        plan,
        slots,
        links.as_slice(),
        &lone,
        &mut room,
    )?;
    remove_folded(entries, plan, slots);
    Ok(())
}
