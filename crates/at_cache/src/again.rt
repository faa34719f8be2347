//! What an entry used that is put anew: mostly what it used before, in the same order.

ghost use Rattle.std.specs.Prelude.{◌≡◌, IfOk, IfSome, IsTrue, option_map};
ghost use Rattle.at_cache.specs.Prelude.{lookup, same_instance, memory_of, AreTaken, AreTheirs, HasSlot};

use crate::entry::Links;
use crate::likely::Likely;
use crate::putting::slots_of;
use crate::table::Table;
use at_body::Inst;
use at_index::edge::Slot;
use std::alloc::{AllocError, Global};

// Whether the entry of the instance is in the slot.
fn is_its(entries: &Table, instance: &Inst, slot: Slot) -> bool
    ensures { IsTrue result → HasSlot entries.now instance.now slot }
{
    match entries.pair(slot) {
        Some((other, _)) => *other == *instance,
        None => false,
    }
}

// The slot at that place of these, where the entry of the instance is in it.
fn its_at(entries: &Table, instance: &Inst, known: &[Slot], place: usize) -> Option<Slot>
    ensures { IfSome result (HasSlot entries.now instance.now) }
{
    let slot = *known.get(place)?;
    if is_its(entries, instance, slot) {
        return Some(slot);
    }
    None
}

// The slot at that place of these, or at the next one, where the entry of the instance is in it.
fn its_near(entries: &Table, instance: &Inst, known: &[Slot], place: usize) -> Option<Slot>
    ensures { IfSome result (HasSlot entries.now instance.now) }
{
    let first = its_at(entries, instance, known, place);
    if first.is_some() {
        return first;
    }
    its_at(entries, instance, known, place.saturating_add(1))
}

/// The slot of the instance's entry, which may stand at that place.
pub fn slot_by(entries: &Table, instance: &Inst, place: usize) -> Option<Slot>
    ensures { result ≡ option_map (λ e. e.slot) (lookup (same_instance instance.now) entries.now.entries.entries) }
{
    match entries.get_near(instance, place) {
        Some(entry) => Some(entry.slot),
        None => None,
    }
}

// The slot of the instance's entry, which may be at that place of these, or at the next one.
fn slot_near(
    entries: &Table,
    likely: &Likely,
    instance: &Inst,
    known: &[Slot],
    place: usize,
) -> Option<Slot>
    ensures { result ≡ option_map (λ e. e.slot) (lookup (same_instance instance.now) entries.now.entries.entries) }
{
    match its_near(entries, instance, known, place) {
        Some(slot) => Some(slot),
        None => slot_by(entries, instance, likely.place_of(instance)),
    }
}

// Where the next one may be, where the slot was looked for at that place.
fn next_place(known: &[Slot], place: usize, slot: Slot) -> usize {
    let next = place.saturating_add(1);
    if known.get(place).copied() == Some(slot) {
        return next;
    }
    if known.get(next).copied() == Some(slot) {
        return next.saturating_add(1);
    }
    place
}

/// The slots of these instances, which may be these, in this order, if there are any.
pub fn slots_again(
    alloc: Global,
    entries: &Table,
    likely: &Likely,
    uses: &[Inst],
    known: &Option<Links>,
) -> Result<Links, AllocError>
    ensures taken { IfOk result (λ slots. AreTaken (memory_of entries.now) slots.items) }
    ensures theirs { IfOk result (λ slots. AreTheirs entries.now uses.now slots.items) }
{
    match known {
        Some(known) => slots_near(alloc, entries, likely, uses, known.as_slice()),
        None => slots_of(alloc, entries, uses),
    }
}

// The slots of these instances, which may be these, in this order.
fn slots_near(
    alloc: Global,
    entries: &Table,
    likely: &Likely,
    uses: &[Inst],
    known: &[Slot],
) -> Result<Links, AllocError>
    ensures taken { IfOk result (λ slots. AreTaken (memory_of entries.now) slots.items) }
    ensures theirs { IfOk result (λ slots. AreTheirs entries.now uses.now slots.items) }
{
    let mut slots = Links::with_capacity(alloc, uses.len())?;
    let mut place = 0_usize;
    for used in uses {
        if let Some(slot) = slot_near(entries, likely, used, known, place) {
            slots.push(slot)?;
            place = next_place(known, place, slot);
        }
    }
    Ok(slots)
}
