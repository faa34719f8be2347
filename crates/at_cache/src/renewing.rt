//! An entry comes that stays in memory, or is put anew.

ghost use Rattle.std.specs.Prelude.{◌≡◌, ◌<◌, ◌^◌, ℕ, List, None, Some, IfOk, IsSome, IsTrue, OnErr, OnOk, map, option_map};
ghost use Rattle.at_cache.specs.Prelude.{Instance, Location, value_view, loc_view, Edge, AreNoted, IsIdle, Info, info, memory_of, AreKept, held_in, fresh_entry, edges_to, kept_cut};
ghost use Rattle.at_cache.specs.declared.keeper.Order.TheVariants as orders;
ghost use Rattle.at_cache.specs.Renewing.{Compares, EntersHeld, IsAwaited, IsSlotFor, PutsIn, StaysAwaited};

use crate::again::{slot_by, slots_again};
use crate::cut::{Cut, Loss, take_trace};
use crate::cutting::doom_users;
use crate::entry::{Entry, Links};
use crate::keeper::Order;
use crate::likely::Likely;
use crate::packing::NUMBERS;
use crate::putting::fresh;
use crate::standing::{Standing, make_standing, set_standing};
use crate::table::Table;
use crate::using::add_users;
use at_body::{Inst, Value};
use at_index::edge::{Edge, Slot};
use at_index::linking::add_readers;
use at_index::run::AllReaders;
use at_store::{Loc, Node};
use std::alloc::{AllocError, Global};

// Whether an entry that is put so can be kept again.
fn is_traced(value: &Option<Value>, order: Order) -> bool
    ensures { IsTrue result → (order ≡ orders.AsTaken) × IsSome value.now }
{
    match order {
        Order::AsTaken => value.is_some(),
        Order::Any => false,
    }
}

/// The slot of the instance's entry, which may stand at that place, or that of the next one.
pub fn slot_for(entries: &Table, inst: &Inst, place: usize) -> Result<Slot, AllocError>
    ensures slot { IfOk result (λ slot. IsSlotFor entries.now inst.now slot) }
    ensures its { IfOk result (λ slot. (e : Info) → memory_of entries.now slot ≡ Some e → e.instance ≡ inst.now) }
{
    match slot_by(entries, inst, place) {
        Some(slot) => Ok(slot),
        None => entries.next(),
    }
}

// Where the entry in the slot has another value than this one, what used it has no trace any more.
fn compare(cut: &mut Cut, slot: Slot, value: &Option<Value>)
    requires there { IsSome (memory_of cut.old.entries slot) }
    requires idle { IsIdle (memory_of cut.old.entries) }
    requires hidden { held_in cut.old slot ≡ None }
    ensures { Compares slot (option_map value_view value.now) cut.old.standings.items (memory_of cut.old.entries)
        cut.new.standings.items (memory_of cut.new.entries) }
{
    if cut.entries.has_value(slot, value) {
        return;
    }
    doom_users(cut, slot, None, Loss::Trace);
}

// The entry comes in place of that in its slot.
fn renew(cut: &mut Cut, inst: &Inst, entry: Entry)
    requires there { IsSome (memory_of cut.old.entries entry.slot) }
    requires idle { IsIdle (memory_of cut.old.entries) }
    requires hidden { held_in cut.old entry.slot ≡ None }
    ensures { PutsIn entry.slot inst.now (option_map value_view entry.value) entry.links.items entry.stamp
        cut.old.standings.items (memory_of cut.old.entries) cut.new.standings.items (memory_of cut.new.entries) }
{
    let (slot, value, links, stamp) = entry.into_put();
    compare(cut, slot, &value);
    cut.entries.renew(slot, value, links, stamp);
}

// The entry comes, or comes in place of one of its instance.
#[inline(always)]
fn put_in(cut: &mut Cut, inst: Inst, entry: Entry) -> Result<(), AllocError>
    requires slot { IsSlotFor cut.old.entries inst entry.slot }
    requires idle { IsIdle (memory_of cut.old.entries) }
    requires hidden { held_in cut.old entry.slot ≡ None }
    requires made { info (inst, entry) ≡ fresh_entry inst (option_map value_view entry.value) entry.links.items entry.stamp }
    ensures puts { OnOk result (PutsIn entry.slot inst (option_map value_view entry.value) entry.links.items entry.stamp
        cut.old.standings.items (memory_of cut.old.entries) cut.new.standings.items (memory_of cut.new.entries)) }
    ensures err { OnErr result (((k : ℕ) → memory_of cut.new.entries k ≡ memory_of cut.old.entries k) × (cut.new.standings.items ≡ cut.old.standings.items)) }
{
    if cut.entries.is_taken(entry.slot) {
        renew(cut, &inst, entry);
        return Ok(());
    }
    cut.entries.enter(inst, entry)
}

/// The entry in the slot, if there is one, isn't told of by any edge from now on, and has no trace: it is to be put anew. The slots of
/// those that it used; none where there is no entry, or no number left.
#[inline(always)]
pub fn outdate(alloc: Global, cut: &mut Cut, puts: &mut u64, slot: Slot) -> Option<Links>
    ensures { (lists : Location ℕ → List Edge) (i : Instance ℕ) → IsAwaited lists cut.old.entries cut.old.standings.items puts.old i slot
        → StaysAwaited lists cut.old.entries cut.old.standings.items puts.old cut.new.entries cut.new.standings.items puts.new i slot }
{
    let stamp = *puts;
    if stamp >= NUMBERS {
        return None;
    }
    if !cut.entries.is_taken(slot) {
        return None;
    }
    *puts = stamp + 1;
    take_trace(&mut cut.standings, slot);
    Some(cut.entries.outdate(slot, Links::new(alloc), stamp))
}

/// An entry that is kept from now on, of an instance that isn't, in its slot, by a number that no entry had. What it used may be in these
/// slots, in this order.
#[inline(always)]
pub fn enter_held(
    alloc: Global,
    cut: &mut Cut,
    readers: &mut AllReaders,
    index_read: &mut Vec<Node>,
    edge: Edge,
    likely: &Likely,
    known: &Option<Links>,
    inst: Inst,
    value: Option<Value>,
    reads: &[Loc],
    uses: &[Inst],
    order: Order,
) -> Result<(), AllocError>
    requires awaited { IsAwaited (edges_to readers.old) cut.old.entries cut.old.standings.items edge.stamp inst edge.slot }
    requires present { AreKept (kept_cut (edges_to readers.old) cut.old edge.stamp) uses.now }
    requires fits { edge.stamp < 2 ^ 62 }
    ensures enters { EntersHeld inst (option_map value_view value) (map loc_view reads.now) uses.now order edge.stamp
        (edges_to readers.old) cut.old (edges_to readers.new) cut.new result }
    ensures noted { AreNoted (edges_to readers.old) index_read.old.items → AreNoted (edges_to readers.new) index_read.new.items }
{
    let links = slots_again(alloc, &cut.entries, likely, uses, known)?;
    make_standing(&mut cut.standings, edge.slot)?;
    add_readers(alloc, cut, readers, index_read, reads, edge)?;
    add_users(alloc, cut, links.as_slice(), edge)?;
    let standing = Standing {
        since: edge.stamp,
        holds: true,
        traced: is_traced(&value, order),
    };
    put_in(cut, inst, fresh(value, links, edge))?;
    set_standing(&mut cut.standings, edge.slot, standing);
    Ok(())
}
