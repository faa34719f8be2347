//! What is done to entries by their slots.

ghost use Rattle.std.specs.Prelude.{◌≡◌, ◌<◌, ◌+◌, ◌&&◌, ◌++◌, ◌∷◌, [], not, ℕ, Option, None, Some, IsSome, option_copied, option_map, nat_eq, if◌then◌else◌, slice_get, OnSome, OnErr, OnOk, IfNone, IfOk, IfSome, IsTrue, MatchBool, is_some, ◌≢◌, false};
ghost use Rattle.at_cache.specs.Prelude.{lookup, Instance, same_instance, value_view, edges_in, edges_of, doomed, is_fresh, Info, info, is_going, memory_of, table_len, HasMark, unmarked, Enters, is_current, reused, users_at};
ghost use Rattle.slab.specs.Slab.{get};
ghost use Rattle.indexmap.specs.IndexMap.{IsUnique, index_map_len};
ghost use Rattle.at_cache.specs.Placed.{IsMoved, IsPlaced, at};
ghost use Rattle.at_cache.specs.Slots.{HasWritten, renewed, outdated, relinked, with_entry, with_list, with_mark, with_number, with_rest};

use crate::attributes::{has_come, note_attribute};
use crate::entry::{Entry, Links};
use crate::mark::Mark;
use crate::table::Table;
use at_body::{Inst, Value};
use at_index::edge::{Edge, Edges, Slot};
use at_index::facet::small;
use at_index::row::Row;
use indexmap::IndexMap;
use slab::Slab;
use std::alloc::AllocError;
use std::mem;

// The mark of the entry at that place.
fn write_mark(entries: &mut IndexMap<Inst, Entry>, place: usize, mark: Mark)
    requires { place < index_map_len entries.old }
    ensures { HasWritten (with_mark mark) place entries.old.entries entries.new.entries }
{
    let (_, entry) = entries.pair_mut(place);
    entry.mark = mark;
}

// The mark of the entry at that place, which has this one then.
fn exchange_mark(entries: &mut IndexMap<Inst, Entry>, place: usize, mark: Mark) -> Mark
    requires { place < index_map_len entries.old }
    ensures written { HasWritten (with_mark mark) place entries.old.entries entries.new.entries }
    ensures was { option_map (λ e. e.1.mark) (slice_get entries.old.entries place) ≡ Some result }
{
    let (_, entry) = entries.pair_mut(place);
    mem::replace(&mut entry.mark, mark)
}

// The users of the entry at that place, which has these then.
fn write_users(entries: &mut IndexMap<Inst, Entry>, place: usize, users: Edges) -> Edges
    requires { place < index_map_len entries.old }
    ensures written { HasWritten (with_list users) place entries.old.entries entries.new.entries }
    ensures was { option_map (λ e. edges_in e.1.users) (slice_get entries.old.entries place) ≡ Some (edges_in result) }
{
    let (_, entry) = entries.pair_mut(place);
    mem::replace(&mut entry.users, users)
}

impl Table {
    /// The entry of the instance. Where none of its attribute ever came there is no look-up.
    pub fn get(&self, instance: &Inst) -> Option<&Entry>
        ensures value { option_copied result ≡ lookup (same_instance instance.now) self.now.entries.entries }
    {
        if !has_come(self.attributes.as_slice(), instance.attribute().index()) {
            return None;
        }
        self.entries.get(instance)
    }

    /// The entry of the instance, which may stand at that place.
    pub fn get_near(&self, instance: &Inst, place: usize) -> Option<&Entry>
        ensures value { option_copied result ≡ lookup (same_instance instance.now) self.now.entries.entries }
    {
        if let Some(pair) = self.entries.get_index(place) {
            if *pair.0 == *instance {
                return Some(pair.1);
            }
        }
        self.get(instance)
    }

    /// The entry in the slot.
    pub fn pair(&self, slot: Slot) -> Option<(&Inst, &Entry)>
        ensures { option_map (λ e. (e.0.now, e.1.now)) result ≡ at self.now.entries.entries (get self.now.places) slot }
    {
        let place = self.places.get(slot as usize)?;
        self.entries.get_index(*place)
    }

    /// Whether the edge tells of an entry that is there.
    pub fn is_current(&self, edge: &Edge) -> bool
        ensures { result ≡ is_current (memory_of self.now) edge.now }
    {
        match self.pair(edge.slot) {
            Some((_, entry)) => entry.stamp == edge.stamp,
            None => false,
        }
    }

    /// The mark of the entry in the slot, which stays then.
    pub fn unmark(&mut self, slot: Slot) -> Option<Mark>
        ensures was { IfSome result (λ mark. HasMark (memory_of self.old slot) mark) }
        ensures none { IfNone result ((memory_of self.old slot ≡ None) × ((k : ℕ) → memory_of self.new k ≡ memory_of self.old k)) }
        ensures written { (k : ℕ) → memory_of self.new k ≡ (if nat_eq k slot then option_map unmarked (memory_of self.old k) else memory_of self.old k) }
        ensures len { table_len self.new ≡ table_len self.old }
    {
        match self.places.get(slot as usize) {
            Some(place) => Some(exchange_mark(&mut self.entries, *place, Mark::Stays)),
            None => None,
        }
    }

    /// The edges to those that used the entry in the slot, which has these then.
    pub fn exchange_users(&mut self, slot: Slot, users: Edges) -> Edges
        requires there { IsSome (memory_of self.old slot) }
        ensures written { (k : ℕ) → memory_of self.new k ≡ reused slot (edges_in users) (memory_of self.old) k }
        ensures was { edges_in result ≡ users_at (memory_of self.old) slot }
        ensures key { self.new.places.vacant_key ≡ self.old.places.vacant_key }
        ensures len { table_len self.new ≡ table_len self.old }
        ensures absent { (i : Instance ℕ) → lookup (same_instance i) self.old.entries.entries ≡ None
            → lookup (same_instance i) self.new.entries.entries ≡ None }
    {
        match self.places.get(slot as usize) {
            Some(place) => write_users(&mut self.entries, *place, users),
            None => users,
        }
    }

    /// The edges to those that used the entry in the slot, where they are a row in sixteen bytes.
    pub fn users_row(&self, slot: Slot) -> Option<Row>
        ensures { IfSome result (λ row. edges_of row ≡ users_at (memory_of self.now) slot) }
    {
        let (_, entry) = self.pair(slot)?;
        entry.users.row()
    }

    /// Whether an entry is in the slot.
    pub fn is_taken(&self, slot: Slot) -> bool
        ensures { result ≡ is_some (memory_of self.now slot) }
    {
        match self.pair(slot) {
            Some(_) => true,
            None => false,
        }
    }

    /// The entry in the slot, if there is one, used what is in these slots, and was used by what these edges tell of.
    pub fn relink(&mut self, slot: Slot, links: Links, users: Edges)
        ensures { (k : ℕ) → memory_of self.new k
            ≡ (if nat_eq k slot then option_map (relinked links.items (edges_in users)) (memory_of self.old k) else memory_of self.old k) }
    {
        if let Some(place) = self.places.get(slot as usize) {
            write_rest(&mut self.entries, *place, links, users);
        }
    }

    /// Gives back memory that entries took which left.
    pub fn shrink(&mut self)
        ensures { (k : ℕ) → memory_of self.new k ≡ memory_of self.old k }
    {
        self.entries.shrink_to_fit();
        self.places.shrink_to_fit();
    }

    /// The entry in the slot is put anew, and has the edges to those that used it before.
    pub fn renew(&mut self, slot: Slot, value: Option<Value>, links: Links, stamp: u64)
        requires there { IsSome (memory_of self.old slot) }
        ensures written { (k : ℕ) → memory_of self.new k ≡ (if nat_eq k slot
            then option_map (renewed (option_map value_view value) links.items stamp) (memory_of self.old k) else memory_of self.old k) }
        ensures len { table_len self.new ≡ table_len self.old }
    {
        if let Some(place) = self.places.get(slot as usize) {
            write_entry(&mut self.entries, *place, value, links, stamp);
        }
    }

    /// The entry in the slot has that number and these links; those that it had, or these where there is none.
    pub fn outdate(&mut self, slot: Slot, links: Links, stamp: u64) -> Links
        requires there { IsSome (memory_of self.old slot) }
        ensures { (k : ℕ) → memory_of self.new k
            ≡ (if nat_eq k slot then option_map (outdated links.items stamp) (memory_of self.old k) else memory_of self.old k) }
    {
        match self.places.get(slot as usize) {
            Some(place) => write_number(&mut self.entries, *place, links, stamp),
            None => links,
        }
    }

    /// Whether the entry in the slot has that value, or none where it is none.
    pub fn has_value(&self, slot: Slot, value: &Option<Value>) -> bool
        ensures same { IsTrue result → (e : Info) × (memory_of self.now slot ≡ Some e) × (e.value ≡ option_map value_view value.now) }
        ensures other { result ≡ false → (e : Info) → memory_of self.now slot ≡ Some e → e.value ≢ option_map value_view value.now }
    {
        match self.pair(slot) {
            Some((_, entry)) => are_same(&entry.value, value),
            None => false,
        }
    }

    /// The slot that the next entry gets; want of memory where there are too many for one more.
    pub fn next(&self) -> Result<Slot, AllocError>
        ensures key { IfOk result (λ slot. slot ≡ self.now.places.vacant_key) }
        ensures free { IfOk result (λ slot. memory_of self.now slot ≡ None) }
    {
        small(self.places.vacant_key())
    }

    /// Takes out what is in the slot.
    pub fn remove(&mut self, slot: Slot) -> Option<Entry>
        ensures value { IfSome result (λ e. (i : Instance ℕ) × (memory_of self.old slot ≡ Some (info (i, e)))) }
        ensures none { IfNone result ((memory_of self.old slot ≡ None) × (table_len self.new ≡ table_len self.old)) }
        ensures gone { OnSome result (memory_of self.new slot ≡ None) }
        ensures others { OnSome result ((k : ℕ) → k ≢ slot → memory_of self.new k ≡ memory_of self.old k) }
        ensures len { OnSome result (table_len self.new + 1 ≡ table_len self.old) }
    {
        let Table {
            entries,
            places,
            attributes: _,
        } = self;
        take(entries, places, slot)
    }

    /// The entry of an instance that has none comes into the next slot.
    pub fn enter(&mut self, instance: Inst, entry: Entry) -> Result<(), AllocError>
        requires absent { lookup (same_instance instance) self.old.entries.entries ≡ None }
        requires slot { entry.slot ≡ self.old.places.vacant_key }
        ensures enters { OnOk result (Enters (memory_of self.old) entry.slot (info (instance, entry)) (memory_of self.new)) }
        ensures err { OnErr result ((k : ℕ) → memory_of self.new k ≡ memory_of self.old k) }
    {
        let Table {
            entries,
            places,
            attributes,
        } = self;
        note_attribute(attributes, instance.attribute().index())?;
        let slot = places.insert(entries.len())?;
        if append(entries, instance, entry) {
            return Ok(());
        }
        places.try_remove(slot);
        Err(AllocError)
    }

    /// Whether the entry that the edge tells of is there, and isn't going yet.
    pub fn is_fresh(&self, edge: &Edge) -> bool
        ensures { result ≡ is_fresh edge.now (memory_of self.now edge.now.slot) }
    {
        match self.pair(edge.slot) {
            Some((_, entry)) => entry.is_fresh(edge),
            None => false,
        }
    }

    /// The entry in the slot goes, before these.
    pub fn set_going(&mut self, slot: Slot, first: Option<Slot>)
        requires there { IsSome (memory_of self.old slot) }
        ensures written { (k : ℕ) → memory_of self.new k ≡ (if nat_eq k slot then option_map (doomed first) (memory_of self.old k) else memory_of self.old k) }
        ensures len { table_len self.new ≡ table_len self.old }
    {
        if let Some(place) = self.places.get(slot as usize) {
            write_mark(&mut self.entries, *place, Mark::before(first));
        }
    }
}

// The entry at that place has these then.
fn write_entry(
    entries: &mut IndexMap<Inst, Entry>,
    place: usize,
    value: Option<Value>,
    links: Links,
    stamp: u64,
)
    requires { place < index_map_len entries.old }
    ensures { HasWritten (with_entry value links stamp) place entries.old.entries entries.new.entries }
{
    let (_, entry) = entries.pair_mut(place);
    entry.value = value;
    entry.links = links;
    entry.stamp = stamp;
}

// The links of the entry at that place, which has these and that number then.
fn write_number(
    entries: &mut IndexMap<Inst, Entry>,
    place: usize,
    links: Links,
    stamp: u64,
) -> Links
    requires { place < index_map_len entries.old }
    ensures { HasWritten (with_number links stamp) place entries.old.entries entries.new.entries }
{
    let (_, entry) = entries.pair_mut(place);
    entry.stamp = stamp;
    mem::replace(&mut entry.links, links)
}

// The entry at that place has these then.
fn write_rest(entries: &mut IndexMap<Inst, Entry>, place: usize, links: Links, users: Edges)
    requires { place < index_map_len entries.old }
    ensures { HasWritten (with_rest links users) place entries.old.entries entries.new.entries }
{
    let (_, entry) = entries.pair_mut(place);
    entry.links = links;
    entry.users = users;
}

// Whether the value is that one.
fn is_value(old: &Option<Value>, new: &Value) -> bool
    ensures same { IsTrue result → option_map value_view old.now ≡ Some (value_view new.now) }
    ensures other { result ≡ false → option_map value_view old.now ≢ Some (value_view new.now) }
{
    match old {
        Some(old) => *old == *new,
        None => false,
    }
}

// Whether both are the same value, or none.
fn are_same(old: &Option<Value>, new: &Option<Value>) -> bool
    ensures same { IsTrue result → option_map value_view old.now ≡ option_map value_view new.now }
    ensures other { result ≡ false → option_map value_view old.now ≢ option_map value_view new.now }
{
    match new {
        Some(new) => is_value(old, new),
        None => old.is_none(),
    }
}

/// The slot of what stands at the place, if anything does.
pub fn slot_at(entries: &IndexMap<Inst, Entry>, place: usize) -> Option<Slot>
    ensures { result ≡ option_map (λ e. e.1.slot) (slice_get entries.now.entries place) }
{
    match entries.get_index(place) {
        Some((_, entry)) => Some(entry.slot),
        None => None,
    }
}

// The slot is where that place is, if it is taken.
fn set_place(slots: &mut Slab<usize>, slot: Slot, place: usize)
    ensures { (k : ℕ) → get slots.new k ≡ (if nat_eq k slot then option_map (λ q. place) (get slots.old k) else get slots.old k) }
{
    if let Some(at) = slots.get_mut(slot as usize) {
        *at = place;
    }
}

// What stands at the place has come there.
fn note(entries: &IndexMap<Inst, Entry>, slots: &mut Slab<usize>, place: usize)
    ensures { IsMoved (option_map (λ e. e.1.slot) (slice_get entries.now.entries place)) place (get slots.old) (get slots.new) }
{
    if let Some(slot) = slot_at(entries, place) {
        set_place(slots, slot, place);
    }
}

// Takes out what is in the slot. All others keep their slots.
fn take(entries: &mut IndexMap<Inst, Entry>, slots: &mut Slab<usize>, slot: Slot) -> Option<Entry>
    ensures placed { IsPlaced entries.old.entries (get slots.old) → IsPlaced entries.new.entries (get slots.new) }
    ensures removed { IsPlaced entries.old.entries (get slots.old) → result ≡ option_map (λ e. e.1) (at entries.old.entries (get slots.old) slot) }
    ensures others { IsPlaced entries.old.entries (get slots.old) → (k : ℕ)
        → at entries.new.entries (get slots.new) k ≡ (if nat_eq k slot then None else at entries.old.entries (get slots.old) k) }
    ensures absent { (i : Instance ℕ) → lookup (same_instance i) entries.old.entries ≡ None → lookup (same_instance i) entries.new.entries ≡ None }
    ensures len { IsPlaced entries.old.entries (get slots.old) → index_map_len entries.new + (if is_some result then 1 else 0) ≡ index_map_len entries.old }
{
    let place = slots.try_remove(slot as usize)?;
    let (_instance, entry) = entries.swap_remove_index(place)?;
    note(entries, slots, place);
    Some(entry)
}

// The entry of an instance that has none comes behind the others, if there is room.
fn append(entries: &mut IndexMap<Inst, Entry>, instance: Inst, entry: Entry) -> bool
    requires { lookup (same_instance instance) entries.old.entries ≡ None }
    ensures unique { IsUnique same_instance entries.new }
    ensures entries { MatchBool result (entries.new.entries ≡ entries.old.entries ++ (instance, entry) ∷ []) (entries.new.entries ≡ entries.old.entries) }
{
    match entries.insert(instance, entry) {
        Ok(_) => true,
        Err(_) => false,
    }
}

impl Entry {
    fn is_fresh(&self, edge: &Edge) -> bool
        ensures { result ≡ (nat_eq self.now.stamp edge.now.stamp && not (is_going self.now.mark)) }
    {
        self.stamp == edge.stamp && !self.mark.is_going()
    }
}
