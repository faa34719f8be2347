//! Entries that stay use what those used that are folded into them, and the others go.

ghost use Rattle.std.specs.Prelude.{◌≡◌, ◌<◌, ◌∷◌, [], ℕ, Bool, Contains, IfOk, IsTrue, List, OnOk, Some};
ghost use Rattle.at_evict.specs.Prelude.{get, Edge, edges_in, AreAlone, AreLinks, AreLone, AreOrdered, AreTaken, HasLinked, HasSame, IsRelinked, Linked, LinkedTo, Relinks, RelinksAt, Remains, RemovesAt, Stays, listed_at, slots_at, into_of, Info, memory_of, is_current};

use crate::folding::{does_stay, is_near, list_at, slots_at};
use crate::lone::{Lone, is_only};
use crate::refolding::Refolding;
use crate::room::Room;
use at_cache::entry::{Entry, Links};
use at_cache::table::Table;
use at_index::edge::{Edges, Slot};
use std::alloc::{AllocError, Global};

// One link more, if the entry in that slot stays. Of the list only the end is looked at, so that many links cost no more than their number.
fn add_link(list: &mut Links, plan: &[Links], slot: Slot) -> Result<(), AllocError>
    ensures { OnOk result (Linked (slots_at plan.now) (slot ∷ []) list.old.items list.new.items) }
{
    if !does_stay(plan, slot) {
        return Ok(());
    }
    if is_near(list.as_slice(), slot) {
        return Ok(());
    }
    list.push(slot)?;
    Ok(())
}

// Those of the links that stay are added to the list.
fn add_links(list: &mut Links, plan: &[Links], links: &[Slot]) -> Result<(), AllocError>
    ensures { OnOk result (Linked (slots_at plan.now) links.now list.old.items list.new.items) }
{
    for slot in links {
        add_link(list, plan, *slot)?;
    }
    Ok(())
}

/// So many empty lists.
pub fn empty_lists(alloc: Global, count: usize) -> Result<Vec<Links>, AllocError>
    ensures { IfOk result (λ lists. (r : ℕ) → slots_at lists.items r ≡ []) }
{
    let mut lists = Vec::with_capacity(alloc, count)?;
    for _ in 0..count {
        lists.push(Links::new(alloc))?;
    }
    Ok(lists)
}

impl<'a> Refolding<'a> {
    // Those of the links that stay are added to the list of the target. An error where that isn't there.
    fn link_to(
        &self,
        lists: &mut Vec<Links>,
        target: Slot,
        links: &[Slot],
    ) -> Result<(), AllocError>
        ensures { OnOk result (LinkedTo (into_of self.now) (target ∷ []) links.now (listed_at (get self.now.entries.now.places) lists.old.items)
            (listed_at (get self.now.entries.now.places) lists.new.items)) }
    {
        let Some(place) = self.entries.places.get(target as usize) else {
            return Err(AllocError);
        };
        let place = *place;
        if place >= lists.len() {
            return Err(AllocError);
        }
        let list = &mut lists[place];
        add_links(list, self.plan, links)
    }

    // They are added to those of all these targets.
    fn link_each(
        &self,
        lists: &mut Vec<Links>,
        targets: &[Slot],
        links: &[Slot],
    ) -> Result<(), AllocError>
        ensures { OnOk result (LinkedTo (into_of self.now) targets.now links.now (listed_at (get self.now.entries.now.places) lists.old.items)
            (listed_at (get self.now.entries.now.places) lists.new.items)) }
    {
        for target in targets {
            self.link_to(lists, *target, links)?;
        }
        Ok(())
    }

    // What the entry in the slot used is linked to each other one into which it is folded.
    fn link_from(&self, lists: &mut Vec<Links>, slot: Slot) -> Result<(), AllocError>
        ensures { OnOk result (HasLinked (memory_of self.now.entries.now) (into_of self.now) slot
            (listed_at (get self.now.entries.now.places) lists.old.items) (listed_at (get self.now.entries.now.places) lists.new.items)) }
    {
        let targets = slots_at(self.plan, slot);
        if is_only(targets, slot) {
            return Ok(());
        }
        match self.entries.pair(slot) {
            Some((_, entry)) => self.link_each(lists, targets, entry.links.as_slice()),
            None => Ok(()),
        }
    }

    /// By their places, what the entries that stay are linked to for others that are folded into them. The entries are in these slots. An
    /// error where memory is wanting, or where there is none into which one is to be folded.
    pub fn links_of(&self, taken: &[Slot]) -> Result<Vec<Links>, AllocError>
        requires taken { AreTaken (memory_of self.now.entries.now) taken.now }
        ensures { IfOk result (λ links. AreLinks (memory_of self.now.entries.now) (into_of self.now)
            (listed_at (get self.now.entries.now.places) links.items)) }
    {
        let mut lists = empty_lists(self.alloc, taken.len())?;
        for slot in taken {
            self.link_from(&mut lists, *slot)?;
        }
        Ok(lists)
    }
}

// Each of these links is in the list once.
fn make_distinct(list: &mut Links)
    ensures { HasSame list.old.items list.new.items }
{
    if list.len() < 2 {
        return;
    }
    list.as_mut_slice().sort_unstable();
    list.dedup();
}

// What the entry in the slot used that stays, if there is one, is added to the list.
fn add_own(list: &mut Links, entries: &Table, plan: &[Links], slot: Slot) -> Result<(), AllocError>
    ensures { OnOk result ((e : Info) → memory_of entries.now slot ≡ Some e → Linked (slots_at plan.now) e.links list.old.items list.new.items) }
{
    match entries.pair(slot) {
        Some((_, entry)) => add_links(list, plan, entry.links.as_slice()),
        None => Ok(()),
    }
}

// These links, and with them what the entry in the slot used that stays, each once.
fn joined(
    alloc: Global,
    entries: &Table,
    plan: &[Links],
    links: &[Slot],
    slot: Slot,
) -> Result<Links, AllocError>
    ensures { IfOk result (λ list. (e : Info) → memory_of entries.now slot ≡ Some e → Linked (slots_at plan.now) e.links links.now list.items) }
{
    let mut list = Links::from_slice(alloc, links)?;
    add_own(&mut list, entries, plan, slot)?;
    make_distinct(&mut list);
    Ok(list)
}

// Whether all that the entry used stays by itself, and what used it does.
fn is_left(lone: &Lone, entry: &Entry) -> bool
    ensures stay { (there : Edge → Bool) (into : ℕ → List ℕ) → AreLone there into lone.now.none lone.now.stamps.items
        → IsTrue result → (p : ℕ) → Contains entry.now.links.items p → Stays into p }
    ensures alone { (there : Edge → Bool) (into : ℕ → List ℕ) → AreLone there into lone.now.none lone.now.stamps.items
        → IsTrue result → AreAlone there into (edges_in entry.now.users) }
{
    if !lone.are_at(entry.links.as_slice()) {
        return false;
    }
    lone.has_all(&entry.users)
}

// Whether there is none.
fn are_none(slots: &[Slot]) -> bool
    ensures { IsTrue result → slots.now ≡ [] }
{
    match slots {
        [] => true,
        _ => false,
    }
}

// Whether the entry in the slot, if there is one, is as it is to be with these links.
fn is_settled(entries: &Table, links: &[Slot], lone: &Lone, slot: Slot) -> bool
    ensures { (into : ℕ → List ℕ) → AreLone (is_current (memory_of entries.now)) into lone.now.none lone.now.stamps.items
        → IsTrue result → IsRelinked (is_current (memory_of entries.now)) into links.now (memory_of entries.now slot) (memory_of entries.now slot) }
{
    if !are_none(links) {
        return false;
    }
    match entries.pair(slot) {
        Some((_, entry)) => is_left(lone, entry),
        None => false,
    }
}

// What is in the slot, if anything is, has these links beside its own that stay, and what used those that are folded into it.
fn relink_one(
    alloc: Global,
    entries: &mut Table,
    plan: &[Links],
    links: &[Slot],
    lone: &Lone,
    room: &mut Room,
    slot: Slot,
) -> Result<(), AllocError>
    requires lone { AreLone (is_current (memory_of entries.old)) (slots_at plan.now) lone.now.none lone.now.stamps.items }
    ensures { OnOk result (RelinksAt (slots_at plan.now) links.now slot (memory_of entries.old) (memory_of entries.new)) }
{
    if !entries.is_taken(slot) {
        return Ok(());
    }
    let list = joined(alloc, entries, plan, links, slot)?;
    let mut users = entries.exchange_users(slot, Edges::Empty);
    let by = Refolding {
        alloc,
        entries,
        plan,
        lone,
    };
    by.rewrite_list(room, &mut users)?;
    entries.relink(slot, list, users);
    Ok(())
}

// So it is, if it stays.
fn relink_at(
    alloc: Global,
    entries: &mut Table,
    plan: &[Links],
    links: &[Slot],
    lone: &Lone,
    room: &mut Room,
    slot: Slot,
) -> Result<(), AllocError>
    requires lone { AreLone (is_current (memory_of entries.old)) (slots_at plan.now) lone.now.none lone.now.stamps.items }
    ensures { OnOk result (RelinksAt (slots_at plan.now) links.now slot (memory_of entries.old) (memory_of entries.new)) }
{
    if !does_stay(plan, slot) {
        return Ok(());
    }
    if is_settled(entries, links, lone, slot) {
        return Ok(());
    }
    relink_one(alloc, entries, plan, links, lone, room, slot)
}

/// Each entry that stays has its links, and is used by those into which its users are folded. The entries are in these slots, and what
/// they gain is in the lists of their places.
pub fn relink(
    alloc: Global,
    entries: &mut Table,
    plan: &[Links],
    taken: &[Slot],
    links: &[Links],
    lone: &Lone,
    room: &mut Room,
) -> Result<(), AllocError>
    requires lone { AreLone (is_current (memory_of entries.old)) (slots_at plan.now) lone.now.none lone.now.stamps.items }
    requires taken { AreTaken (memory_of entries.old) taken.now }
    requires ordered { AreOrdered (get entries.old.places) taken.now }
    ensures relinked { OnOk result (Relinks (slots_at plan.now) (listed_at (get entries.old.places) links.now)
        (memory_of entries.old) (memory_of entries.new)) }
    ensures taken { OnOk result (AreTaken (memory_of entries.new) taken.now) }
{
    for place in 0..taken.len() {
        let gained = list_at(links, place);
        relink_at(alloc, entries, plan, gained, lone, room, taken[place])?;
    }
    Ok(())
}

// What is in the slot goes, if it doesn't stay.
fn remove_at(entries: &mut Table, plan: &[Links], slot: Slot)
    ensures { RemovesAt (slots_at plan.now) slot (memory_of entries.old) (memory_of entries.new) }
{
    if does_stay(plan, slot) {
        return;
    }
    if !entries.is_taken(slot) {
        return;
    }
    let _ = entries.remove(slot);
}

/// What doesn't stay goes, with the memory that it took. The entries are in these slots.
pub fn remove_folded(entries: &mut Table, plan: &[Links], taken: &[Slot])
    requires taken { AreTaken (memory_of entries.old) taken.now }
    ensures { Remains (slots_at plan.now) (memory_of entries.old) (memory_of entries.new) }
{
    for slot in taken {
        remove_at(entries, plan, *slot);
    }
    entries.shrink();
}
