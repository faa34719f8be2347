//! Edges that tell of entries which are folded tell of those into which they are.

ghost use Rattle.std.specs.Prelude.{◌≡◌, ◌<◌, ◌∷◌, ◌++◌, [], ℕ, IfOk, IfSome, IsTrue, List, OnOk, Some, length, slice_get, true};
ghost use Rattle.at_evict.specs.Prelude.{Location, Edge, edges_in, Added, AreAlone, AreRefolded, Gathered, IsRefolded, Parted, into_of, is_told, refolds, Info, Memory, memory_of, is_current, edge_to, edges_along, edges_of};
ghost use Rattle.at_index.specs.Readers.{edges_at};

use crate::folding::slots_at;
use crate::joining::join;
use crate::refolding::Refolding;
use crate::room::Room;
use at_index::edge::{Edge, Edges, Many, Slot};
use at_index::facet::Facets;
use at_index::linking::push_edge;
use at_index::row::Row;
use std::alloc::AllocError;

// These slots, too: mostly it is one.
#[inline(always)]
fn add_slots(slots: &mut Vec<Slot>, more: &[Slot]) -> Result<(), AllocError>
    ensures { OnOk result (slots.new.items ≡ slots.old.items ++ more.now) }
{
    match more {
        [only] => slots.push(*only)?,
        _ => slots.extend_from_slice(more)?,
    }
    Ok(())
}

// One more edge, unless it is there.
fn add_edge(room: &mut Room, rows: &mut Many, edge: Edge) -> Result<(), AllocError>
    ensures added { (m : Memory) (kept : List Edge) (slots : List ℕ) → is_current m edge ≡ true → Added m kept slots (edges_along rows.old.items)
        → OnOk result (Added m kept (slots ++ edge.slot ∷ []) (edges_along rows.new.items)) }
    ensures slots { room.new.slots ≡ room.old.slots }
{
    if room.has(rows.as_slice(), edge) {
        return Ok(());
    }
    push_edge(rows, edge)?;
    room.note(edge.slot, rows.len().saturating_sub(1));
    Ok(())
}

// The only one of these slots, if it is just one.
fn only_slot(slots: &[Slot]) -> Option<Slot>
    ensures { IfSome result (λ slot. slots.now ≡ slot ∷ []) }
{
    match slots {
        [only] => Some(*only),
        _ => None,
    }
}

impl<'a> Refolding<'a> {
    // Gathers the targets of the entry that the edge tells of.
    fn gather_edge(&self, slots: &mut Vec<Slot>, edge: Edge) -> Result<(), AllocError>
        ensures { OnOk result (Gathered (is_told self.now) (into_of self.now) (edge ∷ []) slots.old.items slots.new.items) }
    {
        if self.lone.has(edge) {
            slots.push(edge.slot)?;
            return Ok(());
        }
        if !self.entries.is_current(&edge) {
            return Ok(());
        }
        add_slots(slots, slots_at(self.plan, edge.slot))
    }

    // The same of all edges of the row.
    fn gather_row(&self, slots: &mut Vec<Slot>, row: &Row) -> Result<(), AllocError>
        ensures { OnOk result (Gathered (is_told self.now) (into_of self.now) (edges_of row.now) slots.old.items slots.new.items) }
    {
        let mut rest = *row;
        while let Some((edge, others)) = rest.split_first() {
            self.gather_edge(slots, edge)?;
            rest = others;
        }
        Ok(())
    }

    // Whether all that the row tells of stays by itself. The room knows then that it stands at that place.
    fn is_kept(&self, room: &mut Room, row: &Row, place: usize) -> bool
        ensures alone { IsTrue result → AreAlone (is_told self.now) (into_of self.now) (edges_of row.now) }
        ensures slots { room.new.slots ≡ room.old.slots }
    {
        let mut rest = *row;
        while let Some((edge, others)) = rest.split_first() {
            if !self.lone.has(edge) {
                return false;
            }
            room.note(edge.slot, place);
            rest = others;
        }
        true
    }

    // Rows stay that tell of nothing but what stays by itself; the others go, and their targets are gathered.
    fn part(&self, room: &mut Room, rows: &mut Many) -> Result<(), AllocError>
        ensures { room.old.slots.items ≡ [] → OnOk result (Parted (memory_of self.now.entries.now) (into_of self.now) (edges_along rows.old.items)
            room.new.slots.items (edges_along rows.new.items)) }
    {
        let mut place = 0;
        while place < rows.len() {
            let row = rows.as_slice()[place];
            if self.is_kept(room, &row, place) {
                place += 1;
            } else {
                self.gather_row(&mut room.slots, &row)?;
                rows.swap_remove(place);
            }
        }
        Ok(())
    }

    // One more edge to the entry in the slot, if there is one.
    fn add_edge_to(&self, room: &mut Room, rows: &mut Many, slot: Slot) -> Result<(), AllocError>
        ensures added { (kept : List Edge) (slots : List ℕ) → Added (memory_of self.now.entries.now) kept slots (edges_along rows.old.items)
            → OnOk result (Added (memory_of self.now.entries.now) kept (slots ++ slot ∷ []) (edges_along rows.new.items)) }
        ensures slots { room.new.slots ≡ room.old.slots }
    {
        match self.entries.pair(slot) {
            Some((_, entry)) => {
                let edge = Edge {
                    slot,
                    stamp: entry.stamp,
                };
                add_edge(room, rows, edge)
            }
            None => Ok(()),
        }
    }

    // The same, with no look-up where what is in the slot stays by itself.
    fn add_edge_into(&self, room: &mut Room, rows: &mut Many, slot: Slot) -> Result<(), AllocError>
        ensures added { (kept : List Edge) (slots : List ℕ) → Added (memory_of self.now.entries.now) kept slots (edges_along rows.old.items)
            → OnOk result (Added (memory_of self.now.entries.now) kept (slots ++ slot ∷ []) (edges_along rows.new.items)) }
        ensures slots { room.new.slots ≡ room.old.slots }
    {
        match self.lone.edge_to(slot) {
            Some(edge) => add_edge(room, rows, edge),
            None => self.add_edge_to(room, rows, slot),
        }
    }

    // The same of all slots that are gathered.
    fn add_edges_to(&self, room: &mut Room, rows: &mut Many) -> Result<(), AllocError>
        ensures { OnOk result (Added (memory_of self.now.entries.now) (edges_along rows.old.items) room.old.slots.items (edges_along rows.new.items)) }
    {
        for number in 0..room.slots.len() {
            let slot = room.slots[number];
            self.add_edge_into(room, rows, slot)?;
        }
        Ok(())
    }

    // The rows tell of those into which the entries are folded of which they told.
    fn change_rows(&self, room: &mut Room, rows: &mut Many) -> Result<(), AllocError>
        ensures { OnOk result (refolds self.now (edges_along rows.old.items) (edges_along rows.new.items)) }
    {
        room.slots.clear();
        self.part(room, rows)?;
        room.slots.sort_unstable();
        self.add_edges_to(room, rows)
    }

    // The edges that come in the place of a row.
    fn change_row(&self, room: &mut Room, row: Row) -> Result<Edges, AllocError>
        ensures { IfOk result (λ edges. refolds self.now (edges_of row) (edges_in edges)) }
    {
        let mut rows = Many::new(self.alloc);
        rows.push(row)?;
        self.change_rows(room, &mut rows)?;
        Edges::of_rows(self.alloc, rows)
    }

    // The list tells of those into which the entries are folded of which it told. A list in a block stays there.
    fn change_edges(&self, room: &mut Room, edges: &mut Edges) -> Result<(), AllocError>
        ensures { OnOk result (refolds self.now (edges_in edges.old) (edges_in edges.new)) }
    {
        match edges {
            Edges::Empty => Ok(()),
            Edges::Few(count, step, slot, stamp) => {
                let row = Row::few(*count, *step, *slot, *stamp);
                *edges = self.change_row(room, row)?;
                Ok(())
            }
            Edges::More(rows) => self.change_rows(room, rows),
        }
    }

    // So it does, in no more memory than it needs.
    fn change_and_shrink(&self, room: &mut Room, edges: &mut Edges) -> Result<(), AllocError>
        ensures { OnOk result (refolds self.now (edges_in edges.old) (edges_in edges.new)) }
    {
        self.change_edges(room, edges)?;
        edges.shrink();
        Ok(())
    }

    // The edge to the entry in the slot alone, if there is one.
    fn edges_to(&self, slot: Slot) -> Option<Edges>
        ensures { IfSome result (λ edges. (e : Info) × (memory_of self.now.entries.now slot ≡ Some e) × (edges_in edges ≡ edge_to slot e ∷ [])) }
    {
        match self.entries.pair(slot) {
            Some((_, entry)) => {
                let edge = Edge {
                    slot,
                    stamp: entry.stamp,
                };
                Some(Edges::of(edge))
            }
            None => None,
        }
    }

    // What comes in the place of an edge that tells of no entry, or of one that is folded into one alone: most lists that change have just that.
    fn edges_for(&self, edge: Edge) -> Option<Edges>
        ensures { IfSome result (λ edges. refolds self.now (edge ∷ []) (edges_in edges)) }
    {
        if !self.entries.is_current(&edge) {
            return Some(Edges::Empty);
        }
        match only_slot(slots_at(self.plan, edge.slot)) {
            Some(slot) => self.edges_to(slot),
            None => None,
        }
    }

    // The same of a list with just one.
    fn edges_in_place(&self, edges: &Edges) -> Option<Edges>
        ensures { IfSome result (λ new. refolds self.now (edges_in edges.now) (edges_in new)) }
    {
        match edges.only() {
            Some(edge) => self.edges_for(edge),
            None => None,
        }
    }

    // The list tells of those into which the entries are folded of which it told.
    #[inline(never)]
    fn change_list(&self, room: &mut Room, edges: &mut Edges) -> Result<(), AllocError>
        ensures { OnOk result (refolds self.now (edges_in edges.old) (edges_in edges.new)) }
    {
        match self.edges_in_place(edges) {
            Some(new) => {
                *edges = new;
                Ok(())
            }
            None => self.change_and_shrink(room, edges),
        }
    }

    /// So does each list. One that tells of nothing but what stays by itself is as it was. An error where memory is wanting.
    #[inline(always)]
    pub fn rewrite_list(&self, room: &mut Room, edges: &mut Edges) -> Result<(), AllocError>
        ensures { OnOk result (refolds self.now (edges_in edges.old) (edges_in edges.new)) }
    {
        if self.lone.has_all(edges) {
            return Ok(());
        }
        self.change_list(room, edges)
    }

    // So does the one at that place of those of a node.
    fn rewrite_at(
        &self,
        room: &mut Room,
        readers: &mut Facets,
        place: usize,
    ) -> Result<(), AllocError>
        requires { place < length readers.old.items }
        ensures here { OnOk result (IsRefolded (is_told self.now) (into_of self.now) (slice_get readers.old.items place)
            (slice_get readers.new.items place)) }
        ensures others { (k : ℕ) → (k ≡ place → ⊥) → slice_get readers.new.items k ≡ slice_get readers.old.items k }
        ensures len { length readers.new.items ≡ length readers.old.items }
    {
        let found = &mut readers.as_mut_slice()[place];
        self.rewrite_list(room, &mut found.edges)
    }

    // So do all of a node.
    fn rewrite_node(&self, room: &mut Room, readers: &mut Facets) -> Result<(), AllocError>
        ensures { OnOk result (AreRefolded (is_told self.now) (into_of self.now) readers.old.items readers.new.items) }
    {
        for place in 0..readers.len() {
            self.rewrite_at(room, readers, place)?;
        }
        Ok(())
    }

    // So do all of a node, where those that come to have the same edges have one list.
    fn rewrite_facets(&self, room: &mut Room, readers: &mut Facets) -> Result<(), AllocError>
        ensures { OnOk result (AreRefolded (is_told self.now) (into_of self.now) readers.old.items readers.new.items) }
    {
        self.rewrite_node(room, readers)?;
        join(readers);
        Ok(())
    }

    /// So do all edges of locations. Room that no node takes is given back. An error where memory is wanting.
    pub fn rewrite(&self, room: &mut Room, readers: &mut Vec<Facets>) -> Result<(), AllocError>
        ensures lists { OnOk result ((l : Location ℕ) → refolds self.now (edges_at readers.old.items l) (edges_at readers.new.items l)) }
        ensures len { length readers.new.items ≡ length readers.old.items }
    {
        for number in 0..readers.len() {
            let list = &mut readers[number];
            self.rewrite_facets(room, list)?;
        }
        readers.shrink_to_fit();
        Ok(())
    }
}
