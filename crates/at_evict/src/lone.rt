//! Entries that a plan leaves by themselves, and lists of edges to such alone, which it leaves as they are.

ghost use Rattle.std.specs.Prelude.{◌≡◌, ◌∷◌, [], ℕ, Bool, Contains, IfOk, IfSome, IsTrue, List, true};
ghost use Rattle.at_evict.specs.Prelude.{Edge, edges_in, AreAlone, AreLone, IsLone, Stays, slots_at, memory_of, is_current, edges_along, edges_of};

use crate::folding::slots_at;
use at_cache::entry::Links;
use at_cache::table::Table;
use at_index::edge::{Edge, Edges, Slot};
use at_index::row::Row;
use std::alloc::{AllocError, Global};

/// By slots, the numbers of those entries that are folded into themselves alone.
#[derive(Drop)]
pub struct Lone {
    // What stands for no such entry.
    none: u64,
    stamps: Vec<u64>,
}

/// Whether that slot is the only one.
pub fn is_only(slots: &[Slot], slot: Slot) -> bool
    ensures { IsTrue result → slots.now ≡ slot ∷ [] }
{
    match slots {
        [only] => *only == slot,
        _ => false,
    }
}

// The number of the entry in the slot, if there is one and it is folded into itself alone, and else that other one.
fn number_in(entries: &Table, plan: &[Links], slot: Slot, none: u64) -> u64
    ensures { IsLone (is_current (memory_of entries.now)) (slots_at plan.now) none slot result }
{
    if !is_only(slots_at(plan, slot), slot) {
        return none;
    }
    match entries.pair(slot) {
        Some((_, entry)) => entry.stamp,
        None => none,
    }
}

// That number stands at the slot from now on.
fn set_number(numbers: &mut Vec<u64>, slot: Slot, number: u64)
    ensures { (there : Edge → Bool) (into : ℕ → List ℕ) (none : ℕ) → IsLone there into none slot number
        → AreLone there into none numbers.old.items → AreLone there into none numbers.new.items }
{
    if let Some(at) = numbers.get_mut(slot as usize) {
        *at = number;
    }
}

// So often what stands for no entry.
fn no_numbers(alloc: Global, count: usize, none: u64) -> Result<Vec<u64>, AllocError>
    ensures { (there : Edge → Bool) (into : ℕ → List ℕ) → IfOk result (λ numbers. AreLone there into none numbers.items) }
{
    let mut numbers = Vec::new(alloc);
    numbers.resize(count, none)?;
    Ok(numbers)
}

// By slots, the numbers of those of these slots; of many slots most may be free.
fn numbers_of(
    alloc: Global,
    entries: &Table,
    plan: &[Links],
    taken: &[Slot],
    none: u64,
) -> Result<Vec<u64>, AllocError>
    ensures { IfOk result (λ numbers. AreLone (is_current (memory_of entries.now)) (slots_at plan.now) none numbers.items) }
{
    let mut numbers = no_numbers(alloc, plan.len(), none)?;
    for slot in taken {
        set_number(&mut numbers, *slot, number_in(entries, plan, *slot, none));
    }
    Ok(numbers)
}

/// Those of the plan among these slots.
pub fn lone_of(
    alloc: Global,
    entries: &Table,
    plan: &[Links],
    taken: &[Slot],
) -> Result<Lone, AllocError>
    ensures { IfOk result (λ lone. AreLone (is_current (memory_of entries.now)) (slots_at plan.now) lone.none lone.stamps.items) }
{
    let none = u64::MAX;
    let stamps = numbers_of(alloc, entries, plan, taken, none)?;
    Ok(Lone { none, stamps })
}

impl Lone {
    /// Whether the edge tells of one.
    pub fn has(&self, edge: Edge) -> bool
        ensures { (there : Edge → Bool) (into : ℕ → List ℕ) → AreLone there into self.now.none self.now.stamps.items
            → IsTrue result → (there edge ≡ true) × (into edge.slot ≡ edge.slot ∷ []) }
    {
        if edge.stamp == self.none {
            return false;
        }
        match self.stamps.get(edge.slot as usize) {
            Some(stamp) => *stamp == edge.stamp,
            None => false,
        }
    }

    /// Whether one is in the slot.
    pub fn is_at(&self, slot: Slot) -> bool
        ensures { (there : Edge → Bool) (into : ℕ → List ℕ) → AreLone there into self.now.none self.now.stamps.items
            → IsTrue result → Stays into slot }
    {
        match self.stamps.get(slot as usize) {
            Some(stamp) => *stamp != self.none,
            None => false,
        }
    }

    /// The edge to the one in the slot, if one is there.
    pub fn edge_to(&self, slot: Slot) -> Option<Edge>
        ensures { (there : Edge → Bool) (into : ℕ → List ℕ) → AreLone there into self.now.none self.now.stamps.items
            → IfSome result (λ edge. (edge.slot ≡ slot) × (there edge ≡ true)) }
    {
        let Some(stamp) = self.stamps.get(slot as usize) else {
            return None;
        };
        let stamp = *stamp;
        if stamp == self.none {
            return None;
        }
        Some(Edge { slot, stamp })
    }

    /// Whether one is in each of these slots.
    pub fn are_at(&self, slots: &[Slot]) -> bool
        ensures { (there : Edge → Bool) (into : ℕ → List ℕ) → AreLone there into self.now.none self.now.stamps.items
            → IsTrue result → (p : ℕ) → Contains slots.now p → Stays into p }
    {
        for slot in slots {
            if !self.is_at(*slot) {
                return false;
            }
        }
        true
    }

    // Whether each of the row does.
    fn has_row(&self, row: &Row) -> bool
        ensures { (there : Edge → Bool) (into : ℕ → List ℕ) → AreLone there into self.now.none self.now.stamps.items
            → IsTrue result → AreAlone there into (edges_of row.now) }
    {
        let mut rest = *row;
        while let Some((edge, others)) = rest.split_first() {
            if !self.has(edge) {
                return false;
            }
            rest = others;
        }
        true
    }

    // Whether each of these rows does.
    fn has_rows(&self, rows: &[Row]) -> bool
        ensures { (there : Edge → Bool) (into : ℕ → List ℕ) → AreLone there into self.now.none self.now.stamps.items
            → IsTrue result → AreAlone there into (edges_along rows.now) }
    {
        for row in rows {
            if !self.has_row(row) {
                return false;
            }
        }
        true
    }

    /// Whether each of the list does.
    pub fn has_all(&self, edges: &Edges) -> bool
        ensures { (there : Edge → Bool) (into : ℕ → List ℕ) → AreLone there into self.now.none self.now.stamps.items
            → IsTrue result → AreAlone there into (edges_in edges.now) }
    {
        match edges {
            Edges::Empty => true,
            Edges::Few(count, step, slot, stamp) => {
                self.has_row(&Row::few(*count, *step, *slot, *stamp))
            }
            Edges::More(rows) => self.has_rows(rows.as_slice()),
        }
    }
}
