//! Edges of the index.

ghost use Rattle.std.specs.Prelude.{◌≡◌, ◌∷◌, [], IfOk, IfSome, IsTrue, length, nat_eq};
ghost use Rattle.at_index.specs.Prelude.{edges_in, same_edge, edges_along, edges_of};

use crate::row::Row;
use smallvec::SmallVec;
use std::alloc::{AllocError, Global};

/// Where an entry stands as long as it does, while others come and go.
pub type Slot = u32;

/// That an entry rests on something: its slot, and the number of its `put`, which no other entry ever has.
#[derive(Clone, Copy, Default)]
pub struct Edge {
    pub slot: Slot,
    pub stamp: u64,
}

impl Edge {
    /// Whether it is the other one.
    pub fn is_same(&self, other: &Edge) -> bool
        ensures { result ≡ same_edge self.now other.now }
    {
        self.slot == other.slot && self.stamp == other.stamp
    }
}

/// Edges in several rows, or in a long one; three rows stand in the block of the list itself.
pub type Many = SmallVec<Row, 3>;

/// Edges, in sixteen bytes.
pub enum Edges {
    Empty,
    /// A row of so many edges, with so great a step, from that slot and number on.
    Few(u8, u16, Slot, u64),
    More(Box<Many>),
}

impl Default for Edges {
    fn default() -> Edges {
        Edges::Empty
    }
}

/// One call, where each exit that lets them go would else have a case for each form.
impl Drop for Edges {
    fn drop(self) {
        match self {
            Edges::Empty => {}
            Edges::Few(_, _, _, _) => {}
            Edges::More(_list) => {}
        }
    }
}

// Whether both are the same rows.
fn are_same(rows: &[Row], others: &[Row]) -> bool
    ensures { IsTrue result → rows.now ≡ others.now }
{
    if rows.len() != others.len() {
        return false;
    }
    for place in 0..rows.len() {
        if rows[place] != others[place] {
            return false;
        }
    }
    true
}

// Whether the rows have no edge.
fn are_empty(rows: &[Row]) -> bool
    ensures { result ≡ nat_eq (length (edges_along rows.now)) 0 }
{
    for row in rows {
        if !row.is_empty() {
            return false;
        }
    }
    true
}

// The edges of these rows, where they take sixteen bytes.
fn few_of(rows: &[Row]) -> Option<Edges>
    ensures { IfSome result (λ edges. edges_in edges ≡ edges_along rows.now) }
{
    let Some((row, others)) = rows.split_first() else {
        return Some(Edges::Empty);
    };
    match others.split_first() {
        Some(_) => None,
        None => Edges::of_row(*row),
    }
}

impl Edges {
    /// That edge alone.
    pub fn of(edge: Edge) -> Edges
        ensures { edges_in result ≡ edge ∷ [] }
    {
        Edges::Few(1, 0, edge.slot, edge.stamp)
    }

    /// The edges of the row, where they take sixteen bytes.
    pub fn of_row(row: Row) -> Option<Edges>
        ensures { IfSome result (λ edges. edges_in edges ≡ edges_of row) }
    {
        if row.count > u16::from(u8::MAX) {
            return None;
        }
        Some(Edges::Few(row.count as u8, row.step, row.slot, row.stamp))
    }

    /// The row that they are, where they are one in sixteen bytes.
    pub fn row(&self) -> Option<Row>
        ensures { IfSome result (λ row. edges_of row ≡ edges_in self.now) }
    {
        match self {
            Edges::Few(count, step, slot, stamp) => Some(Row::few(*count, *step, *slot, *stamp)),
            Edges::Empty => None,
            Edges::More(_) => None,
        }
    }

    /// Its edge, where it is just one, in sixteen bytes.
    pub fn only(&self) -> Option<Edge>
        ensures { IfSome result (λ edge. edges_in self.now ≡ edge ∷ []) }
    {
        match self.row() {
            Some(row) => row.only(),
            None => None,
        }
    }

    /// The edges of these rows, in no more memory than they need.
    pub fn of_rows(alloc: Global, rows: Many) -> Result<Edges, AllocError>
        ensures { IfOk result (λ edges. edges_in edges ≡ edges_along rows.items) }
    {
        if let Some(edges) = few_of(rows.as_slice()) {
            return Ok(edges);
        }
        let mut rows = rows;
        rows.shrink_to_fit();
        Ok(Edges::More(Box::new(alloc, rows)?))
    }

    // The edges of a block, where they take sixteen bytes.
    fn few(&self) -> Option<Edges>
        ensures { IfSome result (λ edges. edges_in edges ≡ edges_in self.now) }
    {
        match self {
            Edges::More(rows) => few_of(rows.as_slice()),
            Edges::Empty => None,
            Edges::Few(_, _, _, _) => None,
        }
    }

    // A block gives back room that it doesn't need.
    fn shrink_block(&mut self)
        ensures { edges_in self.new ≡ edges_in self.old }
    {
        if let Edges::More(rows) = self {
            rows.shrink_to_fit();
        }
    }

    /// The same edges take no more memory than they need.
    pub fn shrink(&mut self)
        ensures { edges_in self.new ≡ edges_in self.old }
    {
        match self.few() {
            Some(edges) => *self = edges,
            None => self.shrink_block(),
        }
    }

    /// Whether these are the others, in the same rows.
    pub fn are(&self, others: &Edges) -> bool
        ensures { IsTrue result → edges_in self.now ≡ edges_in others.now }
    {
        match (self, others) {
            (Edges::Few(count, step, slot, stamp), Edges::Few(more, other, place, number)) => {
                count == more && step == other && slot == place && stamp == number
            }
            (Edges::More(rows), Edges::More(others)) => are_same(
                rows.as_slice(),
                others.as_slice(),
            ),
            _ => false,
        }
    }

    /// Whether there is none.
    pub fn is_empty(&self) -> bool
        ensures { result ≡ nat_eq (length (edges_in self.now)) 0 }
    {
        match self {
            Edges::Empty => true,
            Edges::Few(count, _, _, _) => *count == 0,
            Edges::More(rows) => are_empty(rows.as_slice()),
        }
    }
}
