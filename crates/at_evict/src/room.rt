//! Room for work where lists of edges are made anew.

ghost use Rattle.std.specs.Prelude.{◌≡◌, Contains, IsTrue};
ghost use Rattle.at_evict.specs.Prelude.{edges_along};

use at_index::edge::{Edge, Slot};
use at_index::facet::small;
use at_index::row::Row;
use std::alloc::{AllocError, Global};

/// What is gathered for a list, and where its edges stand.
#[derive(Drop)]
pub struct Room {
    /// Slots to which it is to have edges.
    pub slots: Vec<Slot>,
    // By slots, which of the list's rows has an edge to it: a hint, left from an earlier list where none has.
    places: Vec<u32>,
}

impl Room {
    /// Room for lists with edges to so many slots.
    pub fn new(alloc: Global, count: usize) -> Result<Room, AllocError> {
        let mut places = Vec::new(alloc);
        places.resize(count, 0)?;
        Ok(Room {
            slots: Vec::new(alloc),
            places,
        })
    }

    /// An edge to the slot is likely to stand in the row at that place.
    pub fn note(&mut self, slot: Slot, place: usize)
        ensures { self.new.slots ≡ self.old.slots }
    {
        let Ok(place) = small(place) else {
            return;
        };
        if let Some(at) = self.places.get_mut(slot as usize) {
            *at = place;
        }
    }

    /// Whether the edge stands in one of the rows, as far as is known.
    pub fn has(&self, rows: &[Row], edge: Edge) -> bool
        ensures { IsTrue result → Contains (edges_along rows.now) edge }
    {
        match self.places.get(edge.slot as usize) {
            Some(place) => has_at(rows, *place as usize, edge),
            None => false,
        }
    }
}

// Whether the edge stands in the row at that place.
fn has_at(rows: &[Row], place: usize, edge: Edge) -> bool
    ensures { IsTrue result → Contains (edges_along rows.now) edge }
{
    match rows.get(place) {
        Some(row) => row.has(edge),
        None => false,
    }
}
