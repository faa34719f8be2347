//! Runs: nodes that were looked at one after the other, as a fold over a list looks at its elements.

ghost use Rattle.std.specs.Prelude.{◌≡◌, ◌≤◌, ◌^◌, [], length};
ghost use Rattle.at_index.specs.Prelude.{AreSeated, lies};

use crate::desk::AllDesks;
use crate::edge::Edge;
use crate::facet::{Facet, Facets};
use indexmap::IndexMap;
use std::alloc::Global;

/// Where a node sits in a run, at which place, from 1 on, and what is looked at of it there. At place 0 it sits nowhere.
#[derive(Clone, Copy)]
pub struct Seat {
    pub run: u32,
    pub place: u32,
    pub facet: Facet,
}

/// One edge for all that sit behind the one place, up to the other.
#[derive(Clone, Copy)]
pub struct Reach {
    pub edge: Edge,
    pub behind: u32,
    pub last: u32,
}

/// How many places of a run were ever given, and the edges to the entries that went over some of them.
#[derive(Drop)]
pub struct Run {
    pub count: u32,
    pub edges: Vec<Reach>,
}

/// Who looked at what: from a location the edges lead to the entries that read it.
#[derive(Drop)]
pub struct AllReaders {
    /// Edges of one location each, by the numbers of nodes.
    pub own: Vec<Facets>,
    /// Edges of drawers, by nodes.
    pub desks: AllDesks,
    /// Where nodes sit, by their numbers.
    pub seats: Vec<Seat>,
    pub runs: Vec<Run>,
    pub ghost seated: { AreSeated seats.items runs.items },
    pub ghost short: { length own.items ≤ 2 ^ 32 },
    pub ghost few: { length seats.items ≤ 2 ^ 32 },
}

impl Seat {
    /// Of a node that sits nowhere.
    pub fn nowhere() -> Seat
        ensures { result.place ≡ 0 }
    {
        Seat {
            run: 0,
            place: 0,
            facet: Facet::Near(0),
        }
    }
}

impl Reach {
    /// Whether it is over the place.
    pub fn is_over(&self, place: u32) -> bool
        ensures { result ≡ lies self.now.behind self.now.last place }
    {
        self.behind < place && !(self.last < place)
    }
}

impl AllReaders {
    /// None yet.
    pub fn new(alloc: Global) -> AllReaders
        ensures own { result.own.items ≡ [] }
        ensures desks { result.desks.entries ≡ [] }
        ensures seats { result.seats.items ≡ [] }
    {
        AllReaders {
            own: Vec::new(alloc),
            desks: IndexMap::new(alloc),
            seats: Vec::new(alloc),
            runs: Vec::new(alloc),
        }
    }
}
