//! One edge for locations that are looked at as they were before.

ghost use Rattle.std.specs.Prelude.{◌≡◌, ◌≤◌, ◌<◌, ◌^◌, ℕ, false, true, Some, Contains, IfOk, IsTrue, OnOk, length, map};
ghost use Rattle.at_index.specs.Prelude.{loc_view, Seat, Adds, AddsReads, AreApart, ArePast, AreSeated, Follows, Gains, HoldsReach, ListsBut, Lose, SitsAt, count_of, edges_on, edges_over, is_within};

use crate::facet::Facet;
use crate::facets::first_facet;
use crate::run::{Reach, Run, Seat};
use crate::seating::{first_seat, seat_of};
use crate::tells::{Adding, Tells};
use at_store::{Loc, Node};
use std::alloc::{AllocError, Global};

// Fewer places get an edge for each of their locations.
const FEW: u32 = 4;

/// Fewer locations are no fold.
pub const MANY: usize = 8;

// One of a fold's first two elements is looked at behind fewer locations.
const FRONT: usize = 6;

// The node whose class is looked at first, where nothing but that and texts of it are looked at before another one's class: so does a fold.
fn first_element(locations: &[Loc]) -> Option<Node> {
    let (Loc::Is(node), others) = locations.split_first()? else {
        return None;
    };
    for location in others {
        match location {
            Loc::Is(other) => {
                if *other != *node {
                    return Some(*node);
                }
            }
            Loc::Tok(_, _) => {}
            _ => return None,
        }
    }
    None
}

/// How many locations were looked at before a fold's, or before those of its second element where that sits in a run and the first one
/// doesn't; all where there is no fold.
pub fn before_fold(seats: &[Seat], locations: &[Loc]) -> usize
    ensures { result ≤ length locations.now }
{
    let mut first = locations.len();
    let mut rest = locations;
    for place in 0..FRONT {
        if let Some(node) = first_element(rest) {
            if seat_of(seats, node).place > 0 {
                return place;
            }
            first = first.min(place);
        }
        let Some((_, others)) = rest.split_first() else {
            return first;
        };
        rest = others;
    }
    first
}

// Whether the node sits in that place of the run, and that is looked at there.
fn is_at(seats: &[Seat], run: u32, place: u32, node: Node, facet: Facet) -> bool
    ensures { IsTrue result → SitsAt seats.now run place node facet }
{
    if place == 0 || facet.is_index() {
        return false;
    }
    let seat = seat_of(seats, node);
    seat.run == run && seat.place == place && seat.facet == facet
}

// Up to which place of the run the locations go on behind that one, and what is left of them.
fn follow<'a>(
    seats: &[Seat],
    run: u32,
    behind: u32,
    locations: &'a [Loc],
) -> Result<(u32, &'a [Loc]), AllocError>
    requires { AreApart seats.now }
    ensures follows { IfOk result (λ r. Follows seats.now run behind r.0 (map loc_view locations.now) (map loc_view r.1.now)) }
{
    let mut last = behind;
    let mut rest = locations;
    while let Some((location, others)) = rest.split_first() {
        let Ok((facet, left)) = first_facet(*location, others) else {
            return Ok((last, rest));
        };
        let Some(place) = last.checked_add(1) else {
            return Ok((last, rest));
        };
        if !is_at(seats, run, place, location.node(), facet) {
            return Ok((last, rest));
        }
        last = place;
        rest = left;
    }
    Ok((last, rest))
}

impl<'a, T: Tells> Adding<'a, T> {
    // The edges that tell of nothing go.
    fn purge(&self, edges: &mut Vec<Reach>)
        ensures { HoldsReach (T.tells self.now.teller.now) self.now.edge edges.old.items edges.new.items }
    {
        let mut place = 0;
        while place < edges.len() {
            if self.tells_of(&edges[place].edge) {
                place += 1;
            } else {
                edges.swap_remove(place);
            }
        }
    }

    // Makes room for one more edge of a list that is full: it loses those that tell of nothing first, and gets more room only where half of
    // it or less is left then.
    fn make_room(&self, edges: &mut Vec<Reach>) -> Result<(), AllocError>
        ensures { HoldsReach (T.tells self.now.teller.now) self.now.edge edges.old.items edges.new.items }
    {
        if edges.len() < edges.capacity() {
            return Ok(());
        }
        self.purge(edges);
        let count = edges.len();
        if count >= edges.capacity() / 2 {
            edges.reserve(count)?;
        }
        Ok(())
    }

    // One more edge of a list.
    fn add_to(&self, edges: &mut Vec<Reach>, behind: u32, last: u32) -> Result<(), AllocError>
        ensures gains { Gains (T.tells self.now.teller.now) (record { edge = self.now.edge; behind = behind; last = last }) edges.old.items edges.new.items }
        ensures has { OnOk result (Contains edges.new.items (record { edge = self.now.edge; behind = behind; last = last })) }
    {
        self.make_room(edges)?;
        edges.push(Reach {
            edge: self.edge,
            behind,
            last,
        })?;
        Ok(())
    }

    // One more edge of a run.
    fn add_reach(
        &self,
        runs: &mut Vec<Run>,
        run: u32,
        behind: u32,
        last: u32,
    ) -> Result<(), AllocError>
        requires { run < length runs.old.items }
        ensures adds { Adds (T.tells self.now.teller.now) self.now.edge (is_within run behind last) (edges_on runs.old.items) (edges_on runs.new.items) }
        ensures has { OnOk result ((s : Seat) → is_within run behind last s ≡ true → Contains (edges_on runs.new.items s) self.now.edge) }
        ensures given { (k : ℕ) → count_of runs.new.items k ≡ count_of runs.old.items k }
        ensures past { last ≤ count_of runs.old.items run → ArePast runs.old.items → ArePast runs.new.items }
    {
        let found = &mut runs[run as usize];
        self.add_to(&mut found.edges, behind, last)
    }

    // How the run goes on behind its last place.
    fn lengthen(
        &self,
        seats: &mut Vec<Seat>,
        runs: &mut Vec<Run>,
        run: u32,
        last: u32,
        left: &[Loc],
    ) -> Result<(), AllocError>
        requires { AreSeated seats.old.items runs.old.items }
        ensures seated { AreSeated seats.new.items runs.new.items }
        ensures holds { Lose (T.tells self.now.teller.now) self.now.edge (edges_over seats.old.items runs.old.items)
            (edges_over seats.new.items runs.new.items) }
        ensures short { length seats.old.items ≤ 2 ^ 32 → length seats.new.items ≤ 2 ^ 32 }
    {
        match runs.get(run as usize) {
            Some(known) => {
                if known.count != last {
                    return Ok(());
                }
            }
            None => {
                return Ok(());
            }
        }
        self.sit_all(seats, runs, run, left)
    }

    /// One edge for those at the front of the locations that sit one behind the other in a run; what is left of them, all where they don't.
    pub fn add_along<'b>(
        &self,
        seats: &mut Vec<Seat>,
        runs: &mut Vec<Run>,
        locations: &'b [Loc],
    ) -> Result<&'b [Loc], AllocError>
        requires { AreSeated seats.old.items runs.old.items }
        ensures seated { AreSeated seats.new.items runs.new.items }
        ensures adds { AddsReads (T.tells self.now.teller.now) self.now.edge (map loc_view locations.now) (edges_over seats.old.items runs.old.items)
            (edges_over seats.new.items runs.new.items) }
        ensures listed { IfOk result (λ left. ListsBut self.now.edge (map loc_view locations.now) (map loc_view left.now)
            (edges_over seats.new.items runs.new.items)) }
        ensures short { length seats.old.items ≤ 2 ^ 32 → length seats.new.items ≤ 2 ^ 32 }
    {
        let seat = first_seat(seats.as_slice(), locations);
        let run = seat.run;
        let Some(behind) = seat.place.checked_sub(1) else {
            return Ok(locations);
        };
        let (last, left) = follow(seats.as_slice(), run, behind, locations)?;
        if last - behind < FEW {
            return Ok(locations);
        }
        self.add_reach(runs, run, behind, last)?;
        self.lengthen(seats, runs, run, last, left)?;
        Ok(left)
    }

    /// The same, where they come to sit so if they don't yet.
    pub fn add_stretch<'b>(
        &self,
        seats: &mut Vec<Seat>,
        runs: &mut Vec<Run>,
        locations: &'b [Loc],
    ) -> Result<&'b [Loc], AllocError>
        requires { AreSeated seats.old.items runs.old.items }
        ensures seated { AreSeated seats.new.items runs.new.items }
        ensures adds { AddsReads (T.tells self.now.teller.now) self.now.edge (map loc_view locations.now) (edges_over seats.old.items runs.old.items)
            (edges_over seats.new.items runs.new.items) }
        ensures listed { IfOk result (λ left. ListsBut self.now.edge (map loc_view locations.now) (map loc_view left.now)
            (edges_over seats.new.items runs.new.items)) }
        ensures short { length seats.old.items ≤ 2 ^ 32 → length seats.new.items ≤ 2 ^ 32 }
    {
        let left = self.add_along(seats, runs, locations)?;
        if left.len() < locations.len() || left.is_empty() {
            return Ok(left);
        }
        self.sit_anew(seats, runs, locations)?;
        self.add_along(seats, runs, locations)
    }
}
