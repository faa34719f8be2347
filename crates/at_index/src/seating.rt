//! Who sits where in runs.

ghost use Rattle.std.specs.Prelude.{◌≡◌, ◌<◌, ◌≤◌, ◌+◌, ◌^◌, ℕ, List, [], false, Some, IfNone, IfOk, IfSome, IsTrue, OnOk, length, nat_eq, slice_get, Bool};
ghost use Rattle.at_index.specs.Prelude.{Location, Edge, Seat, AreApart, AreGiven, ArePast, AreSeated, HoldsReach, IsFree, KeepsRuns, Lose, count_of, edges_on, edges_over};
ghost use Rattle.at_index.specs.declared.run.Run.{Run};

use crate::facet::{Facet, small};
use crate::facets::first_facet;
use crate::run::{Reach, Run, Seat};
use crate::tells::{Adding, Tells};
use at_store::{Loc, Node};
use std::alloc::{AllocError, Global};

/// Where the node sits; nowhere where it never sat.
pub fn seat_of(seats: &[Seat], node: Node) -> Seat
    ensures there { nat_eq result.place 0 ≡ false → slice_get seats.now node ≡ Some result }
    ensures is { (s : Seat) → slice_get seats.now node ≡ Some s → s ≡ result }
{
    match seats.get(node.index()) {
        Some(seat) => *seat,
        None => Seat::nowhere(),
    }
}

/// Where the node of the first location sits; nowhere where there is none.
pub fn first_seat(seats: &[Seat], locations: &[Loc]) -> Seat {
    match locations.first() {
        Some(location) => seat_of(seats, location.node()),
        None => Seat::nowhere(),
    }
}

// A seat for the node, where there is none yet: nowhere.
fn make_seat(seats: &mut Vec<Seat>, node: Node) -> Result<(), AllocError>
    ensures there { OnOk result (node < length seats.new.items) }
    ensures apart { AreApart seats.old.items → AreApart seats.new.items }
    ensures given { (runs : List Run) → AreGiven seats.old.items runs → AreGiven seats.new.items runs }
    ensures same { (runs : List Run) (l : Location ℕ) → edges_over seats.new.items runs l ≡ edges_over seats.old.items runs l }
    ensures free { (runs : List Run) → IsFree seats.old.items runs node → IsFree seats.new.items runs node }
    ensures short { length seats.old.items ≤ 2 ^ 32 → length seats.new.items ≤ 2 ^ 32 }
{
    while seats.len() <= node.index() {
        seats.push(Seat::nowhere())?;
    }
    Ok(())
}

// One run more, with no edge.
fn add_run(alloc: Global, runs: &mut Vec<Run>) -> Result<Option<u32>, AllocError>
    ensures keeps { (tells : Edge → Bool) (x : Edge) → KeepsRuns tells x runs.old.items runs.new.items }
    ensures there { IfOk result (λ o. IfSome o (λ run. run < length runs.new.items)) }
{
    let run = small(runs.len())?;
    runs.push(Run {
        count: 0,
        edges: Vec::new(alloc),
    })?;
    Ok(Some(run))
}

// The next place of the run is given, if there is one.
fn give(runs: &mut Vec<Run>, run: u32) -> Option<u32>
    ensures same { (s : Seat) → edges_on runs.new.items s ≡ edges_on runs.old.items s }
    ensures given { (k : ℕ) → count_of runs.old.items k ≤ count_of runs.new.items k }
    ensures past { ArePast runs.old.items → ArePast runs.new.items }
    ensures none { IfNone result (runs.new.items ≡ runs.old.items) }
    ensures next { IfSome result (λ place. (place ≡ count_of runs.old.items run + 1) × (place ≡ count_of runs.new.items run)) }
{
    let found = runs.get_mut(run as usize)?;
    let place = found.count.checked_add(1)?;
    found.count = place;
    Some(place)
}

// The node sits in the next place of the run.
fn sit(
    seats: &mut Vec<Seat>,
    runs: &mut Vec<Run>,
    node: Node,
    run: u32,
    facet: Facet,
) -> Result<(), AllocError>
    requires seated { AreSeated seats.old.items runs.old.items }
    requires free { IsFree seats.old.items runs.old.items node }
    ensures seated { AreSeated seats.new.items runs.new.items }
    ensures same { (l : Location ℕ) → edges_over seats.new.items runs.new.items l ≡ edges_over seats.old.items runs.old.items l }
    ensures short { length seats.old.items ≤ 2 ^ 32 → length seats.new.items ≤ 2 ^ 32 }
{
    make_seat(seats, node)?;
    let Some(place) = give(runs, run) else {
        return Ok(());
    };
    seats[node.index()] = Seat { run, place, facet };
    Ok(())
}

impl<'a, T: Tells> Adding<'a, T> {
    // The edges at the end that tell of nothing go.
    fn trim(&self, edges: &mut Vec<Reach>)
        ensures { HoldsReach (T.tells self.now.teller.now) self.now.edge edges.old.items edges.new.items }
    {
        while let Some(reach) = edges.last() {
            if self.tells_of(&reach.edge) {
                return;
            }
            edges.pop();
        }
    }

    // Whether each edge of the run tells of nothing: then it has none any more.
    fn is_idle(&self, runs: &mut Vec<Run>, run: usize) -> bool
        ensures keeps { KeepsRuns (T.tells self.now.teller.now) self.now.edge runs.old.items runs.new.items }
        ensures idle { IsTrue result → (s : Seat) → s.run ≡ run → edges_on runs.new.items s ≡ [] }
        ensures there { IsTrue result → run < length runs.new.items }
    {
        match runs.get_mut(run) {
            Some(found) => {
                self.trim(&mut found.edges);
                found.edges.is_empty()
            }
            None => false,
        }
    }

    // The run, where each edge of it tells of nothing.
    fn idle_run(&self, runs: &mut Vec<Run>, run: u32) -> Option<u32>
        ensures keeps { KeepsRuns (T.tells self.now.teller.now) self.now.edge runs.old.items runs.new.items }
        ensures there { IfSome result (λ run. run < length runs.new.items) }
    {
        if self.is_idle(runs, run as usize) {
            return Some(run);
        }
        None
    }

    // The last run, if there is one, where each edge of it tells of nothing.
    fn last_idle(&self, runs: &mut Vec<Run>) -> Result<Option<u32>, AllocError>
        ensures keeps { KeepsRuns (T.tells self.now.teller.now) self.now.edge runs.old.items runs.new.items }
        ensures there { IfOk result (λ o. IfSome o (λ run. run < length runs.new.items)) }
    {
        let Some(last) = runs.len().checked_sub(1) else {
            return Ok(None);
        };
        let last = small(last)?;
        Ok(self.idle_run(runs, last))
    }

    // The run that a node comes to sit in which sits there: its own, or, where it sits nowhere, the last one, where these have no edge any
    // more, or one more; none where edges are over it.
    fn run_for(&self, runs: &mut Vec<Run>, seat: Seat) -> Result<Option<u32>, AllocError>
        ensures keeps { KeepsRuns (T.tells self.now.teller.now) self.now.edge runs.old.items runs.new.items }
        ensures there { IfOk result (λ o. IfSome o (λ run. run < length runs.new.items)) }
    {
        if seat.place > 0 {
            return Ok(self.idle_run(runs, seat.run));
        }
        let last = self.last_idle(runs)?;
        if last.is_some() {
            return Ok(last);
        }
        add_run(self.alloc, runs)
    }

    // Whether the node that sits there may sit elsewhere: it sits nowhere, or no edge is over it.
    fn is_free(&self, runs: &mut Vec<Run>, seat: Seat) -> bool
        ensures keeps { KeepsRuns (T.tells self.now.teller.now) self.now.edge runs.old.items runs.new.items }
        ensures free { IsTrue result → edges_on runs.new.items seat ≡ [] }
    {
        seat.place == 0 || self.is_idle(runs, seat.run as usize)
    }

    /// Those that the locations at the front go over come to sit in the run, one behind the other, up to the first one that sits elsewhere.
    pub fn sit_all(
        &self,
        seats: &mut Vec<Seat>,
        runs: &mut Vec<Run>,
        run: u32,
        locations: &[Loc],
    ) -> Result<(), AllocError>
        requires { AreSeated seats.old.items runs.old.items }
        ensures seated { AreSeated seats.new.items runs.new.items }
        ensures holds { Lose (T.tells self.now.teller.now) self.now.edge (edges_over seats.old.items runs.old.items)
            (edges_over seats.new.items runs.new.items) }
        ensures short { length seats.old.items ≤ 2 ^ 32 → length seats.new.items ≤ 2 ^ 32 }
    {
        let mut rest = locations;
        while let Some((location, others)) = rest.split_first() {
            let Ok((facet, left)) = first_facet(*location, others) else {
                return Ok(());
            };
            if !facet.is_of_element() {
                return Ok(());
            }
            let seat = seat_of(seats.as_slice(), location.node());
            if !self.is_free(runs, seat) {
                return Ok(());
            }
            sit(seats, runs, location.node(), run, facet)?;
            rest = left;
        }
        Ok(())
    }

    /// The same in a run for the first of them, if that may sit elsewhere: in its own, where that has no edge any more, or in the last one.
    pub fn sit_anew(
        &self,
        seats: &mut Vec<Seat>,
        runs: &mut Vec<Run>,
        locations: &[Loc],
    ) -> Result<(), AllocError>
        requires { AreSeated seats.old.items runs.old.items }
        ensures seated { AreSeated seats.new.items runs.new.items }
        ensures holds { Lose (T.tells self.now.teller.now) self.now.edge (edges_over seats.old.items runs.old.items)
            (edges_over seats.new.items runs.new.items) }
        ensures short { length seats.old.items ≤ 2 ^ 32 → length seats.new.items ≤ 2 ^ 32 }
    {
        let seat = first_seat(seats.as_slice(), locations);
        match self.run_for(runs, seat)? {
            Some(run) => self.sit_all(seats, runs, run, locations),
            None => Ok(()),
        }
    }
}
