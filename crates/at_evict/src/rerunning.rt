//! Edges of runs that tell of entries which are folded tell of those into which they are.

ghost use Rattle.std.specs.Prelude.{◌≡◌, ◌∷◌, [], List, IfOk, OnOk};
ghost use Rattle.at_evict.specs.Prelude.{list_any, into_of, is_told, refolds, memory_of};
ghost use Rattle.at_index.specs.declared.run.Seat.{Seat};
ghost use Rattle.at_evict.specs.Rerunning.{AreRerun, Covers, GoNoFurther, Reaches, is_as_wide, targets_of};
ghost use Rattle.at_index.specs.Runs.{AreSeated, edges_on};

use crate::folding::{NEAR, slots_at};
use crate::refolding::Refolding;
use at_index::edge::{Edge, Slot};
use at_index::run::{Reach, Run};
use std::alloc::AllocError;

// Whether the one tells of the same entry as the other one, over that part of the run or more.
fn is_as_wide(one: &Reach, other: &Reach) -> bool
    ensures { result ≡ is_as_wide one.now other.now }
{
    one.edge.is_same(&other.edge) && !(other.behind < one.behind) && !(one.last < other.last)
}

// Whether one of these tells of the same, over that part of the run or more.
fn is_over(edges: &[Reach], reach: &Reach) -> bool
    ensures { result ≡ list_any (λ q. is_as_wide q reach.now) edges.now }
{
    for other in edges {
        if is_as_wide(other, reach) {
            return true;
        }
    }
    false
}

// One more edge, where none of the last ones tells the same.
fn add_near(edges: &mut Vec<Reach>, reach: Reach) -> Result<(), AllocError>
    ensures { OnOk result (Covers reach edges.old.items edges.new.items) }
{
    let last = edges
        .as_slice()
        .split_at(edges.len().saturating_sub(NEAR))
        .1;
    if is_over(last, &reach) {
        return Ok(());
    }
    edges.push(reach)?;
    Ok(())
}

impl<'a> Refolding<'a> {
    // Into which the entry is folded that the edge tells of; none where it tells of no entry.
    fn targets_of(&self, edge: &Edge) -> &[Slot]
        ensures { result.now ≡ targets_of (is_told self.now) (into_of self.now) edge.now }
    {
        if !self.entries.is_current(edge) {
            return &[];
        }
        slots_at(self.plan, edge.slot)
    }

    // One more edge over that part of the run, to the entry in the slot, if there is one.
    fn add_to(&self, edges: &mut Vec<Reach>, slot: Slot, reach: &Reach) -> Result<(), AllocError>
        ensures { OnOk result (Reaches (memory_of self.now.entries.now) (slot ∷ []) reach.now edges.old.items edges.new.items) }
    {
        match self.entries.pair(slot) {
            Some((_, entry)) => {
                let edge = Edge {
                    slot,
                    stamp: entry.stamp,
                };
                add_near(edges, Reach { edge, ..*reach })
            }
            None => Ok(()),
        }
    }

    // One more edge over that part of the run to each of those into which the entry is folded.
    fn rerun_edge(&self, edges: &mut Vec<Reach>, reach: &Reach) -> Result<(), AllocError>
        ensures { OnOk result (Reaches (memory_of self.now.entries.now) (targets_of (is_told self.now) (into_of self.now) reach.now.edge)
            reach.now edges.old.items edges.new.items) }
    {
        let targets = self.targets_of(&reach.edge);
        for slot in targets {
            self.add_to(edges, *slot, reach)?;
        }
        Ok(())
    }

    // The edges in the place of these.
    fn rerun_edges(&self, edges: &[Reach]) -> Result<Vec<Reach>, AllocError>
        ensures { IfOk result (λ made. AreRerun (memory_of self.now.entries.now) (into_of self.now) edges.now made.items) }
    {
        let mut made = Vec::with_capacity(self.alloc, edges.len())?;
        for reach in edges {
            self.rerun_edge(&mut made, reach)?;
        }
        Ok(made)
    }

    // The edges of the run tell of those into which the entries are folded of which they told.
    fn rerun_one(&self, run: &mut Run) -> Result<(), AllocError>
        ensures edges { OnOk result (AreRerun (memory_of self.now.entries.now) (into_of self.now) run.old.edges.items run.new.edges.items) }
        ensures further { GoNoFurther run.old.edges.items run.new.edges.items }
        ensures count { run.new.count ≡ run.old.count }
    {
        let made = self.rerun_edges(run.edges.as_slice())?;
        run.edges = made;
        Ok(())
    }

    /// So do those of all runs. An error where memory is wanting.
    pub fn rerun(&self, runs: &mut Vec<Run>) -> Result<(), AllocError>
        ensures edges { OnOk result ((s : Seat) → refolds self.now (edges_on runs.old.items s) (edges_on runs.new.items s)) }
        ensures seated { (seats : List Seat) → AreSeated seats runs.old.items → AreSeated seats runs.new.items }
    {
        for number in 0..runs.len() {
            let run = &mut runs[number];
            self.rerun_one(run)?;
        }
        Ok(())
    }
}
