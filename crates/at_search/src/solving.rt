//! The values of instances whose formulas lead to each other.

ghost use Rattle.std.specs.Prelude.{◌≡◌, ℕ, IfOk, OnOk, map};
ghost use Rattle.std.specs.Map.{keys_of};
ghost use Rattle.at_model.specs.Run.{Contents};
ghost use Rattle.at_model.specs.of_fixpoints.Formulas.{Forms};
ghost use Rattle.at_search.specs.LedTo.{AreClosedIn};
ghost use Rattle.at_search.specs.Recorded.{AreMarksRight};
ghost use Rattle.at_search.specs.Solved.{AreAllTold, AreGroups, AreInOrder, AreRight, AreTold, AreToldOrSpoilt, AreToldOrStopped, HasSolved, solved_at};

use crate::ended::Ended;
use crate::system::System;
use at_body::{Inst, Known};
use at_solve::{components_of, derived};
use indexmap::IndexMap;
use std::alloc::{AllocError, Global};

/// The value of the instance at a position.
#[derive(Clone, Copy)]
pub struct Solved {
    pub position: usize,
    pub value: bool,
}

/// The values of those instances in the map from which formulas lead to formulas alone; all start so. They come in groups: in one,
/// formulas lead from each to each; and what a group's formulas ask for is known, or stands in it or in a group before. Each that is
/// neither told nor known leads to one that has no formula, or asks for what isn't known and isn't in the map; where formulas lead to
/// none but these and what is settled, it is spoilt. An error where memory is wanting.
pub fn solve<K: Known>(
    alloc: Global,
    start: bool,
    ended: &IndexMap<Inst, Ended>,
    known: &K,
    seen: &IndexMap<Inst, ()>,
) -> Result<Vec<Vec<Solved>>, AllocError>
    ensures told { (look : Contents ℕ) (forms : Forms ℕ)
        → AreRight look forms start (K.value_of known.now) ended.now.entries (keys_of seen.now.entries)
        → IfOk result (λ groups. AreTold look forms (keys_of seen.now.entries) groups.items) }
    ensures all { (look : Contents ℕ) (forms : Forms ℕ)
        → AreRight look forms start (K.value_of known.now) ended.now.entries (keys_of seen.now.entries)
        → AreMarksRight look forms (K.value_of known.now) ended.now.entries
        → AreClosedIn (K.value_of known.now) ended.now.entries (keys_of seen.now.entries)
        → IfOk result (λ groups. AreAllTold look forms (K.value_of known.now) (keys_of seen.now.entries) groups.items) }
    ensures each { IfOk result (λ groups. AreToldOrStopped (K.value_of known.now) ended.now.entries (keys_of seen.now.entries) groups.items) }
    ensures rest { AreClosedIn (K.value_of known.now) ended.now.entries (keys_of seen.now.entries)
        → IfOk result (λ groups. AreToldOrSpoilt (K.value_of known.now) ended.now.entries (keys_of seen.now.entries) groups.items) }
    ensures groups { IfOk result (λ groups. AreGroups (K.value_of known.now) ended.now.entries (keys_of seen.now.entries) groups.items) }
    ensures order { IfOk result (λ groups. AreInOrder (K.value_of known.now) ended.now.entries (keys_of seen.now.entries) groups.items) }
{
    let mut system = System::of(alloc, start, ended, known, seen)?;
    let all = system.all_conditions(alloc)?;
    let leave = derived(alloc, all.as_slice())?;
    let groups = components_of(alloc, system.edges())?;
    let mut solved = Vec::new(alloc);
    for group in &groups {
        add_group(
            alloc,
            &mut system,
            leave.as_slice(),
            group.as_slice(),
            &mut solved,
        )?;
    }
    Ok(solved)
}

// The values of a group come behind, if no member is open or leads to what is.
fn add_group(
    alloc: Global,
    system: &mut System,
    leave: &[bool],
    group: &[usize],
    solved: &mut Vec<Vec<Solved>>,
) -> Result<(), AllocError>
    ensures { OnOk result (HasSolved group.now leave.now system.old system.new solved.old.items solved.new.items) }
{
    if !system.shut(group) {
        return Ok(());
    }
    let told = values(alloc, system, leave, group)?;
    solved.push(told)?;
    Ok(())
}

// The values of the members of a group.
fn values(
    alloc: Global,
    system: &System,
    leave: &[bool],
    group: &[usize],
) -> Result<Vec<Solved>, AllocError>
    ensures { IfOk result (λ vs. vs.items ≡ map (solved_at system.now.conditions.start leave.now) group.now) }
{
    let mut values = Vec::new(alloc);
    for position in group {
        values.push(Solved {
            position: *position,
            value: system.value(leave, *position),
        })?;
    }
    Ok(values)
}
