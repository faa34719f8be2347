//! The system of conditions for instances that are solved together.

ghost use Rattle.std.specs.Prelude.{◌≡◌, ◌++◌, [], ◌+◌, ℕ, Bool, Some, IfOk, OnOk, MatchBool, slice_get};
ghost use Rattle.std.specs.Map.{keys_of};
ghost use Rattle.at_solve.specs.Components.{listed_at};
ghost use Rattle.at_search.specs.Solved.{AreClosed, AreShut, HasOpenedAt, HasShut, IsShutAt, is_open_at, value_at};
ghost use Rattle.at_search.specs.Systems.{HasFormed, HasOpened, IsSystem, IsSystemTo};

use crate::conditions::{Conditions, sum};
use crate::ended::{Ended, formed_of};
use at_body::{Inst, Known, Piece};
use at_solve::Condition;
use indexmap::IndexMap;
use std::alloc::{AllocError, Global};

/// Of instances by their positions: the condition that each leaves the value from which it starts, to which of them its formula
/// leads, and whether it is `open`: it is known already, or has no formula, or leads to what isn't known and has no position.
pub struct System {
    conditions: Conditions,
    heads: Vec<Condition>,
    edges: Vec<Vec<usize>>,
    open: Vec<bool>,
}

/// One call, where each exit that lets it go would else have a case for each field.
impl Drop for System {
    fn drop(self) {
        let System {
            conditions: _,
            heads: _,
            edges: _,
            open: _,
        } = self;
    }
}

impl System {
    /// The system of the instances in the map, which start so. An error where memory is wanting.
    pub fn of<K: Known>(
        alloc: Global,
        start: bool,
        ended: &IndexMap<Inst, Ended>,
        known: &K,
        seen: &IndexMap<Inst, ()>,
    ) -> Result<System, AllocError>
        ensures { IfOk result (IsSystem start (K.value_of known.now) ended.now.entries (keys_of seen.now.entries)) }
    {
        let insts = seen.keys().as_slice();
        let mut system = System::new(alloc, start, insts.len());
        for inst in insts {
            system.add(alloc, ended, known, seen, inst)?;
        }
        Ok(system)
    }

    // That of so many instances, none of which stands there yet.
    fn new(alloc: Global, start: bool, count: usize) -> System
        ensures start { result.conditions.start ≡ start }
        ensures count { result.conditions.count ≡ count }
        ensures heads { result.heads.items ≡ [] }
        ensures edges { result.edges.items ≡ [] }
        ensures open { result.open.items ≡ [] }
    {
        System {
            conditions: Conditions::new(alloc, start, count),
            heads: Vec::new(alloc),
            edges: Vec::new(alloc),
            open: Vec::new(alloc),
        }
    }

    // The next instance. An error where memory is wanting.
    fn add<K: Known>(
        &mut self,
        alloc: Global,
        ended: &IndexMap<Inst, Ended>,
        known: &K,
        seen: &IndexMap<Inst, ()>,
        inst: &Inst,
    ) -> Result<(), AllocError>
        ensures { (n : ℕ) (start : Bool) → IsSystemTo n start (K.value_of known.now) ended.now.entries (keys_of seen.now.entries) self.old
            → slice_get (keys_of seen.now.entries) n ≡ Some inst.now
            → OnOk result (IsSystemTo (n + 1) start (K.value_of known.now) ended.now.entries (keys_of seen.now.entries) self.new) }
    {
        if let Some(_) = known.known(inst) {
            return self.add_open(alloc);
        }
        match formed_of(ended, inst) {
            Some(formed) => self.add_formula(alloc, known, seen, formed.formula.pieces()),
            None => self.add_open(alloc),
        }
    }

    // The next instance is open.
    fn add_open(&mut self, alloc: Global) -> Result<(), AllocError>
        ensures { OnOk result (HasOpened self.old self.new) }
    {
        self.heads.push(Condition::Never)?;
        self.edges.push(Vec::new(alloc))?;
        self.open.push(true)?;
        Ok(())
    }

    // The next instance has the formula of these pieces.
    fn add_formula<K: Known>(
        &mut self,
        alloc: Global,
        known: &K,
        seen: &IndexMap<Inst, ()>,
        pieces: &[Piece],
    ) -> Result<(), AllocError>
        ensures { OnOk result (HasFormed (K.value_of known.now) (keys_of seen.now.entries) pieces.now self.old self.new) }
    {
        self.conditions.begin(alloc);
        for piece in pieces {
            self.conditions.add(known, seen, piece)?;
        }
        let head = self.conditions.operand()?;
        let first = sum(self.conditions.count, head)?;
        self.heads.push(Condition::When(first))?;
        self.open.push(self.conditions.is_open)?;
        let targets = self.conditions.take_targets(alloc);
        self.edges.push(targets)?;
        Ok(())
    }

    /// All conditions: that of each instance at its position, and those of their formulas behind. An error where memory is wanting.
    pub fn all_conditions(&self, alloc: Global) -> Result<Vec<Condition>, AllocError>
        ensures { IfOk result (λ all. all.items ≡ self.now.heads.items ++ self.now.conditions.parts.items) }
    {
        let mut all = Vec::new(alloc);
        all.extend_from_slice(self.heads.as_slice())?;
        all.extend_from_slice(self.conditions.parts.as_slice())?;
        Ok(all)
    }

    /// To which positions the formula of each instance leads.
    pub fn edges(&self) -> &[Vec<usize>]
        ensures { result.now ≡ self.now.edges.items }
    {
        self.edges.as_slice()
    }

    /// Whether no member of the group is open, or leads to what is. If one is, they all are from now on: each leads to each.
    pub fn shut(&mut self, group: &[usize]) -> bool
        ensures { HasShut group.now self.old self.new result }
    {
        if self.are_shut(group) {
            return true;
        }
        for member in group {
            self.open_at(*member);
        }
        false
    }

    // It is open, if there is such an instance.
    fn open_at(&mut self, position: usize)
        ensures heads { self.new.heads ≡ self.old.heads }
        ensures edges { self.new.edges ≡ self.old.edges }
        ensures conditions { self.new.conditions ≡ self.old.conditions }
        ensures open { HasOpenedAt position self.old.open.items self.new.open.items }
    {
        if position >= self.open.len() {
            return;
        }
        self.open[position] = true;
    }

    // Whether no member of the group is open, or leads to what is.
    fn are_shut(&self, group: &[usize]) -> bool
        ensures { MatchBool result (AreShut self.now group.now) (AreShut self.now group.now → ⊥) }
    {
        for member in group {
            if !self.is_shut_at(*member) {
                return false;
            }
        }
        true
    }

    // Whether it isn't open, and leads to nothing that is.
    fn is_shut_at(&self, position: usize) -> bool
        ensures { MatchBool result (IsShutAt self.now position) (IsShutAt self.now position → ⊥) }
    {
        if self.is_open(position) {
            return false;
        }
        self.are_closed(targets_of(self.edges.as_slice(), position))
    }

    // Whether none of these is open.
    fn are_closed(&self, targets: &[usize]) -> bool
        ensures { MatchBool result (AreClosed self.now.open.items targets.now) (AreClosed self.now.open.items targets.now → ⊥) }
    {
        for target in targets {
            if self.is_open(*target) {
                return false;
            }
        }
        true
    }

    // Whether it is open; what has no position counts as if it was.
    fn is_open(&self, position: usize) -> bool
        ensures { result ≡ is_open_at self.now.open.items position }
    {
        match self.open.get(position) {
            Some(open) => *open,
            None => true,
        }
    }

    /// The value of the instance at the position, where these are derived.
    pub fn value(&self, derived: &[bool], position: usize) -> bool
        ensures { result ≡ value_at self.now.conditions.start derived.now position }
    {
        let leaves = match derived.get(position) {
            Some(leaves) => *leaves,
            None => false,
        };
        leaves != self.conditions.start
    }
}

// What the one at the position leads to, nothing behind the last.
fn targets_of(edges: &[Vec<usize>], position: usize) -> &[usize]
    ensures { result.now ≡ listed_at edges.now position }
{
    match edges.get(position) {
        Some(list) => list,
        None => &[],
    }
}
