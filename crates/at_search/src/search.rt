//! Searches, depth first, over the instances of formulas.

ghost use Rattle.std.specs.Prelude.{◌≡◌, ◌++◌, ◌∷◌, [], None, IfNone, IfOk, IfSome, MatchBool, OnOk, is_some};
ghost use Rattle.at_model.specs.Meaning.{Among};
ghost use Rattle.at_model.specs.of_fixpoints.Searching.{asked_in};
ghost use Rattle.at_search.specs.Recorded.{HasMetFirst, HasMetIn, end_of, seen_by, todo_of};

use crate::ended::{Ending, Fault, add_atoms};
use crate::keys::{holds, put};
use at_body::Inst;
use indexmap::IndexMap;
use std::alloc::{AllocError, Global};
use std::mem;

/// A search, depth first, over the instances of formulas, from the root, which is strictly demanded. The equations of those that were
/// `seen` have ended, each formula's instances stand among them or are `todo`, but for those that are known; the next one stands last
/// there. The `fault` is the first one that was met.
pub struct Search {
    pub root: Inst,
    pub todo: Vec<Inst>,
    pub seen: IndexMap<Inst, ()>,
    pub fault: Option<Fault>,
}

/// One call, where each exit that lets it go would else have a case for each field.
impl Drop for Search {
    fn drop(self) {
        let Search {
            root: _,
            todo: _,
            seen: _,
            fault: _,
        } = self;
    }
}

impl Search {
    /// A search that has seen nothing, and has nothing to do: the equation of its root is tried.
    pub fn new(alloc: Global, root: Inst) -> Search
        ensures root { result.root ≡ root }
        ensures seen { seen_by result ≡ [] }
        ensures todo { todo_of result ≡ [] }
        ensures fault { result.fault ≡ None }
    {
        Search {
            root,
            todo: Vec::new(alloc),
            seen: IndexMap::new(alloc),
            fault: None,
        }
    }

    /// A search that has its root to do. An error where memory is wanting.
    pub fn from(alloc: Global, root: &Inst) -> Result<Search, AllocError>
        ensures root { IfOk result (λ s. s.root ≡ root.now) }
        ensures seen { IfOk result (λ s. seen_by s ≡ []) }
        ensures todo { IfOk result (λ s. todo_of s ≡ root.now ∷ []) }
        ensures fault { IfOk result (λ s. s.fault ≡ None) }
    {
        let mut search = Search::new(alloc, root.copy(alloc)?);
        search.todo.push(root.copy(alloc)?)?;
        Ok(search)
    }

    /// The next one to do, taken off.
    pub fn next(&mut self) -> Option<Inst>
        ensures root { self.new.root ≡ self.old.root }
        ensures seen { self.new.seen ≡ self.old.seen }
        ensures fault { self.new.fault ≡ self.old.fault }
        ensures some { IfSome result (λ i. todo_of self.old ≡ i ∷ todo_of self.new) }
        ensures none { IfNone result (todo_of self.old ≡ []) }
        ensures left { IfNone result (todo_of self.new ≡ []) }
    {
        self.todo.pop()
    }

    /// Whether the search has seen the instance.
    pub fn has_seen(&self, inst: &Inst) -> bool
        ensures { MatchBool result (Among inst.now (seen_by self.now)) (Among inst.now (seen_by self.now) → ⊥) }
    {
        holds(&self.seen, inst)
    }

    /// Sees an instance whose equation ended so: the instances of its formula are to be looked at next, in front of those to do; a
    /// fault is met, perhaps as the first one. An error where memory is wanting.
    pub fn see(&mut self, alloc: Global, inst: Inst, ending: &Ending) -> Result<(), AllocError>
        requires fresh { Among inst (seen_by self.old) → ⊥ }
        ensures root { self.new.root ≡ self.old.root }
        ensures seen { OnOk result (seen_by self.new ≡ inst ∷ seen_by self.old) }
        ensures todo { OnOk result (todo_of self.new ≡ asked_in (end_of ending.now) ++ todo_of self.old) }
        ensures fault { OnOk result (HasMetIn ending.now self.old.fault self.new.fault) }
    {
        self.lead(alloc, ending)?;
        put(&mut self.seen, inst, ())
    }

    // The instances of the formula are to be looked at next, in front of those to do; or the fault is met.
    fn lead(&mut self, alloc: Global, ending: &Ending) -> Result<(), AllocError>
        ensures root { self.new.root ≡ self.old.root }
        ensures seen { self.new.seen ≡ self.old.seen }
        ensures todo { OnOk result (todo_of self.new ≡ asked_in (end_of ending.now) ++ todo_of self.old) }
        ensures fault { OnOk result (HasMetIn ending.now self.old.fault self.new.fault) }
    {
        match ending {
            Ending::Formed(formed) => add_atoms(alloc, formed.formula.pieces(), &mut self.todo),
            Ending::Spoilt(fault) => self.meet(alloc, fault),
        }
    }

    // The fault was met, perhaps as the first one.
    fn meet(&mut self, alloc: Global, fault: &Fault) -> Result<(), AllocError>
        ensures root { self.new.root ≡ self.old.root }
        ensures seen { self.new.seen ≡ self.old.seen }
        ensures todo { self.new.todo ≡ self.old.todo }
        ensures fault { OnOk result (HasMetFirst fault.now self.old.fault self.new.fault) }
    {
        if self.fault.is_none() {
            self.fault = Some(fault.copy(alloc)?);
        }
        Ok(())
    }

    /// Whether a fault was met.
    pub fn has_fault(&self) -> bool
        ensures { result ≡ is_some self.now.fault }
    {
        self.fault.is_some()
    }

    /// The fault that was met first, taken out.
    pub fn take_fault(&mut self) -> Option<Fault>
        ensures fault { result ≡ self.old.fault }
        ensures none { self.new.fault ≡ None }
        ensures root { self.new.root ≡ self.old.root }
        ensures seen { self.new.seen ≡ self.old.seen }
        ensures todo { self.new.todo ≡ self.old.todo }
    {
        mem::replace(&mut self.fault, None)
    }

    /// What was seen, taken out.
    pub fn take_seen(&mut self, alloc: Global) -> IndexMap<Inst, ()>
        ensures seen { result ≡ self.old.seen }
        ensures none { seen_by self.new ≡ [] }
        ensures root { self.new.root ≡ self.old.root }
        ensures todo { self.new.todo ≡ self.old.todo }
        ensures fault { self.new.fault ≡ self.old.fault }
    {
        mem::replace(&mut self.seen, IndexMap::new(alloc))
    }

    /// What was strictly demanded.
    pub fn into_root(self) -> Inst
        ensures { result ≡ self.root }
    {
        let Search {
            root,
            todo: _,
            seen: _,
            fault: _,
        } = self;
        root
    }
}
