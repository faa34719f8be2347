//! Walks over classes, each of which is met once at most.

use at_class::ClassId;
use std::alloc::{AllocError, Global};

/// The classes that were met, and those of them that wait to be looked at.
#[derive(Drop)]
pub struct Walk {
    met: Vec<bool>,
    pending: Vec<ClassId>,
}

impl Walk {
    ghost use Rattle.std.specs.Prelude.{◌≡◌, false, [], ◌++◌, length, Some, IfNone, IfOk, OnOk, nat_eq, replicate};
    ghost use Rattle.std.specs.List.{list_any};
    ghost use Rattle.std.specs.Option.{option_eq, option_to_list};
    ghost use Rattle.at_complete.specs.Walks.{Meets, MeetsFrom, has_met};

    /// No class of so many is met, or want of memory.
    pub fn new(alloc: Global, count: usize) -> Result<Walk, AllocError>
        ensures met { IfOk result (λ w. w.met.items ≡ replicate count false) }
        ensures pending { IfOk result (λ w. w.pending.items ≡ []) }
    {
        let mut met = Vec::new(alloc);
        met.resize(count, false)?;
        Ok(Walk {
            met,
            pending: Vec::new(alloc),
        })
    }

    /// Of so many classes that one alone is met, or want of memory.
    pub fn from(alloc: Global, count: usize, class: ClassId) -> Result<Walk, AllocError>
        ensures { IfOk result (λ w. Meets (λ c. nat_eq c class) (replicate count false) w.met.items [] w.pending.items) }
    {
        let mut walk = Walk::new(alloc, count)?;
        walk.meet(class)?;
        Ok(walk)
    }

    /// The class is met: it waits, if it wasn't met before. A number that no class has changes nothing.
    pub fn meet(&mut self, class: ClassId) -> Result<(), AllocError>
        ensures { OnOk result (MeetsFrom (λ c. nat_eq c class) self.old self.new) }
    {
        let place = class.index();
        if place >= self.met.len() {
            return Ok(());
        }
        if self.met[place] {
            return Ok(());
        }
        self.pending.push(class)?;
        self.met[place] = true;
        Ok(())
    }

    /// The class is met, if there is one.
    pub fn meet_some(&mut self, class: Option<ClassId>) -> Result<(), AllocError>
        ensures { OnOk result (MeetsFrom (λ c. option_eq nat_eq (Some c) class) self.old self.new) }
    {
        let Some(class) = class else { return Ok(()) };
        self.meet(class)?;
        Ok(())
    }

    /// All of these are met.
    pub fn meet_all(&mut self, classes: &[ClassId]) -> Result<(), AllocError>
        ensures { OnOk result (MeetsFrom (λ c. list_any (nat_eq c) classes.now) self.old self.new) }
    {
        for class in classes {
            self.meet(*class)?;
        }
        Ok(())
    }

    /// A class that waits, which then waits no more.
    pub fn next_pending(&mut self) -> Option<ClassId>
        ensures met { self.new.met.items ≡ self.old.met.items }
        ensures pending { self.old.pending.items ≡ self.new.pending.items ++ option_to_list result }
        ensures none { IfNone result (length self.old.pending.items ≡ 0) }
    {
        self.pending.pop()
    }

    /// Whether the class was met.
    pub fn has_met(&self, class: ClassId) -> bool
        ensures { result ≡ has_met self.now.met.items class }
    {
        let place = class.index();
        place < self.met.len() && self.met[place]
    }
}
