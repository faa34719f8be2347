//! Ways down through the classes, and what the components on them take.
use crate::chain::{lineage, own_parts, parent_of};
use crate::class::Class;
use crate::found::Found;
use crate::part::ClassId;
use crate::taken::TakenNames;
use std::alloc::{AllocError, Global};

// How many components there are at least in a class that has too many.
const TOO_MANY: usize = 33;

/// A class on a way: how many names were taken before it, and how many components are wanting, with its own, before there are too
/// many.
#[derive(Clone, Copy)]
pub struct Level {
    class: ClassId,
    names: usize,
    accessors: usize,
    room: usize,
}

/// The way down to a class from the highest above it, and the names that the components on it take.
pub struct Way {
    levels: Vec<Level>,
    taken: TakenNames,
}

/// One call, where each exit that lets it go would else have a case for each collection.
impl Drop for Way {
    fn drop(self) {
        let Way {
            levels: _,
            taken: _,
        } = self;
    }
}

impl Way {
    ghost use Rattle.std.specs.Prelude.{◌≡◌, ◌-◌, ◌++◌, ◌∷◌, [], ◌⊎◌, IfOk, length, nat_eq, suc};
    ghost use Rattle.std.specs.Option.{option_eq};
    ghost use Rattle.at_model.specs.Classes.{Classes, parent_of};
    ghost use Rattle.at_model.specs.Declarations.{above as above_of, max_parts};
    ghost use Rattle.at_class.specs.View.{classes_view};
    ghost use Rattle.at_class.specs.Ways.{AreLed, IsFound, IsWay, all_of, on_way, top_of};

    /// The way to no class.
    pub fn new(alloc: Global) -> Way
        ensures { (classes : Classes) → IsWay classes result.levels.items result.taken }
    {
        Way {
            levels: Vec::new(alloc),
            taken: TakenNames::new(alloc),
        }
    }

    /// Goes to the class, from wherever this is, and tells what is found there.
    pub fn go_to(
        &mut self,
        alloc: Global,
        classes: &[Class],
        class: ClassId,
    ) -> Result<Found, AllocError>
        requires { AreLed (classes_view classes.now) × IsWay (classes_view classes.now) self.now.levels.items self.now.taken }
        ensures { IfOk result (λ found. IsFound (classes_view classes.now) class found
            × IsWay (classes_view classes.now) self.new.levels.items self.new.taken) }
    {
        self.leave_to(classes, class);
        let mut missing = self.missing(alloc, classes, class)?;
        while let Some(above) = missing.pop() {
            self.enter(alloc, classes, above)?;
        }
        self.enter(alloc, classes, class)
    }

    // Goes up until the way is that to the class's superclass, or none.
    fn leave_to(&mut self, classes: &[Class], class: ClassId)
        ensures { AreLed (classes_view classes.now) → IsWay (classes_view classes.now) self.old.levels.items self.old.taken
            → IsWay (classes_view classes.now) self.new.levels.items self.new.taken
            × ((top_of self.new.levels.items ≡ parent_of (classes_view classes.now) class) ⊎ (self.new.levels.items ≡ [])) }
    {
        while !self.is_above(classes, class) {
            let Some(level) = self.levels.pop() else {
                return
            };
            self.taken.cut(level.names, level.accessors);
        }
    }

    // Whether the way is that to the class's superclass, or none where there is none.
    fn is_above(&self, classes: &[Class], class: ClassId) -> bool
        ensures { result ≡ option_eq nat_eq (top_of self.now.levels.items) (parent_of (classes_view classes.now) class) }
    {
        self.top() == parent_of(classes, class)
    }

    // The class to which the way goes.
    fn top(&self) -> Option<ClassId>
        ensures { result ≡ top_of self.now.levels.items }
    {
        Some(self.levels.last()?.class)
    }

    // The classes above the class that aren't on the way, the lowest first.
    fn missing(
        &self,
        alloc: Global,
        classes: &[Class],
        class: ClassId,
    ) -> Result<Vec<ClassId>, AllocError>
        ensures { IfOk result (λ v. IsWay (classes_view classes.now) self.now.levels.items self.now.taken
            → (top_of self.now.levels.items ≡ parent_of (classes_view classes.now) class) ⊎ (self.now.levels.items ≡ [])
            → above_of (classes_view classes.now) class ≡ v.items ++ on_way self.now.levels.items) }
    {
        if self.is_above(classes, class) {
            return Ok(Vec::new(alloc));
        }
        lineage(alloc, classes, parent_of(classes, class))
    }

    // How many components are wanting before there are too many.
    fn room(&self) -> usize
        ensures { (classes : Classes) → IsWay classes self.now.levels.items self.now.taken
            → result ≡ suc max_parts - length (all_of classes (on_way self.now.levels.items)) }
    {
        match self.levels.last() {
            None => TOO_MANY,
            Some(level) => level.room,
        }
    }

    // Goes down to the class from its superclass.
    fn enter(
        &mut self,
        alloc: Global,
        classes: &[Class],
        class: ClassId,
    ) -> Result<Found, AllocError>
        requires { AreLed (classes_view classes.now) × IsWay (classes_view classes.now) self.now.levels.items self.now.taken
            × (on_way self.now.levels.items ≡ above_of (classes_view classes.now) class) }
        ensures { IfOk result (λ found. IsFound (classes_view classes.now) class found × IsWay (classes_view classes.now) self.new.levels.items self.new.taken
            × (on_way self.new.levels.items ≡ class ∷ on_way self.old.levels.items)) }
    {
        let own = own_parts(classes, class);
        let room = self.room().saturating_sub(own.len());
        let (names, accessors) = self.taken.counts();
        self.levels.push(Level {
            class,
            names,
            accessors,
            room,
        })?;
        let twice = self.taken.take_all(alloc, own)?;
        Ok(Found { twice, room })
    }
}
