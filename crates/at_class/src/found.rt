//! What is found of the classes that the checks ask for. Each class is looked at once.
use crate::class::Class;
use crate::descent::downward;
use crate::part::ClassId;
use crate::way::Way;
use std::alloc::{AllocError, Global};

/// What is found of a class.
#[derive(Clone, Copy)]
pub struct Found {
    /// The first of its own components that is taken by one before it, or by what every tree has.
    pub twice: Option<usize>,
    /// How many components more it would have if it had one too many; 0 if it has too many.
    pub room: usize,
}

/// What is found of the classes that were looked at.
pub struct Inspection {
    way: Way,
    found: Vec<Option<Found>>,
}

/// One call, where each exit that lets it go would else have a case for each collection.
impl Drop for Inspection {
    fn drop(self) {
        let Inspection { way: _, found: _ } = self;
    }
}

impl Inspection {
    ghost use Rattle.std.specs.Prelude.{◌≡◌, IfOk, OnOk};
    ghost use Rattle.at_model.specs.Classes.{Classes};
    ghost use Rattle.at_class.specs.View.{classes_view};
    ghost use Rattle.at_class.specs.Ways.{AreLed, IsFound, Knows, known_at};

    fn new(alloc: Global, count: usize) -> Result<Inspection, AllocError>
        ensures { IfOk result (λ k. (classes : Classes) → Knows classes k.way k.found.items) }
    {
        let found = unknown(alloc, count)?;
        Ok(Inspection {
            way: Way::new(alloc),
            found,
        })
    }

    // What is found of the class.
    fn of(&mut self, alloc: Global, classes: &[Class], class: ClassId) -> Result<Found, AllocError>
        requires { AreLed (classes_view classes.now) × Knows (classes_view classes.now) self.now.way self.now.found.items }
        ensures { IfOk result (λ found. IsFound (classes_view classes.now) class found × Knows (classes_view classes.now) self.new.way self.new.found.items) }
    {
        if let Some(found) = self.known(class) {
            return Ok(found);
        }
        let found = self.way.go_to(alloc, classes, class)?;
        keep(&mut self.found, class, found);
        Ok(found)
    }

    fn known(&self, class: ClassId) -> Option<Found>
        ensures { result ≡ known_at self.now.found.items class }
    {
        match self.found.get(class.index()) {
            Some(found) => *found,
            None => None,
        }
    }

    // Looks at all classes. The order makes it short, and changes nothing of what is found.
    fn go_over(&mut self, alloc: Global, classes: &[Class]) -> Result<(), AllocError>
        requires { AreLed (classes_view classes.now) × Knows (classes_view classes.now) self.now.way self.now.found.items }
        ensures { OnOk result (Knows (classes_view classes.now) self.new.way self.new.found.items) }
    {
        let order = downward(alloc, classes)?;
        for class in &order {
            self.of(alloc, classes, *class)?;
        }
        Ok(())
    }
}

ghost use Rattle.std.specs.Prelude.{◌≡◌, IfOk, None, Some, length, replicate, set};
ghost use Rattle.at_class.specs.View.{classes_view};
ghost use Rattle.at_class.specs.Ways.{AreLed, AreFound};

fn unknown(alloc: Global, count: usize) -> Result<Vec<Option<Found>>, AllocError>
    ensures { IfOk result (λ v. v.items ≡ replicate count None) }
{
    let mut found = Vec::new(alloc);
    found.resize(count, None)?;
    Ok(found)
}

fn keep(known: &mut Vec<Option<Found>>, class: ClassId, found: Found)
    ensures { known.new.items ≡ set known.old.items class (Some found) }
{
    if class.index() < known.len() {
        known[class.index()] = Some(found);
    }
}

/// What is found of each class.
pub fn found_of_all(alloc: Global, classes: &[Class]) -> Result<Vec<Found>, AllocError>
    requires { AreLed (classes_view classes.now) }
    ensures { IfOk result (λ v. AreFound (classes_view classes.now) v.items (length classes.now)) }
{
    let mut inspection = Inspection::new(alloc, classes.len())?;
    inspection.go_over(alloc, classes)?;
    let mut all = Vec::new(alloc);
    for position in 0..classes.len() {
        let found = inspection.of(alloc, classes, ClassId::new(position))?;
        all.push(found)?;
    }
    Ok(all)
}
