//! The classes below others, and what holds of classes by whatever number.

ghost use Rattle.std.specs.Prelude.{◌≡◌};
ghost use Rattle.at_model.specs.Classes.{is_concrete};

use at_class::{ClassId, ClassTable};
use std::alloc::{AllocError, Global};

/// Whether the class is there and not abstract.
pub fn is_concrete(classes: &ClassTable, class: ClassId) -> bool
    ensures { result ≡ is_concrete classes.now class }
{
    if class.index() < classes.len() {
        !classes.is_abstract(class)
    } else {
        false
    }
}

/// For each class those directly below it.
#[derive(Drop)]
pub struct Hierarchy {
    below: Vec<Vec<ClassId>>,
}

impl Hierarchy {
    ghost use Rattle.std.specs.Prelude.{◌≡◌, IfOk};
    ghost use Rattle.at_complete.specs.Hierarchies.{IsHierarchy, listed_at};

    /// The classes directly below each class, or want of memory.
    pub fn of(alloc: Global, classes: &ClassTable) -> Result<Hierarchy, AllocError>
        ensures { IfOk result (IsHierarchy classes.now) }
    {
        let count = classes.len();
        let mut below = empty_lists(alloc, count)?;
        for position in 0..count {
            let class = ClassId::new(position);
            list_below(classes.parent(class), class, &mut below)?;
        }
        Ok(Hierarchy { below })
    }

    /// The classes directly below the class.
    pub fn below(&self, class: ClassId) -> &[ClassId]
        ensures { result.now ≡ listed_at self.now.below.items class }
    {
        match self.below.get(class.index()) {
            Some(below) => below,
            None => &[],
        }
    }
}

ghost use Rattle.std.specs.Prelude.{ℕ, ◌<◌, ◌||◌, ◌&&◌, [], length, nat_eq, Some, IfOk, IfSome, OnOk};
ghost use Rattle.std.specs.List.{list_any};
ghost use Rattle.std.specs.Option.{option_eq};
ghost use Rattle.at_complete.specs.Hierarchies.{listed_at};

/// So many empty lists.
fn empty_lists(alloc: Global, count: usize) -> Result<Vec<Vec<ClassId>>, AllocError>
    ensures count { IfOk result (λ v. length v.items ≡ count) }
    ensures empty { IfOk result (λ v. (c : ℕ) → listed_at v.items c ≡ []) }
{
    let mut lists: Vec<Vec<ClassId>> = Vec::new(alloc);
    for position in 0..count {
        lists.push(Vec::new(alloc))?;
    }
    Ok(lists)
}

/// Puts the class into the list of its superclass, if it has one.
fn list_below(
    parent: Option<ClassId>,
    class: ClassId,
    below: &mut Vec<Vec<ClassId>>,
) -> Result<(), AllocError>
    requires { IfSome parent (λ p. p < length below.now.items) }
    ensures count { OnOk result (length below.new.items ≡ length below.old.items) }
    ensures listed { OnOk result ((c d : ℕ) → list_any (nat_eq d) (listed_at below.new.items c)
        ≡ (list_any (nat_eq d) (listed_at below.old.items c) || (option_eq nat_eq (Some c) parent && nat_eq d class))) }
{
    let Some(parent) = parent else { return Ok(()) };
    below[parent.index()].push(class)?;
    Ok(())
}
