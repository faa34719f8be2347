//! What a class table keeps of each class.
ghost use Rattle.std.specs.Prelude.{◌≡◌, IfOk, length, map};
ghost use Rattle.at_model.specs.Classes.{parts};
ghost use Rattle.at_class.specs.Table.{AreEntries};
ghost use Rattle.at_class.specs.View.{classes_view, part_view};
ghost use Rattle.at_class.specs.Ways.{AreLed};

use crate::chain::{append, append_own, parent_of, whole_parts};
use crate::class::Class;
use crate::part::{ClassId, Part};
use std::alloc::{AllocError, Global};

/// What is kept of a class beside its name. Of its components the first are inherited: as many as its superclass has.
#[derive(Drop)]
pub struct Entry {
    pub is_abstract: bool,
    pub parent: Option<ClassId>,
    pub parts: Vec<Part>,
}

/// What is kept of each class.
pub fn entries_of(alloc: Global, classes: &[Class]) -> Result<Vec<Entry>, AllocError>
    requires { AreLed (classes_view classes.now) }
    ensures { IfOk result (λ v. AreEntries classes.now v.items (length classes.now)) }
{
    let mut entries = Vec::with_capacity(alloc, classes.len())?;
    for (position, class) in classes.iter().enumerate() {
        let parts = parts_by(alloc, classes, &entries, ClassId::new(position))?;
        entries.push(Entry {
            is_abstract: class.is_abstract,
            parent: class.parent,
            parts,
        })?;
    }
    Ok(entries)
}

// All components of the class, by what is kept of the first classes: where its superclass is one of them no other is climbed to.
fn parts_by(
    alloc: Global,
    classes: &[Class],
    entries: &[Entry],
    class: ClassId,
) -> Result<Vec<Part>, AllocError>
    requires { AreLed (classes_view classes.now) × AreEntries classes.now entries.now (length entries.now) }
    ensures { IfOk result (λ v. map part_view v.items ≡ parts (classes_view classes.now) class) }
{
    let Some(superclass) = parent_of(classes, class) else {
        return whole_parts(alloc, classes, class)
    };
    let Some(above) = entries.get(superclass.index()) else {
        return whole_parts(alloc, classes, class)
    };
    let mut parts = Vec::new(alloc);
    append(alloc, &above.parts, &mut parts)?;
    append_own(alloc, classes, class, &mut parts)?;
    Ok(parts)
}
