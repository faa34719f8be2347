//! Ways up from class to superclass, and the components on them.
ghost use Rattle.std.specs.Prelude.{◌≡◌, ◌++◌, IfOk, OnOk, length, map};
ghost use Rattle.at_model.specs.Classes.{chain_within, parent_of, own_of, parts};
ghost use Rattle.at_class.specs.View.{classes_view, part_view};

use crate::class::Class;
use crate::part::{ClassId, Part};
use std::alloc::{AllocError, Global};

/// The superclass, where there is one.
pub fn parent_of(classes: &[Class], class: ClassId) -> Option<ClassId>
    ensures { result ≡ parent_of (classes_view classes.now) class }
{
    classes.get(class.index())?.parent
}

/// The classes on the way up from the class `from`.
pub fn lineage(
    alloc: Global,
    classes: &[Class],
    from: Option<ClassId>,
) -> Result<Vec<ClassId>, AllocError>
    ensures { IfOk result (λ v. v.items ≡ chain_within (length classes.now) (classes_view classes.now) from) }
{
    let mut met = Vec::new(alloc);
    let mut next = from;
    for step in 0..classes.len() {
        let Some(class) = next else { return Ok(met) };
        met.push(class)?;
        next = parent_of(classes, class);
    }
    Ok(met)
}

/// All components of the class: those of its superclass, and then its own.
pub fn whole_parts(
    alloc: Global,
    classes: &[Class],
    class: ClassId,
) -> Result<Vec<Part>, AllocError>
    ensures { IfOk result (λ v. map part_view v.items ≡ parts (classes_view classes.now) class) }
{
    let mut way = lineage(alloc, classes, Some(class))?;
    let mut parts = Vec::new(alloc);
    while let Some(above) = way.pop() {
        append_own(alloc, classes, above, &mut parts)?;
    }
    Ok(parts)
}

/// Puts copies of the components that the class adds behind the others.
pub fn append_own(
    alloc: Global,
    classes: &[Class],
    class: ClassId,
    parts: &mut Vec<Part>,
) -> Result<(), AllocError>
    ensures { OnOk result (map part_view parts.new.items ≡ map part_view parts.old.items ++ own_of (classes_view classes.now) class) }
{
    append(alloc, own_parts(classes, class), parts)
}

/// Puts copies of components behind the others.
pub fn append(alloc: Global, more: &[Part], parts: &mut Vec<Part>) -> Result<(), AllocError>
    ensures { OnOk result (map part_view parts.new.items ≡ map part_view parts.old.items ++ map part_view more.now) }
{
    for part in more {
        parts.push(part.copied(alloc)?)?;
    }
    Ok(())
}

/// The components that the class adds to the inherited ones.
pub fn own_parts(classes: &[Class], class: ClassId) -> &[Part]
    ensures { map part_view result.now ≡ own_of (classes_view classes.now) class }
{
    match classes.get(class.index()) {
        None => &[],
        Some(declared) => &declared.own,
    }
}
