//! The short names of lists.

ghost use Rattle.std.specs.Prelude.{◌≡◌, ◌∷◌, ◌++◌, [], filter_map, map, IfOk, OnOk};
ghost use Rattle.at_class.specs.View.{part_view, shape_view};
ghost use Rattle.at_kinds.specs.Accessors.{is_accessed, is_list};
ghost use Rattle.at_start.specs.Lists.{alias, alias_of, aliases, aliases_in};

use crate::language::Language;
use at_class::{ClassId, ClassTable, Part, PartShape};
use at_java::Alias;
use at_kinds::accessors::accessor_named;
use std::alloc::{AllocError, Global};

/// The short names of lists that are read in the language; or want of memory.
pub fn aliases_in(
    alloc: Global,
    language: Language,
    classes: &ClassTable,
) -> Result<Vec<Alias>, AllocError>
    ensures { IfOk result (λ v. v.items ≡ aliases_in language classes.now) }
{
    match language {
        Language::Profile(_) => Ok(Vec::new(alloc)),
        Language::JastAdd => aliases(alloc, classes),
    }
}

/// The short names of the lists of all classes; or want of memory.
fn aliases(alloc: Global, classes: &ClassTable) -> Result<Vec<Alias>, AllocError>
    ensures { IfOk result (λ v. v.items ≡ aliases classes.now) }
{
    let mut all = Vec::new(alloc);
    for class in 0..classes.len() {
        append_aliases(alloc, classes, classes.parts(ClassId::new(class)), &mut all)?;
    }
    Ok(all)
}

/// Adds those of these components.
fn append_aliases(
    alloc: Global,
    classes: &ClassTable,
    parts: &[Part],
    all: &mut Vec<Alias>,
) -> Result<(), AllocError>
    ensures { OnOk result (all.new.items ≡ all.old.items ++ filter_map (alias_of classes.now) (map part_view parts.now)) }
{
    for part in parts {
        append_alias(alloc, classes, part, all)?;
    }
    Ok(())
}

/// Adds that of the component, if it has one.
fn append_alias(
    alloc: Global,
    classes: &ClassTable,
    part: &Part,
    all: &mut Vec<Alias>,
) -> Result<(), AllocError>
    ensures { OnOk result (all.new.items ≡ all.old.items ++ filter_map (alias_of classes.now) (part_view part.now ∷ [])) }
{
    if let Some(alias) = alias_of(alloc, classes, part)? {
        all.push(alias)?;
    }
    Ok(())
}

/// The short name of the component, if it is a list and no accessor has that name.
fn alias_of(alloc: Global, classes: &ClassTable, part: &Part) -> Result<Option<Alias>, AllocError>
    ensures { IfOk result (λ o. o ≡ alias_of classes.now (part_view part.now)) }
{
    if !is_list(part.shape) {
        return Ok(None);
    }
    let alias = alias(alloc, part.name.as_str())?;
    if is_accessed(classes, alias.name()) {
        return Ok(None);
    }
    Ok(Some(alias))
}

fn is_list(shape: PartShape) -> bool
    ensures { result ≡ is_list (shape_view shape) }
{
    matches!(shape, PartShape::Many(_))
}

/// The short name of the list of that name.
fn alias(alloc: Global, list: &str) -> Result<Alias, AllocError>
    ensures { IfOk result (λ a. a ≡ alias list.now) }
{
    let name = format!(in alloc; "get{list}s")?;
    let meant = format!(in alloc; "get{list}List")?;
    Ok(Alias::new(name, meant))
}

/// Whether a class has an accessor of that name.
pub fn is_accessed(classes: &ClassTable, name: &str) -> bool
    ensures { result ≡ is_accessed classes.now name.now }
{
    for class in 0..classes.len() {
        if accessor_named(classes, ClassId::new(class), name).is_some() {
            return true;
        }
    }
    false
}
