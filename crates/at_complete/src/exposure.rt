//! Classes that may stand where no class above has an equation for an inherited attribute.

ghost use Rattle.std.specs.Prelude.{◌≡◌, ℕ, ◌<◌, true, false, [], length, map, option_map, option_and_then, slice_get, is_some, replicate, None, Some, IfOk, OnOk, if◌then◌else◌};
ghost use Rattle.at_class.specs.View.{part_view};
ghost use Rattle.at_model.specs.Classes.{AreSound, class_in, parts};
ghost use Rattle.at_model.specs.Rules.{attribute_name};
ghost use Rattle.at_complete.specs.Completing.{leads, is_passed, passed, is_met_concrete, is_among, walk_for, IsExposedBelow, IsExposedWalk, IsFirst, IsMarking, LacksInherited, MeetExposed, Tells};
ghost use Rattle.at_complete.specs.Hierarchies.{IsHierarchy};
ghost use Rattle.at_complete.specs.Walks.{has_met, Meets, MeetsFrom};

use crate::hierarchy::{Hierarchy, is_concrete};
use crate::walk::Walk;
use at_class::{ClassId, ClassTable, Part};
use at_rules::{AttrId, Rules};
use indexmap::IndexMap;
use std::alloc::{AllocError, Global};

/// The first inherited attribute that an exposed class has: one of which a tree may stand where no class above
/// has an equation for it; or want of memory.
pub fn inherited_without_equation(
    alloc: Global,
    rules: &Rules,
) -> Result<Option<AttrId>, AllocError>
    ensures { IfOk result (IsFirst (LacksInherited rules.now)) }
{
    let hierarchy = Hierarchy::of(alloc, rules.classes())?;
    // For each name, which classes are exposed, or above one that is.
    let mut exposed: IndexMap<&str, Walk> = IndexMap::new(alloc);
    let count = rules.len();
    for position in 0..count {
        let attribute = AttrId::new(position);
        let lacks = is_exposed(alloc, rules, &hierarchy, attribute, &mut exposed)?;
        if lacks {
            return Ok(Some(attribute));
        }
    }
    Ok(None)
}

/// Whether the attribute is inherited, and a class that fits its class is exposed for it.
fn is_exposed<'a>(
    alloc: Global,
    rules: &'a Rules,
    hierarchy: &Hierarchy,
    attribute: AttrId,
    exposed: &mut IndexMap<&'a str, Walk>,
) -> Result<bool, AllocError>
    requires { IsHierarchy rules.now.classes hierarchy.now × MeetExposed rules.now exposed.now }
    ensures { IfOk result (λ lacks. MeetExposed rules.now exposed.new × Tells lacks (LacksInherited rules.now attribute)) }
{
    if !rules.is_inherited(attribute) {
        return Ok(false);
    }
    note_exposed(alloc, rules, hierarchy, attribute, exposed)?;
    let name = rules.name_of(attribute);
    Ok(is_among(exposed.get(name), rules.class_of(attribute)))
}

/// Notes which classes are exposed for the attribute, or above one that is, unless an attribute of its name was
/// met before.
fn note_exposed<'a>(
    alloc: Global,
    rules: &'a Rules,
    hierarchy: &Hierarchy,
    attribute: AttrId,
    exposed: &mut IndexMap<&'a str, Walk>,
) -> Result<(), AllocError>
    requires { IsHierarchy rules.now.classes hierarchy.now × MeetExposed rules.now exposed.now }
    ensures { OnOk result ((is_some (walk_for (attribute_name rules.now attribute) exposed.new) ≡ true) × MeetExposed rules.now exposed.new) }
{
    let name = rules.name_of(attribute);
    if exposed.contains_key(name) {
        return Ok(());
    }
    let classes = exposed_for(alloc, rules, hierarchy, attribute)?;
    exposed.insert(name, classes)?;
    Ok(())
}

/// Whether there is a class, and it is among those that were met.
fn is_among(exposed: Option<&Walk>, class: Option<ClassId>) -> bool
    ensures { result ≡ is_among (option_map (λ w. w.now) exposed.entry) class }
{
    let Some(exposed) = exposed else { return false };
    let Some(class) = class else { return false };
    exposed.has_met(class)
}

/// Which classes are exposed for the attribute, or above one that is.
fn exposed_for(
    alloc: Global,
    rules: &Rules,
    hierarchy: &Hierarchy,
    attribute: AttrId,
) -> Result<Walk, AllocError>
    requires { IsHierarchy rules.now.classes hierarchy.now }
    ensures { IfOk result (λ w. (b : ℕ) → Tells (has_met w.met.items b) (IsExposedBelow rules.now (attribute_name rules.now attribute) b)) }
{
    let exposed = exposed_walk(alloc, rules, hierarchy, attribute)?;
    let marked = with_those_above(alloc, rules.classes(), &exposed)?;
    Ok(marked)
}

/// A walk over the classes whose trees may stand where no class above has an equation for the attribute: each
/// that isn't abstract is exposed.
fn exposed_walk(
    alloc: Global,
    rules: &Rules,
    hierarchy: &Hierarchy,
    attribute: AttrId,
) -> Result<Walk, AllocError>
    requires { IsHierarchy rules.now.classes hierarchy.now }
    ensures { IfOk result (IsExposedWalk rules.now (attribute_name rules.now attribute)) }
{
    let classes = rules.classes();
    let count = classes.len();
    let mut walk = Walk::from(alloc, count, classes.start())?;
    // Each class is met once at most.
    for step in 0..count {
        let Some(class) = walk.next_pending() else {
            return Ok(walk);
        };
        meet_from(rules, hierarchy, attribute, class, &mut walk)?;
    }
    Ok(walk)
}

/// A tree of a class below may stand where one of the class may, and others in its components.
fn meet_from(
    rules: &Rules,
    hierarchy: &Hierarchy,
    attribute: AttrId,
    class: ClassId,
    walk: &mut Walk,
) -> Result<(), AllocError>
    requires { IsHierarchy rules.now.classes hierarchy.now }
    ensures { OnOk result (MeetsFrom (leads rules.now (attribute_name rules.now attribute) class) walk.old walk.new) }
{
    walk.meet_all(hierarchy.below(class))?;
    if is_concrete(rules.classes(), class) {
        meet_within(rules, attribute, class, walk)?;
        return Ok(());
    }
    Ok(())
}

/// The trees in the components for which the class has no equation.
fn meet_within(
    rules: &Rules,
    attribute: AttrId,
    class: ClassId,
    walk: &mut Walk,
) -> Result<(), AllocError>
    requires { class < length rules.now.classes }
    ensures { OnOk result
        (MeetsFrom (is_passed rules.now (attribute_name rules.now attribute) (length (parts rules.now.classes class)) class) walk.old walk.new) }
{
    let count = rules.classes().parts(class).len();
    for part in 0..count {
        walk.meet_some(passed(rules, attribute, class, part))?;
    }
    Ok(())
}

/// The class of the trees in the component, where the class has no equation for it.
fn passed(rules: &Rules, attribute: AttrId, class: ClassId, part: usize) -> Option<ClassId>
    requires { class < length rules.now.classes }
    ensures { result ≡ passed rules.now (attribute_name rules.now attribute) class part }
{
    if let Some(_) = rules.inherited_body(class, part, attribute) {
        return None;
    }
    class_at(rules.classes().parts(class), part)
}

/// Which of the classes were met and aren't abstract, or have such a class below them.
fn with_those_above(alloc: Global, classes: &ClassTable, exposed: &Walk) -> Result<Walk, AllocError>
    ensures { IfOk result (λ w. AreSound classes.now × IsMarking classes.now exposed.now w) }
{
    let count = classes.len();
    let mut walk = concrete_among(alloc, classes, exposed)?;
    // Each class is met once at most.
    for step in 0..count {
        let Some(class) = walk.next_pending() else {
            return Ok(walk);
        };
        walk.meet_some(classes.parent(class))?;
    }
    Ok(walk)
}

/// Those that were met and aren't abstract.
fn concrete_among(alloc: Global, classes: &ClassTable, exposed: &Walk) -> Result<Walk, AllocError>
    ensures { IfOk result
        (λ w. Meets (is_met_concrete classes.now exposed.now.met.items) (replicate (length classes.now) false) w.met.items [] w.pending.items) }
{
    let count = classes.len();
    let mut walk = Walk::new(alloc, count)?;
    for position in 0..count {
        walk.meet_some(if_concrete(classes, exposed, ClassId::new(position)))?;
    }
    Ok(walk)
}

/// The class, where it was met and isn't abstract.
fn if_concrete(classes: &ClassTable, exposed: &Walk, class: ClassId) -> Option<ClassId>
    ensures { result ≡ (if is_met_concrete classes.now exposed.now.met.items class then Some class else None) }
{
    if !exposed.has_met(class) {
        return None;
    }
    if !is_concrete(classes, class) {
        return None;
    }
    Some(class)
}

/// The class of the trees in the component at that position.
fn class_at(parts: &[Part], position: usize) -> Option<ClassId>
    ensures { result ≡ option_and_then (λ p. class_in p.shape) (slice_get (map part_view parts.now) position) }
{
    match parts.get(position) {
        Some(part) => part.shape.class_in(),
        None => None,
    }
}
