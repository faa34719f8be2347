//! Classes without an equation for a synthesized attribute.

ghost use Rattle.std.specs.Prelude.{IfOk};
ghost use Rattle.at_complete.specs.Completing.{IsFirst, LacksBelow, LacksOwn, LooksAt, Tells};
ghost use Rattle.at_complete.specs.Hierarchies.{IsHierarchy};

use crate::hierarchy::{Hierarchy, is_concrete};
use crate::walk::Walk;
use at_class::ClassId;
use at_rules::{AttrId, Rules};
use std::alloc::{AllocError, Global};

/// The first synthesized attribute for which a class that isn't abstract, at its own class or below, has no
/// equation on its chain; or want of memory.
pub fn class_without_equation(alloc: Global, rules: &Rules) -> Result<Option<AttrId>, AllocError>
    ensures { IfOk result (IsFirst (LacksOwn rules.now)) }
{
    let hierarchy = Hierarchy::of(alloc, rules.classes())?;
    let count = rules.len();
    for position in 0..count {
        let attribute = AttrId::new(position);
        let lacks = lacks_own(alloc, rules, &hierarchy, attribute)?;
        if lacks {
            return Ok(Some(attribute));
        }
    }
    Ok(None)
}

/// Whether the attribute is synthesized, and a class that fits its class has no equation for it.
fn lacks_own(
    alloc: Global,
    rules: &Rules,
    hierarchy: &Hierarchy,
    attribute: AttrId,
) -> Result<bool, AllocError>
    requires { IsHierarchy rules.now.classes hierarchy.now }
    ensures { IfOk result (λ lacks. Tells lacks (LacksOwn rules.now attribute)) }
{
    if rules.is_inherited(attribute) {
        return Ok(false);
    }
    let Some(class) = rules.class_of(attribute) else {
        return Ok(false);
    };
    let lacks = lacks_below(alloc, rules, hierarchy, class, attribute)?;
    Ok(lacks)
}

/// Whether a class that fits that one has no equation for the attribute.
fn lacks_below(
    alloc: Global,
    rules: &Rules,
    hierarchy: &Hierarchy,
    class: ClassId,
    attribute: AttrId,
) -> Result<bool, AllocError>
    requires { IsHierarchy rules.now.classes hierarchy.now }
    ensures { IfOk result (λ lacks. Tells lacks (LacksBelow rules.now class attribute)) }
{
    let count = rules.classes().len();
    if let Some(_) = rules.own_body(class, attribute) {
        return Ok(false);
    }
    let mut walk = Walk::from(alloc, count, class)?;
    // Each class is met once at most.
    for step in 0..count {
        let Some(next) = walk.next_pending() else {
            return Ok(false);
        };
        let lacks = looks_at(rules, hierarchy, next, attribute, &mut walk)?;
        if lacks {
            return Ok(true);
        }
    }
    Ok(false)
}

/// Whether the class isn't abstract and has no equation itself; else the walk goes on below it, where it has
/// none.
fn looks_at(
    rules: &Rules,
    hierarchy: &Hierarchy,
    class: ClassId,
    attribute: AttrId,
    walk: &mut Walk,
) -> Result<bool, AllocError>
    requires { IsHierarchy rules.now.classes hierarchy.now }
    ensures { IfOk result (λ lacks. LooksAt lacks rules.now attribute class walk.old walk.new) }
{
    if let Some(_) = rules.own_in(class, attribute) {
        return Ok(false);
    }
    if is_concrete(rules.classes(), class) {
        return Ok(true);
    }
    walk.meet_all(hierarchy.below(class))?;
    Ok(false)
}
