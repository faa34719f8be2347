//! Rules with searches in the place of folds.

ghost use Rattle.at_model.specs.WellFormed.{AreWellFormed};
ghost use Rattle.at_seek.specs.Sought.{IsSought};

use crate::finder::Finder;
use crate::keys::keys_of;
use crate::scope::Scope;
use at_class::ClassId;
use at_rules::{Attribute, Body, Kind, Rules};
use indexmap::IndexMap;
use std::alloc::Global;

/// The rules, in which folds over lists that may be searches are. Where memory is wanting, they stay folds.
pub fn sought(alloc: Global, rules: Rules) -> Rules
    requires { AreWellFormed rules }
    ensures sought { IsSought rules result }
    ensures well_formed { AreWellFormed result }
{
    let keys = keys_of(alloc, &rules);
    let (classes, names, mut equations) = rules.into_parts();
    let finder = Finder {
        alloc,
        classes: &classes,
        attributes: &equations.attributes,
        keys: keys.as_slice(),
    };
    turn_own(&finder, &mut equations.own);
    turn_inherited(&finder, &mut equations.inherited);
    Rules::new(alloc, classes, names, equations)
}

ghost use Rattle.std.specs.Prelude.{◌≡◌, ℕ, Bool, List, IfSome, Some, slice_get};
ghost use Rattle.at_model.specs.Kinds.{AreInheritedAlike, IsInheritedOf};
ghost use Rattle.at_model.specs.Rules.{Attribute as AttributeValue, Rules as RulesValue};
ghost use Rattle.at_seek.specs.Finding.{AreNamed, EachTurned, IsInheritedTurned, IsOver, IsOwnTurned, OneTurned, kinds_in};

/// Turns the bodies of the equations of nodes' own attributes.
fn turn_own(finder: &Finder<'_>, own: &mut IndexMap<(usize, usize), Body>)
    ensures { (rules : RulesValue) → IsOver rules finder.now → EachTurned (IsOwnTurned rules) own.old.entries own.new.entries }
{
    for position in 0..own.len() {
        turn_own_at(finder, own, position);
    }
}

/// Turns the one at the position.
fn turn_own_at(finder: &Finder<'_>, own: &mut IndexMap<(usize, usize), Body>, position: usize)
    ensures { (rules : RulesValue) → IsOver rules finder.now → OneTurned (IsOwnTurned rules) position own.old.entries own.new.entries }
{
    if position >= own.len() {
        return;
    }
    let (key, body) = own.pair_mut(position);
    if let Some(scope) = scope_of(finder, key.0, key.1) {
        finder.turn(&scope, body);
    }
}

/// Turns the bodies of the equations of inherited attributes.
fn turn_inherited(
    finder: &Finder<'_>,
    inherited: &mut IndexMap<(usize, Option<usize>, usize), Body>,
)
    ensures { (rules : RulesValue) (texts : ℕ → List ℕ) → IsOver rules finder.now → AreInheritedAlike rules
        → AreNamed texts rules finder.now.attributes.now.entries
        → EachTurned (IsInheritedTurned texts rules) inherited.old.entries inherited.new.entries }
{
    for position in 0..inherited.len() {
        turn_inherited_at(finder, inherited, position);
    }
}

/// Turns the one at the position.
fn turn_inherited_at(
    finder: &Finder<'_>,
    inherited: &mut IndexMap<(usize, Option<usize>, usize), Body>,
    position: usize,
)
    ensures { (rules : RulesValue) (texts : ℕ → List ℕ) → IsOver rules finder.now → AreInheritedAlike rules
        → AreNamed texts rules finder.now.attributes.now.entries
        → OneTurned (IsInheritedTurned texts rules) position inherited.old.entries inherited.new.entries }
{
    if position >= inherited.len() {
        return;
    }
    let (key, body) = inherited.pair_mut(position);
    if let Some(scope) = scope_below(finder, key.0, key.2) {
        finder.turn(&scope, body);
    }
}

/// Where the own equation of the class for the attribute stands, where there is such an attribute, and memory.
fn scope_of(finder: &Finder<'_>, class: usize, attribute: usize) -> Option<Scope>
    ensures { (rules : RulesValue) (a : AttributeValue) (h : Bool) → IsOver rules finder.now → slice_get rules.attributes attribute ≡ Some a
        → IfSome result (λ s. kinds_in s h ≡ record { this = class; names = a.parameters; has_index = h }) }
{
    match finder.attributes.get_index(attribute) {
        Some((_, declared)) => scope_with(finder.alloc, class, &declared.params),
        None => None,
    }
}

/// Where an equation of the class for inherited attributes of that name stands, where there is one, and memory.
fn scope_below(finder: &Finder<'_>, class: usize, name: usize) -> Option<Scope>
    ensures { (rules : RulesValue) (texts : ℕ → List ℕ) (k : ℕ) (a : AttributeValue) (h : Bool) → IsOver rules finder.now → AreInheritedAlike rules
        → AreNamed texts rules finder.now.attributes.now.entries → IsInheritedOf rules (texts name) k a
        → IfSome result (λ s. kinds_in s h ≡ record { this = class; names = a.parameters; has_index = h }) }
{
    let declared = inherited_named(finder.attributes, name)?;
    scope_with(finder.alloc, class, &declared.params)
}

/// The first inherited attribute of that name.
fn inherited_named(
    attributes: &IndexMap<(usize, usize), Attribute>,
    name: usize,
) -> Option<&Attribute>
    ensures { IfSome result (IsNamedIn attributes.now.entries name) }
{
    for position in 0..attributes.len() {
        if let Some((key, attribute)) = attributes.get_index(position)
            && key.1 == name
            && attribute.is_inherited
        {
            return Some(attribute);
        }
    }
    None
}

ghost use Rattle.at_seek.specs.Finding.{IsNamedIn};

/// Where `this` is of the class, and the names stand for what is of these kinds.
fn scope_with(alloc: Global, class: usize, kinds: &[Kind]) -> Option<Scope>
    ensures { IfSome result (λ s. (s.this ≡ class) × (s.names.items ≡ kinds.now)) }
{
    let mut names = Vec::new(alloc);
    match names.extend_from_slice(kinds) {
        Ok(()) => Some(Scope {
            this: ClassId::new(class),
            names,
        }),
        Err(_) => None,
    }
}
