//! The rules of a grammar, each with the first place at which it is broken.
ghost use Rattle.std.specs.Prelude.{◌≡◌, ◌||◌, ℕ, IfOk, length, map, option_map, nat_eq, nat_le};
ghost use Rattle.at_model.specs.Classes.{Classes};
ghost use Rattle.at_model.specs.Declarations.{token_kind, max_classes};
ghost use Rattle.at_class.specs.View.{named_in, classes_view};
ghost use Rattle.at_class.specs.Grammar.{declarations_view, place_view, part_declaration_view};
ghost use Rattle.at_class.specs.Checks.{unknown_by, circle_in, kind_in, is_of_no_kind, twice_in, parts_twice, over_in};
ghost use Rattle.at_class.specs.Ways.{AreFound, IsFound};

use crate::circles::Circles;
use crate::class::{Class, token_kind_named};
use crate::found::Found;
use crate::names::{is_known, is_token};
use crate::part::ClassId;
use at_grammar::{ClassDecl, PartDecl};
use at_text::place::Place;
use indexmap::IndexSet;
use std::alloc::{AllocError, Global};

// How many classes a grammar may declare.
const MAX_CLASSES: usize = 1000;

/// The name of the first class that has a superclass or a component of a class that is not declared.
pub fn unknown_class(names: &IndexSet<String>, declarations: &[ClassDecl]) -> Option<Place>
    ensures { option_map place_view result ≡ unknown_by (named_in names.now.keys) (declarations_view declarations.now) }
{
    for declaration in declarations {
        if !is_known(names, declaration) {
            return Some(declaration.at);
        }
    }
    None
}

/// The name of the first class that is above itself.
pub fn superclass_circle(
    alloc: Global,
    classes: &[Class],
    declarations: &[ClassDecl],
) -> Result<Option<Place>, AllocError>
    ensures { IfOk result (λ place. option_map place_view place ≡ circle_in (classes_view classes.now) (declarations_view declarations.now)) }
{
    let mut circles = Circles::new(alloc, classes)?;
    for (position, declaration) in declarations.iter().enumerate() {
        let class = ClassId::new(position);
        let is_above = circles.is_above_itself(classes, class)?;
        if is_above {
            return Ok(Some(declaration.at));
        }
    }
    Ok(None)
}

/// The name of the first token whose kind is none of the three.
pub fn wrong_token_kind(declarations: &[ClassDecl]) -> Option<Place>
    ensures { option_map place_view result ≡ token_kind (declarations_view declarations.now) }
{
    for declaration in declarations {
        if let Some(at) = wrong_kind_in(&declaration.parts) {
            return Some(at);
        }
    }
    None
}

fn wrong_kind_in(parts: &[PartDecl]) -> Option<Place>
    ensures { option_map place_view result ≡ kind_in (map part_declaration_view parts.now) }
{
    for part in parts {
        if has_wrong_kind(part) {
            return Some(part.at);
        }
    }
    None
}

fn has_wrong_kind(part: &PartDecl) -> bool
    ensures { result ≡ is_of_no_kind (part_declaration_view part.now) }
{
    is_token(part.shape) && token_kind_named(part.kind.as_str()).is_none()
}

/// The first component that clashes with one before it in its class, or with what every tree has: of classes of which this was found.
pub fn component_twice(found: &[Found], declarations: &[ClassDecl]) -> Option<Place>
    requires { length found.now ≡ length declarations.now }
    ensures { (classes : Classes) → AreFound classes found.now (length found.now)
        → option_map place_view result ≡ twice_in classes (declarations_view declarations.now) }
{
    for (position, declaration) in declarations.iter().enumerate() {
        if let Some(at) = twice_at(found[position], &declaration.parts) {
            return Some(at);
        }
    }
    None
}

fn twice_at(found: Found, parts: &[PartDecl]) -> Option<Place>
    ensures { (classes : Classes) (class : ℕ) → IsFound classes class found
        → option_map place_view result ≡ parts_twice classes class (map part_declaration_view parts.now) }
{
    Some(parts.get(found.twice?)?.at)
}

/// The name of the first class that is one too many, or has too many components: of classes of which this was found.
pub fn over_limit(found: &[Found], declarations: &[ClassDecl]) -> Option<Place>
    requires { length found.now ≡ length declarations.now }
    ensures { (classes : Classes) → AreFound classes found.now (length found.now)
        → option_map place_view result ≡ over_in classes (declarations_view declarations.now) }
{
    for (position, declaration) in declarations.iter().enumerate() {
        if is_over(found[position], position) {
            return Some(declaration.at);
        }
    }
    None
}

fn is_over(found: Found, position: usize) -> bool
    ensures { result ≡ (nat_le max_classes position || nat_eq found.room 0) }
{
    position >= MAX_CLASSES || found.room == 0
}
