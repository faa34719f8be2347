//! Components of the grammar that constants fill.

ghost use Rattle.std.specs.Prelude.{◌≡◌, ◌==◌, ◌&&◌, ◌∷◌, [], map, option_map, is_some};
ghost use Rattle.std.specs.List.{list_any};
ghost use Rattle.at_class.specs.Grammar.{declaration_view, form_view, grammar_view, part_declaration_view, place_view};
ghost use Rattle.at_java.specs.Seen.{constant_view};
ghost use Rattle.at_start.specs.Constants.{filled, form_of, is_marked, part_at};
ghost use Rattle.at_tree.specs.View.{cell_view};
ghost use Rattle.at_start.specs.ConstantFaults.{Finds, first_again, first_empty, first_refusal, is_empty, is_for, is_like, is_many, lacking, misfilled, told, unfilled, unlike};
ghost use Rattle.at_start.specs.PlacedView.{placed_view};

use super::Placed;
use super::faults::refused;
use super::grammars::place_in;
use crate::code::Code;
use crate::fault::StartFault;
use at_grammar::{ClassDecl, Grammar, PartDecl, Shape};
use at_java::Constant;
use at_text::place::Place;
use at_tree::term::TermCell;

/// Whether the component stands between slashes.
pub fn is_marked(marks: &[Place], part: &PartDecl) -> bool
    ensures { result ≡ is_marked (map place_view marks.now) (part_declaration_view part.now) }
{
    is_among(marks, part.at)
}

/// Whether one of the places is that one.
fn is_among(places: &[Place], at: Place) -> bool
    ensures { result ≡ list_any (λ p. (p.line == at.line) && (p.column == at.column)) places.now }
{
    places.iter().any(|place| is_at(place, at))
}

fn is_at(place: &Place, at: Place) -> bool
    ensures { result ≡ (place.now.line == at.line) && (place.now.column == at.column) }
{
    place.line == at.line && place.column == at.column
}

/// The component that the constant fills, if it does.
fn filled<'a>(marks: &[Place], grammar: &'a Grammar, constant: &Constant) -> Option<&'a PartDecl>
    ensures { option_map (λ p. part_declaration_view p.now) result
        ≡ filled (map place_view marks.now) (grammar_view grammar.now) (constant_view constant.now) }
{
    let (class, part) = place_in(grammar, constant)?;
    let part = part_at(grammar, class, part)?;
    if is_marked(marks, part) {
        return Some(part);
    }
    None
}

/// The component at that position of the class.
fn part_at(grammar: &Grammar, class: usize, part: usize) -> Option<&PartDecl>
    ensures { option_map (λ p. part_declaration_view p.now) result ≡ part_at (grammar_view grammar.now) (class, part) }
{
    grammar.classes.get(class)?.parts.get(part)
}

/// Whether the constant fills a component.
pub fn fills(marks: &[Place], grammar: &Grammar, constant: &Constant) -> bool
    ensures { result ≡ is_some (filled (map place_view marks.now) (grammar_view grammar.now) (constant_view constant.now)) }
{
    filled(marks, grammar, constant).is_some()
}

/// Looks whether each constant that fills a component fits it, each of these is filled once, and none is left empty.
pub fn look_at_filling(
    marks: &[Place],
    grammar: &Grammar,
    constants: &[Placed],
) -> Result<(), StartFault>
    ensures { Finds (misfilled (map place_view marks.now) (grammar_view grammar.now) (map placed_view constants.now)) result }
{
    look_at_kinds(marks, grammar, constants)?;
    look_at_others(marks, grammar, constants)?;
    look_at_classes(marks, grammar, constants)
}

/// Looks whether each is of the kind of the component that it fills.
fn look_at_kinds(marks: &[Place], grammar: &Grammar, constants: &[Placed]) -> Result<(), StartFault>
    ensures { Finds (first_refusal (unlike (map place_view marks.now) (grammar_view grammar.now)) (map placed_view constants.now)) result }
{
    for placed in constants {
        look_at_kind(marks, grammar, placed)?;
    }
    Ok(())
}

/// Looks whether this one is.
fn look_at_kind(marks: &[Place], grammar: &Grammar, placed: &Placed) -> Result<(), StartFault>
    ensures { Finds (unlike (map place_view marks.now) (grammar_view grammar.now) (placed_view placed.now)) result }
{
    let Some(part) = filled(marks, grammar, &placed.constant) else {
        return Ok(());
    };
    if is_like(part, &placed.constant) {
        return Ok(());
    }
    Err(refused(placed, Code::Kind, placed.constant.kind.at))
}

/// Whether the constant is of the component's kind, and a list where that is one.
fn is_like(part: &PartDecl, constant: &Constant) -> bool
    ensures { result ≡ is_like (part_declaration_view part.now) (constant_view constant.now) }
{
    if constant.kind.text.as_str() != part.kind.as_str() {
        return false;
    }
    if is_list(&constant.cell) {
        return is_many(part.shape);
    }
    !is_many(part.shape)
}

fn is_many(shape: Shape) -> bool
    ensures { result ≡ is_many (form_view shape) }
{
    match shape {
        Shape::Many => true,
        Shape::One | Shape::Maybe | Shape::Tok => false,
    }
}

fn is_list(cell: &TermCell) -> bool
    ensures { result ≡ is_many (form_of (cell_view cell.now)) }
{
    match cell {
        TermCell::Many(_) => true,
        TermCell::One(_) | TermCell::Empty | TermCell::Holds(_) => false,
    }
}

/// Looks whether each component is filled once.
fn look_at_others(
    marks: &[Place],
    grammar: &Grammar,
    constants: &[Placed],
) -> Result<(), StartFault>
    ensures { Finds (first_again (map place_view marks.now) (grammar_view grammar.now) [] (map placed_view constants.now)) result }
{
    for i in 0..constants.len() {
        look_at_other(marks, grammar, &constants[..i], &constants[i])?;
    }
    Ok(())
}

/// Looks whether what this one fills is filled by none in front.
fn look_at_other(
    marks: &[Place],
    grammar: &Grammar,
    front: &[Placed],
    placed: &Placed,
) -> Result<(), StartFault>
    ensures { Finds (first_again (map place_view marks.now) (grammar_view grammar.now) (map placed_view front.now) (placed_view placed.now ∷ [])) result }
{
    let constant = &placed.constant;
    if !fills(marks, grammar, constant) {
        return Ok(());
    }
    if is_filled(
        front,
        constant.class.text.as_str(),
        constant.name.text.as_str(),
    ) {
        return Err(refused(placed, Code::EquationTwice, constant.name.at));
    }
    Ok(())
}

/// Whether one of the constants is for the component of that name of that class.
fn is_filled(constants: &[Placed], class: &str, name: &str) -> bool
    ensures { result ≡ list_any (is_for class.now name.now) (map placed_view constants.now) }
{
    is_for_one(constants, class, name)
}

fn is_for_one(constants: &[Placed], class: &str, name: &str) -> bool
    ensures { result ≡ list_any (λ p. is_for class.now name.now (placed_view p)) constants.now }
{
    constants.iter().any(|placed| is_for(class, name, placed))
}

fn is_for(class: &str, name: &str, placed: &Placed) -> bool
    ensures { result ≡ is_for class.now name.now (placed_view placed.now) }
{
    placed.constant.class.text.as_str() == class && placed.constant.name.text.as_str() == name
}

/// Looks whether no component between slashes is left empty.
fn look_at_classes(
    marks: &[Place],
    grammar: &Grammar,
    constants: &[Placed],
) -> Result<(), StartFault>
    ensures { Finds (unfilled (map place_view marks.now) (grammar_view grammar.now) (map placed_view constants.now)) result }
{
    for class in &grammar.classes {
        if let Some(at) = first_empty(marks, constants, class) {
            return Err(lacking(at));
        }
    }
    Ok(())
}

/// The fault of the component there, in the grammar.
pub fn lacking(at: Place) -> StartFault
    ensures { result ≡ told (lacking (place_view at)) }
{
    StartFault::Refused {
        file: 0,
        code: Code::ClassWithoutEquation,
        at: Some(at),
    }
}

/// Where the first of the class stands that is.
fn first_empty(marks: &[Place], constants: &[Placed], class: &ClassDecl) -> Option<Place>
    ensures { option_map place_view result ≡ first_empty (map place_view marks.now) (map placed_view constants.now) (declaration_view class.now) }
{
    for part in &class.parts {
        if is_empty(marks, constants, class, part) {
            return Some(part.at);
        }
    }
    None
}

/// Whether this one is.
fn is_empty(marks: &[Place], constants: &[Placed], class: &ClassDecl, part: &PartDecl) -> bool
    ensures { result ≡ is_empty (map place_view marks.now) (map placed_view constants.now) (declaration_view class.now) (part_declaration_view part.now) }
{
    if !is_marked(marks, part) {
        return false;
    }
    !is_filled(constants, class.name.as_str(), part.name.as_str())
}
