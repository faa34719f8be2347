//! Grammars with a component for each constant.

ghost use Rattle.std.specs.Prelude.{◌≡◌, map, position, string_bytes, IfOk, OnOk};
ghost use Rattle.std.specs.Str.{bytes_eq};
ghost use Rattle.at_model.specs.Declarations.{class_named};
ghost use Rattle.at_class.specs.Grammar.{declaration_view, form_view, grammar_view, part_declaration_view, place_view};
ghost use Rattle.at_tree.specs.View.{cell_view};
ghost use Rattle.at_java.specs.Seen.{constant_view};
ghost use Rattle.at_start.specs.Constants.{bare, bare_class, component, declaring, form_of, part_called, parts_declared, place_in, whole_grammar, with_component};
ghost use Rattle.at_start.specs.PlacedView.{placed_view};

use super::Placed;
use super::filling::{fills, is_marked};
use at_grammar::{ClassDecl, Grammar, PartDecl, Shape};
use at_java::Constant;
use at_text::place::Place;
use at_tree::term::TermCell;
use std::alloc::{AllocError, Global};

/// The grammar with a component for each constant that fills none, or want of memory.
pub fn with_components(
    alloc: Global,
    marks: &[Place],
    grammar: &Grammar,
    constants: &[Placed],
) -> Result<Grammar, AllocError>
    ensures { IfOk result (λ g. grammar_view g ≡ whole_grammar (map place_view marks.now) (grammar_view grammar.now) (map placed_view constants.now)) }
{
    let mut whole = copied(alloc, grammar)?;
    for placed in constants {
        if !fills(marks, grammar, &placed.constant) {
            add_component(alloc, &mut whole, &placed.constant)?;
        }
    }
    Ok(whole)
}

/// The grammar without its marked components, or want of memory.
pub fn bare(alloc: Global, marks: &[Place], grammar: &Grammar) -> Result<Grammar, AllocError>
    ensures { IfOk result (λ g. grammar_view g ≡ bare (map place_view marks.now) (grammar_view grammar.now)) }
{
    let mut classes = Vec::with_capacity(alloc, grammar.classes.len())?;
    for class in &grammar.classes {
        classes.push(bare_class(alloc, marks, class)?)?;
    }
    Ok(Grammar { classes })
}

fn bare_class(alloc: Global, marks: &[Place], class: &ClassDecl) -> Result<ClassDecl, AllocError>
    ensures { IfOk result (λ d. declaration_view d ≡ bare_class (map place_view marks.now) (declaration_view class.now)) }
{
    let mut bare = class_copied(alloc, class)?;
    bare.parts.retain(|part| !is_marked(marks, part));
    Ok(bare)
}

/// The same grammar once more, or want of memory.
pub fn copied(alloc: Global, grammar: &Grammar) -> Result<Grammar, AllocError>
    ensures { IfOk result (λ g. grammar_view g ≡ grammar_view grammar.now) }
{
    let mut classes = Vec::with_capacity(alloc, grammar.classes.len())?;
    for class in &grammar.classes {
        classes.push(class_copied(alloc, class)?)?;
    }
    Ok(Grammar { classes })
}

fn class_copied(alloc: Global, class: &ClassDecl) -> Result<ClassDecl, AllocError>
    ensures { IfOk result (λ d. declaration_view d ≡ declaration_view class.now) }
{
    let name = String::from_str(alloc, class.name.as_str())?;
    let parent = match &class.parent {
        Some(parent) => Some(String::from_str(alloc, parent.as_str())?),
        None => None,
    };
    let parts = parts_copied(alloc, &class.parts)?;
    Ok(ClassDecl {
        name,
        is_abstract: class.is_abstract,
        parent,
        parts,
        at: class.at,
    })
}

fn parts_copied(alloc: Global, parts: &[PartDecl]) -> Result<Vec<PartDecl>, AllocError>
    ensures { IfOk result (λ v. map part_declaration_view v.items ≡ map part_declaration_view parts.now) }
{
    let mut copies = Vec::with_capacity(alloc, parts.len())?;
    for part in parts {
        copies.push(part_copied(alloc, part)?)?;
    }
    Ok(copies)
}

fn part_copied(alloc: Global, part: &PartDecl) -> Result<PartDecl, AllocError>
    ensures { IfOk result (λ p. part_declaration_view p ≡ part_declaration_view part.now) }
{
    let name = String::from_str(alloc, part.name.as_str())?;
    let kind = String::from_str(alloc, part.kind.as_str())?;
    Ok(PartDecl {
        name,
        kind,
        shape: part.shape,
        at: part.at,
    })
}

/// The component of the constant, or want of memory.
fn component(alloc: Global, constant: &Constant) -> Result<PartDecl, AllocError>
    ensures { IfOk result (λ p. part_declaration_view p ≡ component (constant_view constant.now)) }
{
    let name = String::from_str(alloc, constant.name.text.as_str())?;
    let kind = String::from_str(alloc, constant.kind.text.as_str())?;
    Ok(PartDecl {
        name,
        kind,
        shape: shape_of(&constant.cell),
        at: constant.name.at,
    })
}

/// How a component is written that such a cell fills.
fn shape_of(cell: &TermCell) -> Shape
    ensures { form_view result ≡ form_of (cell_view cell.now) }
{
    match cell {
        TermCell::One(_) => Shape::One,
        TermCell::Many(_) => Shape::Many,
        TermCell::Empty => Shape::Maybe,
        TermCell::Holds(_) => Shape::Tok,
    }
}

/// Gives the constant's class its component, where there is such a class; or want of memory.
pub fn add_component(
    alloc: Global,
    grammar: &mut Grammar,
    constant: &Constant,
) -> Result<(), AllocError>
    ensures { OnOk result (grammar_view grammar.new ≡ with_component (grammar_view grammar.old) (constant_view constant.now)) }
{
    for class in 0..grammar.classes.len() {
        if is_class_of(&grammar.classes[class], constant) {
            return declare(alloc, &mut grammar.classes[class], constant);
        }
    }
    Ok(())
}

/// Whether the class has the name of the constant's.
fn is_class_of(class: &ClassDecl, constant: &Constant) -> bool
    ensures { result ≡ bytes_eq (constant_view constant.now).class.text (declaration_view class.now).name }
{
    constant.class.text.as_str() == class.name.as_str()
}

/// Gives the class the constant's component, or want of memory.
fn declare(alloc: Global, class: &mut ClassDecl, constant: &Constant) -> Result<(), AllocError>
    ensures { OnOk result (declaration_view class.new ≡ declaring (declaration_view class.old) (constant_view constant.now)) }
{
    let part = component(alloc, constant)?;
    class.parts.push(part)?;
    Ok(())
}

/// The position of the class of that name.
fn class_position(name: &str, classes: &[ClassDecl]) -> Option<usize>
    ensures { result ≡ position (λ d. bytes_eq name.now (string_bytes d.name)) classes.now }
{
    classes.iter().position(|class| name == class.name.as_str())
}

/// The position of the component of that name.
fn part_position(name: &str, parts: &[PartDecl]) -> Option<usize>
    ensures { result ≡ position (λ p. bytes_eq name.now (string_bytes p.name)) parts.now }
{
    parts.iter().position(|part| name == part.name.as_str())
}

/// The class of that name.
fn class_named(name: &str, classes: &[ClassDecl]) -> Option<usize>
    ensures { result ≡ class_named (map declaration_view classes.now) name.now }
{
    class_position(name, classes)
}

/// The position of the component of that name.
fn part_called(name: &str, parts: &[PartDecl]) -> Option<usize>
    ensures { result ≡ part_called name.now (map part_declaration_view parts.now) }
{
    part_position(name, parts)
}

/// The class of the constant, and the position of its component among the class's own.
pub fn place_in(grammar: &Grammar, constant: &Constant) -> Option<(usize, usize)>
    ensures { result ≡ place_in (grammar_view grammar.now) (constant_view constant.now) }
{
    let class = class_named(constant.class.text.as_str(), &grammar.classes)?;
    let part = part_in(constant.name.text.as_str(), &grammar.classes, class)?;
    Some((class, part))
}

/// The position of the component of that name in the class at that position.
fn part_in(name: &str, classes: &[ClassDecl], class: usize) -> Option<usize>
    ensures { result ≡ part_called name.now (parts_declared (map declaration_view classes.now) class) }
{
    part_called(name, &classes.get(class)?.parts)
}
