//! For which constant files are refused.

ghost use Rattle.std.specs.Prelude.{◌≡◌, None, Some, OnOk, map};
ghost use Rattle.at_model.specs.Declarations.{AreNamed, Fault as GrammarFault, first_fault};
ghost use Rattle.at_class.specs.Grammar.{grammar_view, place_view};
ghost use Rattle.at_class.specs.Faults.{code_view};
ghost use Rattle.at_java.specs.Seen.{constant_view};
ghost use Rattle.at_start.specs.Constants.{additions, whole_grammar, with_component};
ghost use Rattle.at_start.specs.ConstantFaults.{Finds, Tells, breach, breaking, broken, encircled, first_breach, first_refusal, misfit, misshapen, oversized, refusal, told, unknown_at, unnamed, unstanding};
ghost use Rattle.at_start.specs.PlacedView.{placed_view};

use super::Placed;
use super::filling::fills;
use super::grammars::{add_component, copied};
use super::shaping::{CellFault, cell_shaped, is_moderate, made_over, stands};
use crate::code::Code;
use crate::everywhere::EVERY_NODE;
use crate::fault::StartFault;
use at_class::{ClassCode, ClassTable};
use at_grammar::Grammar;
use at_java::Constant;
use at_text::fault::Fault;
use at_text::names::is_name;
use at_text::place::Place;
use std::alloc::Global;

/// The fault with that code at the place in the constant's file.
pub fn refused(placed: &Placed, code: Code, at: Place) -> StartFault
    ensures { result ≡ told (refusal (placed_view placed.now) code at) }
{
    StartFault::Refused {
        file: placed.file,
        code,
        at: Some(at),
    }
}

/// Looks whether the names of all are names.
pub fn look_at_names(constants: &[Placed]) -> Result<(), StartFault>
    ensures { Finds (first_refusal unnamed (map placed_view constants.now)) result }
{
    for placed in constants {
        look_at_name(placed)?;
    }
    Ok(())
}

/// Looks whether the name of this one is a name.
fn look_at_name(placed: &Placed) -> Result<(), StartFault>
    ensures { Finds (unnamed (placed_view placed.now)) result }
{
    let name = &placed.constant.name;
    if is_name(name.text.as_str()) {
        return Ok(());
    }
    Err(refused(placed, Code::AspectSyntax, name.at))
}

/// The fault of the first constant with which the grammar breaks a rule, where it does with all that fill none of its components.
pub fn refuse_breach(
    alloc: Global,
    marks: &[Place],
    grammar: &Grammar,
    constants: &[Placed],
) -> StartFault
    requires named { AreNamed (grammar_view grammar.now) }
    requires faultless { first_fault (grammar_view grammar.now) ≡ None }
    requires names { first_refusal unnamed (map placed_view constants.now) ≡ None }
    requires breaks { (f : GrammarFault)
        × (first_fault (whole_grammar (map place_view marks.now) (grammar_view grammar.now) (map placed_view constants.now)) ≡ Some f) }
    ensures { Tells (breaking (grammar_view grammar.now)
        (additions (map place_view marks.now) (grammar_view grammar.now) (map placed_view constants.now))) result }
{
    match look_at_components(alloc, marks, grammar, constants) {
        Err(fault) => return fault,
        Ok(()) => unreachable!(),
    }
}

/// Looks whether the grammar breaks a rule with one of the constants that fill none, behind those before it.
fn look_at_components(
    alloc: Global,
    marks: &[Place],
    grammar: &Grammar,
    constants: &[Placed],
) -> Result<(), StartFault>
    requires named { AreNamed (grammar_view grammar.now) }
    requires names { first_refusal unnamed (map placed_view constants.now) ≡ None }
    ensures { Finds (first_breach (grammar_view grammar.now)
        (additions (map place_view marks.now) (grammar_view grammar.now) (map placed_view constants.now))) result }
{
    let mut whole = copied(alloc, grammar)?;
    for placed in constants {
        if fills(marks, grammar, &placed.constant) {
            continue;
        }
        look_at_component(alloc, &mut whole, placed)?;
    }
    Ok(())
}

/// Gives the grammar this one's component, and looks whether it breaks a rule with it.
fn look_at_component(alloc: Global, whole: &mut Grammar, placed: &Placed) -> Result<(), StartFault>
    requires named { AreNamed (grammar_view whole.now) }
    requires name { unnamed (placed_view placed.now) ≡ None }
    ensures added { OnOk result (grammar_view whole.new ≡ with_component (grammar_view whole.old) (placed_view placed.now).constant) }
    ensures fault { Finds (broken (with_component (grammar_view whole.old) (placed_view placed.now).constant) (placed_view placed.now)) result }
{
    add_component(alloc, whole, &placed.constant)?;
    look_at_rules(alloc, whole, placed)
}

/// Looks whether the grammar, in which this constant is the last, breaks a rule.
fn look_at_rules(alloc: Global, whole: &Grammar, placed: &Placed) -> Result<(), StartFault>
    requires { AreNamed (grammar_view whole.now) }
    ensures { Finds (broken (grammar_view whole.now) (placed_view placed.now)) result }
{
    match ClassTable::build(alloc, whole) {
        Ok(_) => Ok(()),
        Err(Fault::Memory) => Err(StartFault::Memory),
        Err(Fault::Refused { code, at: _ }) => return Err(breach(placed, code)),
    }
}

/// The fault of the constant with which the grammar breaks that rule.
fn breach(placed: &Placed, code: ClassCode) -> StartFault
    ensures { result ≡ told (breach (placed_view placed.now) (code_view code)) }
{
    let name = placed.constant.name.at;
    match code {
        ClassCode::ComponentTwice => refused(placed, Code::AttributeTwice, name),
        ClassCode::UnknownClass => refused(placed, Code::UnknownName, placed.constant.kind.at),
        ClassCode::Limit => refused(placed, Code::AspectLimit, name),
        ClassCode::NoClass
        | ClassCode::ClassTwice
        | ClassCode::SuperclassCircle
        | ClassCode::TokenKind => refused(placed, Code::AspectSyntax, name),
    }
}

/// Looks whether the classes of all are there, and their terms make trees.
pub fn look_at_terms(
    alloc: Global,
    classes: &ClassTable,
    constants: &[Placed],
) -> Result<(), StartFault>
    ensures { Finds (first_refusal (misshapen classes.now) (map placed_view constants.now)) result }
{
    for placed in constants {
        look_at_term(alloc, classes, placed)?;
    }
    Ok(())
}

/// Looks whether the class of this one is there, and its term makes a tree.
fn look_at_term(alloc: Global, classes: &ClassTable, placed: &Placed) -> Result<(), StartFault>
    ensures { Finds (misshapen classes.now (placed_view placed.now)) result }
{
    let constant = &placed.constant;
    if classes.id_of(constant.class.text.as_str()).is_none() {
        let at = unknown_at(classes, constant);
        return Err(refused(placed, Code::UnknownName, at));
    }
    shape_term(alloc, classes, placed)
}

/// Where it is told that the class of a constant isn't there: at its kind, where that isn't either.
fn unknown_at(classes: &ClassTable, constant: &Constant) -> Place
    ensures { result ≡ unknown_at classes.now (constant_view constant.now) }
{
    if classes.id_of(constant.kind.text.as_str()).is_none() {
        return constant.kind.at;
    }
    if constant.class.text.as_str() == EVERY_NODE {
        return constant.at;
    }
    constant.class.at
}

/// Looks whether the term makes a tree of the kind.
fn shape_term(alloc: Global, classes: &ClassTable, placed: &Placed) -> Result<(), StartFault>
    ensures { Finds (misfit classes.now (placed_view placed.now)) result }
{
    let constant = &placed.constant;
    let Some(kind) = classes.id_of(constant.kind.text.as_str()) else {
        return Err(refused(placed, Code::UnknownName, constant.kind.at));
    };
    match cell_shaped(alloc, classes, &constant.cell, kind) {
        Ok(_) => return Ok(()),
        Err(CellFault::Class) => return Err(refused(placed, Code::UnknownName, constant.at)),
        Err(CellFault::Fit) => return Err(refused(placed, Code::Kind, constant.at)),
        Err(CellFault::Memory) => Err(StartFault::Memory),
    }
}

/// Looks whether the tree of each can stand where it is fixed.
pub fn look_at_trees(
    alloc: Global,
    classes: &ClassTable,
    constants: &[Placed],
) -> Result<(), StartFault>
    ensures { Finds (unstanding classes.now (map placed_view constants.now)) result }
{
    look_at_sizes(alloc, classes, constants)?;
    look_at_circles(alloc, classes, constants)
}

/// Looks whether none is too large.
fn look_at_sizes(
    alloc: Global,
    classes: &ClassTable,
    constants: &[Placed],
) -> Result<(), StartFault>
    ensures { Finds (first_refusal (oversized classes.now) (map placed_view constants.now)) result }
{
    for placed in constants {
        look_at_size(alloc, classes, placed)?;
    }
    Ok(())
}

/// Looks whether this one isn't.
fn look_at_size(alloc: Global, classes: &ClassTable, placed: &Placed) -> Result<(), StartFault>
    ensures { Finds (oversized classes.now (placed_view placed.now)) result }
{
    let constant = &placed.constant;
    let Some(cell) = made_over(alloc, classes, constant)? else {
        return Ok(());
    };
    if is_moderate(&cell) {
        return Ok(());
    }
    Err(refused(placed, Code::AspectLimit, constant.at))
}

/// Looks whether none would stand in itself.
fn look_at_circles(
    alloc: Global,
    classes: &ClassTable,
    constants: &[Placed],
) -> Result<(), StartFault>
    ensures { Finds (first_refusal (encircled classes.now) (map placed_view constants.now)) result }
{
    for placed in constants {
        look_at_circle(alloc, classes, placed)?;
    }
    Ok(())
}

/// Looks whether this one wouldn't, where its class is one.
fn look_at_circle(alloc: Global, classes: &ClassTable, placed: &Placed) -> Result<(), StartFault>
    ensures { Finds (encircled classes.now (placed_view placed.now)) result }
{
    let constant = &placed.constant;
    if classes.id_of(constant.class.text.as_str()).is_none() {
        return Ok(());
    }
    if stands(alloc, classes, constant)? {
        return Ok(());
    }
    Err(refused(placed, Code::AspectFormLeftOut, constant.at))
}
