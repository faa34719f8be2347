//! Classes in which the trees of constants are fixed.

ghost use Rattle.std.specs.Prelude.{◌≡◌, ◌++◌, ◌∷◌, [], None, filter_map, length, map, option_map, IfOk, IsTrue, OnOk};
ghost use Rattle.at_model.specs.Declarations.{AreNamed, classes_of, first_fault};
ghost use Rattle.at_model.specs.WellFormed.{IsHierarchy};
ghost use Rattle.at_class.specs.Fixing.{fixed_as, fixed_view};
ghost use Rattle.at_class.specs.Grammar.{grammar_view};
ghost use Rattle.at_start.specs.Constants.{fix_over, fixes_over, level};
ghost use Rattle.at_start.specs.PlacedView.{placed_view};

use super::Placed;
use super::grammars::place_in;
use super::shaping::cell_over;
use at_class::{ClassId, ClassTable, Fixed};
use at_grammar::Grammar;
use at_text::fault::Fault;
use std::alloc::{AllocError, Global};

/// The classes of the grammar, in which the trees of the constants are fixed. The first table is that of the grammar.
pub fn planted(
    alloc: Global,
    grammar: &Grammar,
    first: ClassTable,
    constants: &[Placed],
) -> Result<ClassTable, AllocError>
    requires named { AreNamed (grammar_view grammar.now) }
    requires faultless { first_fault (grammar_view grammar.now) ≡ None }
    requires first { first ≡ classes_of (grammar_view grammar.now) }
    requires hierarchy { IsHierarchy first }
    ensures { IfOk result (λ t. (t ≡ level (grammar_view grammar.now) (map placed_view constants.now) (length constants.now)) × IsHierarchy t) }
{
    let mut classes = first;
    let mut fixed = Vec::new(alloc);
    for step in 0..constants.len() {
        let next = fixes_over(alloc, &classes, grammar, constants)?;
        // Further levels are the same.
        if are_same(&fixed, &next) {
            return Ok(classes);
        }
        classes = table_fixed(alloc, grammar, &next)?;
        fixed = next;
    }
    Ok(classes)
}

/// The classes of the grammar, in which this is fixed; or want of memory.
fn table_fixed(alloc: Global, grammar: &Grammar, fixed: &[Fixed]) -> Result<ClassTable, AllocError>
    requires named { AreNamed (grammar_view grammar.now) }
    requires faultless { first_fault (grammar_view grammar.now) ≡ None }
    ensures built { IfOk result (λ t. t ≡ fixed_as (map fixed_view fixed.now) (classes_of (grammar_view grammar.now))) }
    ensures hierarchy { IfOk result IsHierarchy }
{
    match ClassTable::build_fixed(alloc, grammar, fixed) {
        Ok(classes) => Ok(classes),
        Err(Fault::Memory) => Err(AllocError),
        // The grammar breaks no rule.
        Err(Fault::Refused { code: _, at: _ }) => unreachable!(),
    }
}

/// What is fixed over the classes below; or want of memory.
fn fixes_over(
    alloc: Global,
    below: &ClassTable,
    grammar: &Grammar,
    constants: &[Placed],
) -> Result<Vec<Fixed>, AllocError>
    ensures { IfOk result (λ v. map fixed_view v.items ≡ fixes_over below.now (grammar_view grammar.now) (map placed_view constants.now)) }
{
    let mut fixes = Vec::new(alloc);
    for placed in constants {
        append_fix(alloc, below, grammar, placed, &mut fixes)?;
    }
    Ok(fixes)
}

/// Adds what is fixed in the constant's component, if anything is; or want of memory.
fn append_fix(
    alloc: Global,
    below: &ClassTable,
    grammar: &Grammar,
    placed: &Placed,
    fixes: &mut Vec<Fixed>,
) -> Result<(), AllocError>
    ensures { OnOk result (map fixed_view fixes.new.items
        ≡ map fixed_view fixes.old.items ++ filter_map (fix_over below.now (grammar_view grammar.now)) (placed_view placed.now ∷ [])) }
{
    let Some(fix) = fix_over(alloc, below, grammar, placed)? else {
        return Ok(());
    };
    fixes.push(fix)?;
    Ok(())
}

/// What is fixed in the constant's component; or want of memory.
fn fix_over(
    alloc: Global,
    below: &ClassTable,
    grammar: &Grammar,
    placed: &Placed,
) -> Result<Option<Fixed>, AllocError>
    ensures { IfOk result (λ o. option_map fixed_view o ≡ fix_over below.now (grammar_view grammar.now) (placed_view placed.now)) }
{
    let Some((class, part)) = place_in(grammar, &placed.constant) else {
        return Ok(None);
    };
    let Some(cell) = cell_over(alloc, below, &placed.constant)? else {
        return Ok(None);
    };
    Ok(Some(Fixed {
        class: ClassId::new(class),
        part,
        cell,
    }))
}

/// Whether they are the same.
fn are_same(fixes: &[Fixed], others: &[Fixed]) -> bool
    ensures { IsTrue result → map fixed_view fixes.now ≡ map fixed_view others.now }
{
    if fixes.len() != others.len() {
        return false;
    }
    for (i, fix) in fixes.iter().enumerate() {
        if !is_same(fix, &others[i]) {
            return false;
        }
    }
    true
}

fn is_same(fix: &Fixed, other: &Fixed) -> bool
    ensures { IsTrue result → fixed_view fix.now ≡ fixed_view other.now }
{
    if fix.class != other.class {
        return false;
    }
    if fix.part != other.part {
        return false;
    }
    fix.cell.is_same(&other.cell)
}
