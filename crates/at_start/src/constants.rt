//! Constants of aspect files: components in which their trees are fixed.

ghost use Rattle.std.specs.Prelude.{◌≡◌, None, map, IfOk};
ghost use Rattle.at_model.specs.Declarations.{AreNamed, classes_of, first_fault};
ghost use Rattle.at_start.specs.ReadGrammar.{IsDeclared};
ghost use Rattle.at_class.specs.Grammar.{grammar_view, place_view};
ghost use Rattle.at_start.specs.Constants.{additions, bare, whole_grammar};
ghost use Rattle.at_start.specs.ConstantFaults.{Finds, barren, breaking, first_refusal, unnamed};
ghost use Rattle.at_start.specs.Planted.{IsPlanted};
ghost use Rattle.at_start.specs.PlacedView.{placed_view};

mod faults;
mod filling;
mod fixing;
mod grammars;
mod shaping;

use crate::fault::StartFault;
use crate::grammar::Declared;
use at_class::ClassTable;
use at_grammar::Grammar;
use at_java::Constant;
use at_text::fault::Fault;
use at_text::place::Place;
use faults::{look_at_names, look_at_terms, look_at_trees, refuse_breach};
use filling::{lacking, look_at_filling};
use fixing::planted;
use grammars::{bare, with_components};
use std::alloc::Global;

/// A constant, and the number of the file in which it stands.
#[derive(Drop)]
pub struct Placed {
    pub file: usize,
    pub constant: Constant,
}

/// The classes that are declared, with a component for each constant that fills none; in those of all their trees are fixed.
///
/// # Errors
///
/// The first fault of the constants, or of a component that none fills. `Memory` for want of memory.
pub fn plant(
    alloc: Global,
    declared: Declared,
    constants: &[Placed],
) -> Result<ClassTable, StartFault>
    requires { IsDeclared declared }
    ensures { IsPlanted (map place_view declared.marks.items) (grammar_view declared.grammar) (map placed_view constants.now) result }
{
    let Declared {
        grammar,
        classes,
        marks,
    } = declared;
    if marks.is_empty() && constants.is_empty() {
        return Ok(classes);
    }
    plant_all(alloc, &marks, &grammar, constants)
}

/// The same, where there are some.
fn plant_all(
    alloc: Global,
    marks: &[Place],
    grammar: &Grammar,
    constants: &[Placed],
) -> Result<ClassTable, StartFault>
    requires named { AreNamed (grammar_view grammar.now) }
    requires faultless { first_fault (grammar_view grammar.now) ≡ None }
    ensures { IsPlanted (map place_view marks.now) (grammar_view grammar.now) (map placed_view constants.now) result }
{
    look_at_names(constants)?;
    let grown = grown(alloc, marks, grammar, constants)?;
    look_at_filling(marks, grammar, constants)?;
    let plain = table_bare(alloc, marks, grammar)?;
    look_at_terms(alloc, &plain, constants)?;
    let Declared {
        grammar: whole,
        classes: first,
        marks: _,
    } = grown;
    let planted = planted(alloc, &whole, first, constants)?;
    look_at_trees(alloc, &planted, constants)?;
    Ok(planted)
}

/// The classes of the grammar without its marked components; or the fault of these, where it breaks a rule without them.
fn table_bare(alloc: Global, marks: &[Place], grammar: &Grammar) -> Result<ClassTable, StartFault>
    requires { AreNamed (grammar_view grammar.now) }
    ensures fault { Finds (barren (map place_view marks.now) (grammar_view grammar.now)) result }
    ensures built { IfOk result (λ t. t ≡ classes_of (bare (map place_view marks.now) (grammar_view grammar.now))) }
{
    let bare = bare(alloc, marks, grammar)?;
    match ClassTable::build(alloc, &bare) {
        Ok(classes) => Ok(classes),
        Err(Fault::Memory) => Err(StartFault::Memory),
        Err(Fault::Refused { code: _, at }) => return Err(lacking(at)),
    }
}

/// The grammar with a component for each constant that fills none, and its classes; or the fault of the first with which it breaks a rule.
fn grown(
    alloc: Global,
    marks: &[Place],
    grammar: &Grammar,
    constants: &[Placed],
) -> Result<Declared, StartFault>
    requires named { AreNamed (grammar_view grammar.now) }
    requires faultless { first_fault (grammar_view grammar.now) ≡ None }
    requires names { first_refusal unnamed (map placed_view constants.now) ≡ None }
    ensures declared { IfOk result IsDeclared }
    ensures grown { IfOk result (λ d. grammar_view d.grammar
        ≡ whole_grammar (map place_view marks.now) (grammar_view grammar.now) (map placed_view constants.now)) }
    ensures fault { Finds (breaking (grammar_view grammar.now)
        (additions (map place_view marks.now) (grammar_view grammar.now) (map placed_view constants.now))) result }
{
    let whole = with_components(alloc, marks, grammar, constants)?;
    match ClassTable::build(alloc, &whole) {
        Ok(classes) => Ok(Declared {
            grammar: whole,
            classes,
            marks: Vec::new(alloc),
        }),
        Err(Fault::Memory) => Err(StartFault::Memory),
        Err(Fault::Refused { code: _, at: _ }) => {
            return Err(refuse_breach(alloc, marks, grammar, constants));
        }
    }
}
