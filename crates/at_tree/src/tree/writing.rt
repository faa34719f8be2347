ghost use Rattle.std.specs.Prelude.{◌≡◌, [], ◌∷◌, ◌++◌, OnOk, OnErr, map};
ghost use Rattle.at_model.specs.Classes.{name_of, parts};
ghost use Rattle.at_model.specs.Terms.{tree_text, cell_text, cell_of, token_text};
ghost use Rattle.at_model.specs.Trees.{Many, to_trees};
ghost use Rattle.at_tree.specs.Appending.{Appends};
ghost use Rattle.at_class.specs.Token.{token_view};
ghost use Rattle.at_class.specs.TreeView.{tree_view, cell_view};
ghost use Rattle.at_class.specs.View.{part_view};
ghost use Rattle.at_tree.specs.Fixed.{is_fixed_at};
ghost use Rattle.at_tree.specs.Separated.{separator};

use super::{Cell, Tree};
use at_class::token::TokVal;
use at_class::{ClassId, ClassTable, Part};
use at_text::decimal::write_int;
use at_text::quoted::write_quoted;
use std::alloc::AllocError;

/// Appends the text of the tree. A class number that is none of the table's has no name: such a tree fits nowhere. Where memory is
/// wanting, the output stays as it was.
pub fn write_term(classes: &ClassTable, tree: &Tree, out: &mut Vec<u8>) -> Result<(), AllocError>
    ensures ok { OnOk result (out.new.items ≡ out.old.items ++ tree_text classes.now (tree_view tree.now)) }
    ensures err { OnErr result (out.new.items ≡ out.old.items) }
{
    let len = out.len();
    let written = append_tree(classes, tree, out);
    if written.is_err() {
        out.truncate(len);
    }
    written
}

fn name_or_none(classes: &ClassTable, class: ClassId) -> &str
    ensures { result.now ≡ name_of classes.now class }
{
    if class.index() >= classes.len() {
        return "";
    }
    classes.name_of(class)
}

/// The components of the class, none where its number is none of the table's.
pub fn parts_or_none(classes: &ClassTable, class: ClassId) -> &[Part]
    ensures { map part_view result.now ≡ parts classes.now class }
{
    if class.index() >= classes.len() {
        return &[];
    }
    classes.parts(class)
}

/// Whether the component at that position is there and fixed: of such a one nothing is written.
pub fn is_fixed(parts: &[Part], i: usize) -> bool
    ensures { result ≡ is_fixed_at (map part_view parts.now) i }
{
    match parts.get(i) {
        None => false,
        Some(part) => part.fixed.is_some(),
    }
}

/// Appends a comma before each element but the first. Where memory is wanting, nothing is.
pub fn separate(i: usize, out: &mut Vec<u8>) -> Result<(), AllocError>
    ensures { Appends (separator i) result out.old.items out.new.items }
{
    if i == 0 {
        return Ok(());
    }
    Ok(out.push(b',')?)
}

/// Appends a class's name, none where its number is none of the table's, and a parenthesis. Where memory is wanting, a part may
/// be appended.
pub fn open(classes: &ClassTable, class: ClassId, out: &mut Vec<u8>) -> Result<(), AllocError>
    ensures { Appends (name_of classes.now class ++ 40 ∷ []) result out.old.items out.new.items }
{
    out.extend_from_slice(name_or_none(classes, class).as_bytes())?;
    Ok(out.push(b'(')?)
}

/// Appends the text of the value. Where memory is wanting, a part may be appended.
pub fn append_value(value: &TokVal, out: &mut Vec<u8>) -> Result<(), AllocError>
    ensures { Appends (token_text (token_view value.now)) result out.old.items out.new.items }
{
    match value {
        TokVal::Str(text) => write_quoted(text.as_str(), out),
        TokVal::Short(text, _) => write_quoted(text.as_str(), out),
        TokVal::Int(n) => write_int(i64::from(*n), out),
        TokVal::Bool(true) => out.extend_from_slice(b"true"),
        TokVal::Bool(false) => out.extend_from_slice(b"false"),
    }
}

// Appends the text. Where memory is wanting, it may have appended a part of it.
#[cycle(append)]
fn append_tree(classes: &ClassTable, tree: &Tree, out: &mut Vec<u8>) -> Result<(), AllocError>
    ensures { Appends (tree_text classes.now (tree_view tree.now)) result out.old.items out.new.items }
{
    open(classes, tree.class, out)?;
    let parts = parts_or_none(classes, tree.class);
    let mut written = 0;
    for (i, cell) in tree.cells.iter().enumerate() {
        if is_fixed(parts, i) {
            continue;
        }
        separate(written, out)?;
        append_cell(classes, cell, out)?;
        written += 1;
    }
    Ok(out.push(b')')?)
}

#[cycle(append)]
fn append_cell(classes: &ClassTable, cell: &Cell, out: &mut Vec<u8>) -> Result<(), AllocError>
    ensures { Appends (cell_text (cell_of classes.now (cell_view cell.now))) result out.old.items out.new.items }
{
    match cell {
        Cell::One(tree) => append_tree(classes, tree, out),
        Cell::Many(trees) => append_list(classes, trees, out),
        Cell::Filled(tree) => append_tree(classes, tree, out),
        Cell::Empty => Ok(out.push(b'-')?),
        Cell::Tok(value) => append_value(value, out),
    }
}

#[cycle(append)]
fn append_list(classes: &ClassTable, trees: &[Tree], out: &mut Vec<u8>) -> Result<(), AllocError>
    ensures { Appends (cell_text (cell_of classes.now (Many (to_trees (map tree_view trees.now))))) result out.old.items out.new.items }
{
    out.push(b'[')?;
    for (i, tree) in trees.iter().enumerate() {
        separate(i, out)?;
        append_tree(classes, tree, out)?;
    }
    Ok(out.push(b']')?)
}
