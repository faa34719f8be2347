//! The text of the tree below a node, written as the nodes are gone over; what is fixed is left out.
ghost use Rattle.std.specs.Prelude.{◌≡◌, ◌++◌, OnErr, OnOk, length, map, take};
ghost use Rattle.at_model.specs.Terms.{cell_of, cell_text, tree_text};
ghost use Rattle.at_model.specs.Trees.{Many, to_trees};
ghost use Rattle.at_store.specs.Grown.{grown_cell, shown_below};
ghost use Rattle.at_store.specs.Memory.{Kids, Optional};
ghost use Rattle.at_store.specs.View.{form_view, kept_view, memory_of};

use crate::entry::{Entry, Form, Slot, class_at, slots_at};
use crate::node::Node;
use at_class::ClassTable;
use at_tree::tree::writing::{append_value, is_fixed, open, parts_or_none, separate};
use slab::Slab;
use std::alloc::AllocError;

/// Appends the text of the tree below a node, so many levels down. Where memory is wanting, the output stays as it was.
pub(crate) fn write_tree(
    slab: &Slab<Entry>,
    classes: &ClassTable,
    node: Node,
    levels: usize,
    out: &mut Vec<u8>,
) -> Result<(), AllocError>
    ensures ok { OnOk result (out.new.items ≡ out.old.items ++ tree_text classes.now (shown_below (memory_of slab.now) levels node)) }
    ensures err { OnErr result (out.new.items ≡ out.old.items) }
{
    let len = out.len();
    let written = append_tree(slab, classes, node, levels, out);
    if written.is_err() {
        out.truncate(len);
    }
    written
}

/// Appends the text. Where memory is wanting, it may have appended a part of it.
#[cycle(append)]
fn append_tree(
    slab: &Slab<Entry>,
    classes: &ClassTable,
    node: Node,
    levels: usize,
    out: &mut Vec<u8>,
) -> Result<(), AllocError>
    ensures ok { OnOk result (out.new.items ≡ out.old.items ++ tree_text classes.now (shown_below (memory_of slab.now) levels node)) }
    ensures err { OnErr result (take (length out.old.items) out.new.items ≡ out.old.items) }
{
    let class = class_at(slab, node);
    open(classes, class, out)?;
    if levels == 0 {
        return Ok(out.push(b')')?);
    }
    let parts = parts_or_none(classes, class);
    let mut count = 0;
    for (i, slot) in slots_at(slab, node).iter().enumerate() {
        if is_fixed(parts, i) {
            continue;
        }
        separate(count, out)?;
        append_slot(slab, classes, slot, levels - 1, out)?;
        count += 1;
    }
    Ok(out.push(b')')?)
}

#[cycle(append)]
fn append_slot(
    slab: &Slab<Entry>,
    classes: &ClassTable,
    slot: &Slot,
    levels: usize,
    out: &mut Vec<u8>,
) -> Result<(), AllocError>
    ensures ok { OnOk result (out.new.items
        ≡ out.old.items ++ cell_text (cell_of classes.now (grown_cell (shown_below (memory_of slab.now) levels) (kept_view slot.now)))) }
    ensures err { OnErr result (take (length out.old.items) out.new.items ≡ out.old.items) }
{
    match slot {
        Slot::Token(value) => append_value(value, out),
        Slot::Kids(form, _, kids) => append_kids(
            slab,
            classes,
            *form,
            kids.as_slice(),
            levels,
            out,
        ),
    }
}

#[cycle(append)]
fn append_kids(
    slab: &Slab<Entry>,
    classes: &ClassTable,
    form: Form,
    kids: &[Node],
    levels: usize,
    out: &mut Vec<u8>,
) -> Result<(), AllocError>
    ensures ok { OnOk result (out.new.items
        ≡ out.old.items ++ cell_text (cell_of classes.now (grown_cell (shown_below (memory_of slab.now) levels) (Kids (form_view form) kids.now)))) }
    ensures err { OnErr result (take (length out.old.items) out.new.items ≡ out.old.items) }
{
    match form {
        Form::List => append_list(slab, classes, kids, levels, out),
        Form::Plain => append_kid(slab, classes, kids, levels, out),
        Form::Optional => append_kid(slab, classes, kids, levels, out),
    }
}

/// Appends the text of the first tree, or the sign that there is none.
#[cycle(append)]
fn append_kid(
    slab: &Slab<Entry>,
    classes: &ClassTable,
    kids: &[Node],
    levels: usize,
    out: &mut Vec<u8>,
) -> Result<(), AllocError>
    ensures ok { OnOk result (out.new.items
        ≡ out.old.items ++ cell_text (cell_of classes.now (grown_cell (shown_below (memory_of slab.now) levels) (Kids Optional kids.now)))) }
    ensures err { OnErr result (take (length out.old.items) out.new.items ≡ out.old.items) }
{
    match kids.first() {
        Some(kid) => append_tree(slab, classes, *kid, levels, out),
        None => Ok(out.push(b'-')?),
    }
}

#[cycle(append)]
fn append_list(
    slab: &Slab<Entry>,
    classes: &ClassTable,
    kids: &[Node],
    levels: usize,
    out: &mut Vec<u8>,
) -> Result<(), AllocError>
    ensures ok { OnOk result (out.new.items
        ≡ out.old.items ++ cell_text (cell_of classes.now (Many (to_trees (map (shown_below (memory_of slab.now) levels) kids.now))))) }
    ensures err { OnErr result (take (length out.old.items) out.new.items ≡ out.old.items) }
{
    out.push(b'[')?;
    for (i, kid) in kids.iter().enumerate() {
        separate(i, out)?;
        append_tree(slab, classes, *kid, levels, out)?;
    }
    Ok(out.push(b']')?)
}
