//! The nodes that an edit takes away, listed.
ghost use Rattle.std.specs.Prelude.{◌≡◌, IfOk, OnOk};
ghost use Rattle.at_store.specs.Leaving.{AreAllBelow, AreListedBelow, AreListedUpTo, taken_by};
ghost use Rattle.at_store.specs.View.{memory_of};

use crate::edit::Edit;
use crate::entry::{Entry, kid_at, kids_at, slots_at};
use crate::node::Node;
use at_tree::reader::MAX_DEPTH;
use slab::Slab;
use std::alloc::{AllocError, Global};

/// Lists a node and what is below it, so many levels down.
#[cycle(list)]
fn list(
    slab: &Slab<Entry>,
    node: Node,
    levels: usize,
    all: &mut Vec<Node>,
) -> Result<(), AllocError>
    ensures { OnOk result (AreListedBelow node levels (memory_of slab.now) all.old.items all.new.items) }
{
    all.push(node)?;
    if levels == 0 {
        return Ok(());
    }
    for part in 0..slots_at(slab, node).len() {
        list_slot(slab, node, part, levels - 1, all)?;
    }
    Ok(())
}

#[cycle(list)]
fn list_slot(
    slab: &Slab<Entry>,
    node: Node,
    part: usize,
    levels: usize,
    all: &mut Vec<Node>,
) -> Result<(), AllocError>
    ensures { OnOk result (AreListedUpTo node part levels (memory_of slab.now) all.old.items all.new.items) }
{
    for index in 0..kids_at(slab, node, part).len() {
        if let Some(kid) = kid_at(slab, node, part, index) {
            list(slab, kid, levels, all)?;
        }
    }
    Ok(())
}

/// The node that an edit takes away, with all below it.
fn taken(edit: &Edit) -> Option<Node>
    ensures { result ≡ taken_by edit.now }
{
    match edit {
        Edit::Set { node, .. } => Some(*node),
        Edit::Drop { node } => Some(*node),
        _ => None,
    }
}

/// The nodes that an edit takes away, or want of memory.
pub(crate) fn leaving(
    alloc: Global,
    slab: &Slab<Entry>,
    edit: &Edit,
) -> Result<Vec<Node>, AllocError>
    ensures { IfOk result (λ all. AreAllBelow (taken_by edit.now) (memory_of slab.now) all.items) }
{
    let mut all = Vec::new(alloc);
    if let Some(node) = taken(edit) {
        list(slab, node, MAX_DEPTH, &mut all)?;
    }
    Ok(all)
}
