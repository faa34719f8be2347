//! How trees come into the slab and out of it.
ghost use Rattle.std.specs.Prelude.{◌≡◌, ◌≤◌, ℕ, Option, IfOk, OnErr, OnOk, [], ◌∷◌, ◌++◌, map, take};
ghost use Rattle.slab.specs.Slab.{slab_len};
ghost use Rattle.at_model.specs.Edits.{changed_at};
ghost use Rattle.at_model.specs.Trees.{Many, Tree as Numbered, class_of, to_trees};
ghost use Rattle.at_tree.specs.TreeView.{cell_view, tree_view};
ghost use Rattle.at_store.specs.Held.{held};
ghost use Rattle.at_store.specs.Memory.{IsCellFreed, IsFreed, Kids, with_numbers};
ghost use Rattle.at_store.specs.Planting.{GainsCell, GainsTree, IsAdded, IsAsBefore, IsPlanted, IsPushed, IsPushedKid, StaysPlanted, holding};
ghost use Rattle.at_store.specs.Writing.{Pushes};
ghost use Rattle.at_store.specs.View.{MarksNoMore, form_view, kept_view, stored_of, viewed};

use crate::components::{Components, Row};
use crate::entry::{Children, Entry, Form, Slot, small, small_index, small_place};
use crate::node::Node;
use at_class::ClassId;
use at_tree::tree::{Cell, Tree};
use slab::Slab;
use std::alloc::{AllocError, Global};

/// Takes a node and all below it out of the slab.
#[cycle(free)]
pub(crate) fn free(slab: &mut Slab<Entry>, node: Node)
    ensures fewer { slab_len slab.new ≤ slab_len slab.old }
    ensures freed { (f : ℕ → Option (ℕ × ℕ) → ℕ → ℕ) → IsFreed node (viewed f slab.old) (viewed f slab.new) }
    ensures marks { MarksNoMore slab.old slab.new }
{
    if let Some(entry) = slab.try_remove(node.index()) {
        for slot in entry.cells.as_slice() {
            free_slot(slab, slot);
        }
    }
}

#[cycle(free)]
fn free_slot(slab: &mut Slab<Entry>, slot: &Slot)
    ensures fewer { slab_len slab.new ≤ slab_len slab.old }
    ensures freed { (f : ℕ → Option (ℕ × ℕ) → ℕ → ℕ) → IsCellFreed (kept_view slot.now) (viewed f slab.old) (viewed f slab.new) }
    ensures marks { MarksNoMore slab.old slab.new }
{
    if let Slot::Kids(_, _, kids) = slot {
        for kid in kids.as_slice() {
            free(slab, *kid);
        }
    }
}

/// A node with no component yet, and room for so many.
fn add(
    alloc: Global,
    slab: &mut Slab<Entry>,
    class: ClassId,
    up: Option<(Node, usize)>,
    index: usize,
    parts: usize,
) -> Result<Node, AllocError>
    ensures { Pushes (IfOk result (λ node. IsAdded node class (up, index) (stored_of slab.old) (stored_of slab.new))) result slab.old slab.new }
{
    let Some(node) = Node::of(slab.vacant_key()) else {
        return Err(AllocError)
    };
    let entry = Entry {
        class: small(class.index())?,
        leaves: false,
        up: small_place(up)?,
        number: small_index(index)?,
        cells: Components::with_room(alloc, parts)?,
    };
    slab.insert(entry)?;
    Ok(node)
}

/// One more component of a node.
fn push_slot(slab: &mut Slab<Entry>, node: Node, slot: Slot) -> Result<(), AllocError>
    ensures { Pushes (OnOk result (IsPushed node (kept_view slot) (stored_of slab.old) (stored_of slab.new))) result slab.old slab.new }
{
    if let Some(entry) = slab.get_mut(node.index()) {
        entry.cells.push(slot)?;
    }
    Ok(())
}

fn push_in_slot(slot: &mut Slot, kid: Node) -> Result<(), AllocError>
    ensures pushed { OnOk result (kept_view slot.new ≡ with_numbers (λ ns. ns ++ kid ∷ []) (kept_view slot.old)) }
    ensures kept { OnErr result (kept_view slot.new ≡ kept_view slot.old) }
{
    if let Slot::Kids(_, _, kids) = slot {
        kids.push(kid)?;
    }
    Ok(())
}

// The slot is written where it stands: to take it out and put it back for each child costs loading 3 in 100 instructions.
fn push_in_row<const N: usize>(
    row: &mut Row<N>,
    count: u8,
    part: usize,
    kid: Node,
) -> Result<(), AllocError>
    ensures pushed { OnOk result (map kept_view (take count row.new.places)
        ≡ changed_at (with_numbers (λ ns. ns ++ kid ∷ [])) (map kept_view (take count row.old.places)) part) }
    ensures kept { OnErr result (map kept_view (take count row.new.places) ≡ map kept_view (take count row.old.places)) }
{
    if part >= count as usize {
        return Err(AllocError);
    }
    if part >= N {
        return Err(AllocError);
    }
    push_in_slot(&mut row.places[part], kid)
}

fn push_in_list(slots: &mut Vec<Slot>, part: usize, kid: Node) -> Result<(), AllocError>
    ensures pushed { OnOk result (map kept_view slots.new.items ≡ changed_at (with_numbers (λ ns. ns ++ kid ∷ [])) (map kept_view slots.old.items) part) }
    ensures kept { OnErr result (map kept_view slots.new.items ≡ map kept_view slots.old.items) }
{
    if let Some(slot) = slots.get_mut(part) {
        push_in_slot(slot, kid)?;
    }
    Ok(())
}

fn push_in_cells(cells: &mut Components, part: usize, kid: Node) -> Result<(), AllocError>
    ensures pushed { OnOk result (map kept_view (held cells.new) ≡ changed_at (with_numbers (λ ns. ns ++ kid ∷ [])) (map kept_view (held cells.old)) part) }
    ensures kept { OnErr result (map kept_view (held cells.new) ≡ map kept_view (held cells.old)) }
{
    match cells {
        Components::None => Err(AllocError),
        Components::One(count, row) => push_in_row(row, *count, part, kid),
        Components::Two(count, row) => push_in_row(row, *count, part, kid),
        Components::Three(count, row) => push_in_row(row, *count, part, kid),
        Components::Four(count, row) => push_in_row(row, *count, part, kid),
        Components::More(slots) => push_in_list(slots, part, kid),
    }
}

/// One more child in a component of a node.
fn push_kid(slab: &mut Slab<Entry>, node: Node, part: usize, kid: Node) -> Result<(), AllocError>
    ensures { Pushes (OnOk result (IsPushedKid node part kid (stored_of slab.old) (stored_of slab.new))) result slab.old slab.new }
{
    if let Some(entry) = slab.get_mut(node.index()) {
        push_in_cells(&mut entry.cells, part, kid)?;
    }
    Ok(())
}

/// One more component of a node, in which this child stands.
fn push_filled(
    alloc: Global,
    slab: &mut Slab<Entry>,
    node: Node,
    form: Form,
    kid: Node,
) -> Result<(), AllocError>
    ensures { Pushes (OnOk result (IsPushed node (Kids (form_view form) (kid ∷ [])) (stored_of slab.old) (stored_of slab.new))) result slab.old slab.new }
{
    let mut kids = Children::new(alloc);
    kids.push(kid)?;
    push_slot(slab, node, Slot::Kids(form, 0, kids))
}

/// Plants a tree's nodes under new numbers: the number of its root. What the tree holds of memory is given back node by
/// node, and its texts are kept. Where memory is wanting, all is taken out again.
#[cycle(plant)]
pub(crate) fn plant(
    alloc: Global,
    slab: &mut Slab<Entry>,
    up: Option<(Node, usize)>,
    index: usize,
    tree: Tree,
) -> Result<Node, AllocError>
    ensures planted { IfOk result (λ node. (w : Numbered) × (class_of w ≡ node)
        × IsPlanted (stored_of slab.old) (stored_of slab.new) (up, index) (tree_view tree) w) }
    ensures kept { OnErr result (IsAsBefore (stored_of slab.old) (stored_of slab.new)) }
    ensures marks { MarksNoMore slab.old slab.new }
{
    let Tree { class, cells } = tree;
    let node = add(alloc, slab, class, up, index, cells.len())?;
    for (part, cell) in cells.into_iter().enumerate() {
        if let Err(error) = plant_cell(alloc, slab, node, part, cell) {
            free(slab, node);
            return Err(error);
        }
    }
    Ok(node)
}

/// Plants what a component holds as the next one of a node. Where memory is wanting, a part of it may stay.
#[cycle(plant)]
fn plant_cell(
    alloc: Global,
    slab: &mut Slab<Entry>,
    node: Node,
    part: usize,
    cell: Cell,
) -> Result<(), AllocError>
    ensures planted { OnOk result (GainsCell node part (cell_view cell) (stored_of slab.old) (stored_of slab.new)) }
    ensures stays { OnErr result (StaysPlanted node part (stored_of slab.old) (stored_of slab.new)) }
    ensures marks { MarksNoMore slab.old slab.new }
{
    match cell {
        Cell::One(tree) => plant_child(alloc, slab, node, part, Form::Plain, tree),
        Cell::Many(trees) => plant_list(alloc, slab, node, part, trees),
        Cell::Empty => push_slot(
            slab,
            node,
            Slot::Kids(Form::Optional, 0, Children::new(alloc)),
        ),
        Cell::Filled(tree) => plant_child(alloc, slab, node, part, Form::Optional, tree),
        Cell::Tok(value) => push_slot(slab, node, Slot::Token(value)),
    }
}

#[cycle(plant)]
fn plant_child(
    alloc: Global,
    slab: &mut Slab<Entry>,
    node: Node,
    part: usize,
    form: Form,
    tree: Tree,
) -> Result<(), AllocError>
    ensures planted { OnOk result (GainsCell node part (holding (form_view form) (tree_view tree)) (stored_of slab.old) (stored_of slab.new)) }
    ensures kept { OnErr result (IsAsBefore (stored_of slab.old) (stored_of slab.new)) }
    ensures marks { MarksNoMore slab.old slab.new }
{
    let kid = plant(alloc, slab, Some((node, part)), 0, tree)?;
    if let Err(error) = push_filled(alloc, slab, node, form, kid) {
        free(slab, kid);
        return Err(error);
    }
    Ok(())
}

#[cycle(plant)]
fn plant_list(
    alloc: Global,
    slab: &mut Slab<Entry>,
    node: Node,
    part: usize,
    trees: Vec<Tree>,
) -> Result<(), AllocError>
    ensures planted { OnOk result (GainsCell node part (Many (to_trees (map tree_view trees.items))) (stored_of slab.old) (stored_of slab.new)) }
    ensures stays { OnErr result (StaysPlanted node part (stored_of slab.old) (stored_of slab.new)) }
    ensures marks { MarksNoMore slab.old slab.new }
{
    let kids = Children::with_capacity(alloc, trees.len())?;
    push_slot(slab, node, Slot::Kids(Form::List, 0, kids))?;
    for (index, tree) in trees.into_iter().enumerate() {
        plant_element(alloc, slab, node, part, index, tree)?;
    }
    Ok(())
}

#[cycle(plant)]
fn plant_element(
    alloc: Global,
    slab: &mut Slab<Entry>,
    node: Node,
    part: usize,
    index: usize,
    tree: Tree,
) -> Result<(), AllocError>
    ensures planted { OnOk result (GainsTree node part index (tree_view tree) (stored_of slab.old) (stored_of slab.new)) }
    ensures kept { OnErr result (IsAsBefore (stored_of slab.old) (stored_of slab.new)) }
    ensures marks { MarksNoMore slab.old slab.new }
{
    let kid = plant(alloc, slab, Some((node, part)), index, tree)?;
    if let Err(error) = push_kid(slab, node, part, kid) {
        free(slab, kid);
        return Err(error);
    }
    Ok(())
}
