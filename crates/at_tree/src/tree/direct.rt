//! A tree in one pass over its text, with no term in between.
ghost use Rattle.std.specs.Prelude.{◌≡◌, ◌++◌, IfOk, OnOk, map, true};
ghost use Rattle.at_model.specs.Classes.{AreSound, Many, Maybe};
ghost use Rattle.at_model.specs.Trees.{cell_conforms, to_cells, to_trees};
ghost use Rattle.at_model.specs.Trees as tree;
ghost use Rattle.at_class.specs.View.{part_view, shape_view};
ghost use Rattle.at_class.specs.TreeView.{tree_view, cell_view};
ghost use Rattle.at_tree.specs.Separated.{separator};
ghost use Rattle.at_tree.specs.ReadTrees.{IsReadAs};
ghost use Rattle.at_tree.specs.Fronts.{IsTreeFront, IsCellFront, AreCellsFront};

use super::conforming::cell_fits;
use super::front::{Front, take, take_class, take_value, takes};
use super::{Cell, Tree};
use crate::fault::{Misfit, Untaken};
use crate::reader::MAX_DEPTH;
use at_class::{ClassId, ClassTable, Part, PartShape};
use std::alloc::Global;

/// The tree that conforms under the class and that the whole text is written of. What isn't read so may still be a
/// term's text, of which `read_term` and `shape` tell why there is no tree.
pub(super) fn whole_tree(
    alloc: Global,
    classes: &ClassTable,
    text: &str,
    under: ClassId,
) -> Result<Tree, Untaken>
    ensures found { IfOk result (λ t. IsReadAs classes.now text.now under (tree_view t)) }
    ensures sound { OnOk result (AreSound classes.now) }
{
    let mut front = Front { rest: text };
    let tree = take_tree(alloc, classes, &mut front, under, MAX_DEPTH)?;
    if front.rest.is_empty() {
        Ok(tree)
    } else {
        Err(Untaken::For(Misfit::Form))
    }
}

/// Takes the tree of at most so many levels that conforms under the class, and whose text stands at the front.
#[cycle(take)]
pub(super) fn take_tree(
    alloc: Global,
    classes: &ClassTable,
    front: &mut Front<'_>,
    under: ClassId,
    levels: usize,
) -> Result<Tree, Untaken>
    ensures front { IfOk result (λ t. IsTreeFront classes.now front.old.rest.now front.new.rest.now under levels (tree_view t)) }
    ensures sound { OnOk result (AreSound classes.now) }
{
    if levels == 0 {
        return Err(Untaken::For(Misfit::Form));
    }
    let class = take_class(classes, front, under)?;
    let cells = take_cells(alloc, classes, front, classes.parts(class), levels - 1)?;
    Ok(Tree { class, cells })
}

/// A copy of what is fixed in a component, where it is of the shape.
fn plant(
    alloc: Global,
    classes: &ClassTable,
    fixed: &Cell,
    shape: PartShape,
) -> Result<Cell, Untaken>
    ensures fits { IfOk result (λ c. cell_conforms classes.now (cell_view c) (shape_view shape) ≡ true) }
    ensures same { IfOk result (λ c. cell_view c ≡ cell_view fixed.now) }
{
    if !cell_fits(classes, fixed, shape) {
        return Err(Untaken::For(Misfit::Form));
    }
    Ok(fixed.copied(alloc)?)
}

/// Takes a cell for each component that isn't fixed, and the parenthesis behind them. In the others stands what is fixed there.
#[cycle(take)]
fn take_cells(
    alloc: Global,
    classes: &ClassTable,
    front: &mut Front<'_>,
    parts: &[Part],
    levels: usize,
) -> Result<Vec<Cell>, Untaken>
    ensures { IfOk result
        (λ cells. AreCellsFront classes.now front.old.rest.now front.new.rest.now (map part_view parts.now) levels (to_cells (map cell_view cells.items))) }
{
    let mut cells = Vec::with_capacity(alloc, parts.len())?;
    let mut taken = 0;
    for part in parts {
        if let Some(fixed) = &part.fixed {
            cells.push(plant(alloc, classes, fixed, part.shape)?)?;
            continue;
        }
        take_separator(front, taken)?;
        let cell = take_cell(alloc, classes, front, part.shape, levels)?;
        cells.push(cell)?;
        taken += 1;
    }
    take(front, ')')?;
    Ok(cells)
}

/// Takes the comma before each element but the first.
fn take_separator(front: &mut Front<'_>, i: usize) -> Result<(), Untaken>
    ensures { OnOk result (front.old.rest.now ≡ separator i ++ front.new.rest.now) }
{
    if i == 0 {
        return Ok(());
    }
    take(front, ',')
}

/// Takes what a component of the shape holds.
#[cycle(take)]
fn take_cell(
    alloc: Global,
    classes: &ClassTable,
    front: &mut Front<'_>,
    shape: PartShape,
    levels: usize,
) -> Result<Cell, Untaken>
    ensures { IfOk result (λ cell. IsCellFront classes.now front.old.rest.now front.new.rest.now (shape_view shape) levels (cell_view cell)) }
{
    match shape {
        PartShape::One(class) => Ok(Cell::One(take_tree(alloc, classes, front, class, levels)?)),
        PartShape::Many(class) => Ok(Cell::Many(take_list(alloc, classes, front, class, levels)?)),
        PartShape::Maybe(class) => take_optional(alloc, classes, front, class, levels),
        PartShape::Tok(kind) => Ok(Cell::Tok(take_value(alloc, front, kind)?)),
    }
}

/// Takes what an optional component holds: a tree, or the sign that there is none.
#[cycle(take)]
fn take_optional(
    alloc: Global,
    classes: &ClassTable,
    front: &mut Front<'_>,
    under: ClassId,
    levels: usize,
) -> Result<Cell, Untaken>
    ensures { IfOk result (λ held. IsCellFront classes.now front.old.rest.now front.new.rest.now (Maybe under) levels (cell_view held)) }
{
    if takes(front, '-') {
        return Ok(Cell::Empty);
    }
    let tree = take_tree(alloc, classes, front, under, levels)?;
    Ok(Cell::Filled(tree))
}

/// Takes the trees of a list between brackets.
#[cycle(take)]
fn take_list(
    alloc: Global,
    classes: &ClassTable,
    front: &mut Front<'_>,
    under: ClassId,
    levels: usize,
) -> Result<Vec<Tree>, Untaken>
    ensures { IfOk result
        (λ trees. IsCellFront classes.now front.old.rest.now front.new.rest.now (Many under) levels (tree.Many (to_trees (map tree_view trees.items)))) }
{
    take(front, '[')?;
    let mut trees = Vec::new(alloc);
    if takes(front, ']') {
        return Ok(trees);
    }
    let first = take_tree(alloc, classes, front, under, levels)?;
    trees.push(first)?;
    while takes(front, ',') {
        let tree = take_tree(alloc, classes, front, under, levels)?;
        trees.push(tree)?;
    }
    take(front, ']')?;
    trees.shrink_to_fit();
    Ok(trees)
}
