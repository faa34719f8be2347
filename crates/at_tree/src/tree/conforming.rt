ghost use Rattle.std.specs.Prelude.{◌≡◌, map};
ghost use Rattle.at_model.specs.Trees.{conforms, cell_conforms, trees_conform, is_of_kind, to_trees};
ghost use Rattle.at_class.specs.View.{part_view, shape_view, token_kind_view};
ghost use Rattle.at_class.specs.Token.{token_view};
ghost use Rattle.at_class.specs.TreeView.{tree_view, cell_view};
ghost use Rattle.at_tree.specs.Fixed.{stands};

use super::{Cell, Tree};
use at_class::token::TokVal;
use at_class::{ClassId, ClassTable, Part, PartShape, TokenKind};

/// Whether the value is of the kind.
pub fn is_of_kind(value: &TokVal, kind: TokenKind) -> bool
    ensures { result ≡ is_of_kind (token_view value.now) (token_kind_view kind) }
{
    match value {
        TokVal::Str(_) => kind == TokenKind::Str,
        TokVal::Short(_, _) => kind == TokenKind::Str,
        TokVal::Int(_) => kind == TokenKind::Int,
        TokVal::Bool(_) => kind == TokenKind::Bool,
    }
}

/// Whether what is fixed in the component stands in the cell, if anything is.
fn stands(part: &Part, cell: &Cell) -> bool
    ensures { result ≡ stands (part_view part.now) (cell_view cell.now) }
{
    match &part.fixed {
        None => true,
        Some(fixed) => fixed.is_same(cell),
    }
}

/// Whether the tree may stand where that class is asked: its class fits, its cells are one for each component, each of its shape
/// and kind, and so on down, and in fixed components stands what is fixed. False of a class number that is none of the table's.
#[cycle(fits)]
pub fn fits(classes: &ClassTable, tree: &Tree, under: ClassId) -> bool
    ensures { result ≡ conforms classes.now (tree_view tree.now) under }
{
    if !classes.fits(tree.class, under) {
        return false;
    }
    let parts = classes.parts(tree.class);
    let cells = tree.cells.as_slice();
    if parts.len() != cells.len() {
        return false;
    }
    for (i, cell) in cells.iter().enumerate() {
        let part = &parts[i];
        if !cell_fits(classes, cell, part.shape) {
            return false;
        }
        if !stands(part, cell) {
            return false;
        }
    }
    true
}

/// Whether the cell is of the shape, and so on down.
#[cycle(fits)]
pub(super) fn cell_fits(classes: &ClassTable, cell: &Cell, shape: PartShape) -> bool
    ensures { result ≡ cell_conforms classes.now (cell_view cell.now) (shape_view shape) }
{
    match (cell, shape) {
        (Cell::One(tree), PartShape::One(class)) => fits(classes, tree, class),
        (Cell::Many(trees), PartShape::Many(class)) => all_fit(classes, trees, class),
        (Cell::Empty, PartShape::Maybe(_)) => true,
        (Cell::Filled(tree), PartShape::Maybe(class)) => fits(classes, tree, class),
        (Cell::Tok(value), PartShape::Tok(kind)) => is_of_kind(value, kind),
        _ => false,
    }
}

#[cycle(fits)]
fn all_fit(classes: &ClassTable, trees: &[Tree], under: ClassId) -> bool
    ensures { result ≡ trees_conform classes.now (to_trees (map tree_view trees.now)) under }
{
    for tree in trees {
        if !fits(classes, tree, under) {
            return false;
        }
    }
    true
}
