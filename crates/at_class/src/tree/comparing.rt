//! Whether trees are the same.
ghost use Rattle.std.specs.Prelude.{◌≡◌, map};
ghost use Rattle.at_model.specs.SyntaxTrees.{cell_eq, cells_eq, to_cells, to_trees, tree_eq, trees_eq};
ghost use Rattle.at_class.specs.TreeView.{cell_view, tree_view};

use super::{Cell, Tree};

impl Tree {
    /// Whether the other tree is of the same class, with the same in each cell.
    #[cycle(same)]
    pub fn is_same(&self, other: &Tree) -> bool
        ensures { result ≡ tree_eq (tree_view self.now) (tree_view other.now) }
    {
        if self.class != other.class {
            return false;
        }
        cells_same(&self.cells, &other.cells)
    }
}

impl Cell {
    /// Whether the other cell is of the same form, with the same in it.
    #[cycle(same)]
    pub fn is_same(&self, other: &Cell) -> bool
        ensures { result ≡ cell_eq (cell_view self.now) (cell_view other.now) }
    {
        match (self, other) {
            (Cell::One(tree), Cell::One(other)) => tree.is_same(other),
            (Cell::Many(trees), Cell::Many(others)) => trees_same(trees, others),
            (Cell::Empty, Cell::Empty) => true,
            (Cell::Filled(tree), Cell::Filled(other)) => tree.is_same(other),
            (Cell::Tok(value), Cell::Tok(other)) => value.is_same(other),
            _ => false,
        }
    }
}

#[cycle(same)]
fn cells_same(cells: &[Cell], others: &[Cell]) -> bool
    ensures { result ≡ cells_eq (to_cells (map cell_view cells.now)) (to_cells (map cell_view others.now)) }
{
    if cells.len() != others.len() {
        return false;
    }
    for (i, cell) in cells.iter().enumerate() {
        if !cell.is_same(&others[i]) {
            return false;
        }
    }
    true
}

#[cycle(same)]
fn trees_same(trees: &[Tree], others: &[Tree]) -> bool
    ensures { result ≡ trees_eq (to_trees (map tree_view trees.now)) (to_trees (map tree_view others.now)) }
{
    if trees.len() != others.len() {
        return false;
    }
    for (i, tree) in trees.iter().enumerate() {
        if !tree.is_same(&others[i]) {
            return false;
        }
    }
    true
}
