//! Copies of trees of which it is known that their tokens can be written.
ghost use Rattle.std.specs.Prelude.{◌≡◌, IfOk, map};
ghost use Rattle.at_model.specs.SyntaxTrees.{AreTokens, CellIsTokens, TreesAreTokens, to_trees};
ghost use Rattle.at_class.specs.TreeView.{cell_view, tree_view};

use super::{Cell, Tree};
use std::alloc::{AllocError, Global};

impl Tree {
    /// The same tree once more, or want of memory.
    #[cycle(written)]
    pub(crate) fn written(&self, alloc: Global) -> Result<Tree, AllocError>
        ensures same { IfOk result (λ t. tree_view t ≡ tree_view self.now) }
        ensures tokens { IfOk result (λ t. AreTokens (tree_view t)) }
    {
        let mut cells = Vec::with_capacity(alloc, self.cells.len())?;
        for cell in &self.cells {
            cells.push(cell.written(alloc)?)?;
        }
        Ok(Tree {
            class: self.class,
            cells,
        })
    }
}

impl Cell {
    /// The same cell once more, or want of memory.
    #[cycle(written)]
    pub(crate) fn written(&self, alloc: Global) -> Result<Cell, AllocError>
        ensures same { IfOk result (λ c. cell_view c ≡ cell_view self.now) }
        ensures tokens { IfOk result (λ c. CellIsTokens (cell_view c)) }
    {
        match self {
            Cell::One(tree) => Ok(Cell::One(tree.written(alloc)?)),
            Cell::Many(trees) => Ok(Cell::Many(all_written(alloc, trees)?)),
            Cell::Empty => Ok(Cell::Empty),
            Cell::Filled(tree) => Ok(Cell::Filled(tree.written(alloc)?)),
            Cell::Tok(value) => Ok(Cell::Tok(value.written(alloc)?)),
        }
    }
}

#[cycle(written)]
fn all_written(alloc: Global, trees: &[Tree]) -> Result<Vec<Tree>, AllocError>
    ensures same { IfOk result (λ ts. map tree_view ts.items ≡ map tree_view trees.now) }
    ensures tokens { IfOk result (λ ts. TreesAreTokens (to_trees (map tree_view ts.items))) }
{
    let mut copies = Vec::with_capacity(alloc, trees.len())?;
    for tree in trees {
        copies.push(tree.written(alloc)?)?;
    }
    Ok(copies)
}
