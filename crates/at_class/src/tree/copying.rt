//! Copies of trees.
ghost use Rattle.std.specs.Prelude.{◌≡◌, IfOk, map};
ghost use Rattle.at_class.specs.TreeView.{cell_view, tree_view};

use super::{Cell, Tree};
use std::alloc::{AllocError, Global};

impl Tree {
    /// The same tree once more, or want of memory.
    #[cycle(copied)]
    pub fn copied(&self, alloc: Global) -> Result<Tree, AllocError>
        ensures { IfOk result (λ t. tree_view t ≡ tree_view self.now) }
    {
        let mut cells = Vec::with_capacity(alloc, self.cells.len())?;
        for cell in &self.cells {
            cells.push(cell.copied(alloc)?)?;
        }
        Ok(Tree {
            class: self.class,
            cells,
        })
    }
}

impl Cell {
    /// The same cell once more, or want of memory.
    #[cycle(copied)]
    pub fn copied(&self, alloc: Global) -> Result<Cell, AllocError>
        ensures { IfOk result (λ c. cell_view c ≡ cell_view self.now) }
    {
        match self {
            Cell::One(tree) => Ok(Cell::One(tree.copied(alloc)?)),
            Cell::Many(trees) => Ok(Cell::Many(all_copied(alloc, trees)?)),
            Cell::Empty => Ok(Cell::Empty),
            Cell::Filled(tree) => Ok(Cell::Filled(tree.copied(alloc)?)),
            Cell::Tok(value) => Ok(Cell::Tok(value.copied(alloc)?)),
        }
    }
}

#[cycle(copied)]
fn all_copied(alloc: Global, trees: &[Tree]) -> Result<Vec<Tree>, AllocError>
    ensures { IfOk result (λ ts. map tree_view ts.items ≡ map tree_view trees.now) }
{
    let mut copies = Vec::with_capacity(alloc, trees.len())?;
    for tree in trees {
        copies.push(tree.copied(alloc)?)?;
    }
    Ok(copies)
}
