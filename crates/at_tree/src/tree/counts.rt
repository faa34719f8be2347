ghost use Rattle.std.specs.Prelude.{◌≡◌, map, min, max};
ghost use Rattle.at_model.specs.Trees.{nodes, cell_nodes, trees_nodes, depth, cell_depth, trees_depth, to_trees};
ghost use Rattle.at_class.specs.TreeView.{tree_view, cell_view};

use super::{Cell, Tree};

/// How many nodes the tree has, or the greatest number where it has more.
#[cycle(nodes)]
pub fn nodes(tree: &Tree) -> usize
    ensures { result ≡ min (nodes (tree_view tree.now)) usize.MAX }
{
    let mut count: usize = 1;
    for cell in &tree.cells {
        count = count.saturating_add(cell_nodes(cell));
    }
    count
}

#[cycle(nodes)]
fn cell_nodes(cell: &Cell) -> usize
    ensures { result ≡ min (cell_nodes (cell_view cell.now)) usize.MAX }
{
    match cell {
        Cell::One(tree) => nodes(tree),
        Cell::Many(trees) => list_nodes(trees),
        Cell::Filled(tree) => nodes(tree),
        Cell::Empty => 0,
        Cell::Tok(_) => 0,
    }
}

#[cycle(nodes)]
fn list_nodes(trees: &[Tree]) -> usize
    ensures { result ≡ min (trees_nodes (to_trees (map tree_view trees.now))) usize.MAX }
{
    let mut count: usize = 0;
    for tree in trees {
        count = count.saturating_add(nodes(tree));
    }
    count
}

/// The most nodes on a way down, or the greatest number where there are more. A root alone has depth 1.
#[cycle(depth)]
pub fn depth(tree: &Tree) -> usize
    ensures { result ≡ min (depth (tree_view tree.now)) usize.MAX }
{
    let mut deepest: usize = 0;
    for cell in &tree.cells {
        deepest = deepest.max(cell_depth(cell));
    }
    deepest.saturating_add(1)
}

#[cycle(depth)]
fn cell_depth(cell: &Cell) -> usize
    ensures { result ≡ min (cell_depth (cell_view cell.now)) usize.MAX }
{
    match cell {
        Cell::One(tree) => depth(tree),
        Cell::Many(trees) => list_depth(trees),
        Cell::Filled(tree) => depth(tree),
        Cell::Empty => 0,
        Cell::Tok(_) => 0,
    }
}

#[cycle(depth)]
fn list_depth(trees: &[Tree]) -> usize
    ensures { result ≡ min (trees_depth (to_trees (map tree_view trees.now))) usize.MAX }
{
    let mut deepest: usize = 0;
    for tree in trees {
        deepest = deepest.max(depth(tree));
    }
    deepest
}
