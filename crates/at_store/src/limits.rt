//! The limits of a tree.
ghost use Rattle.std.specs.Prelude.{◌≡◌, ◌≤◌, IfSome, None, Some, cond, is_some, map, not};
ghost use Rattle.at_model.specs.Edits.{is_short, is_within_nodes};
ghost use Rattle.at_model.specs.Trees.{nodes, to_trees};
ghost use Rattle.at_tree.specs.Token.{token_view};
ghost use Rattle.at_tree.specs.TreeView.{cell_view, tree_view};
ghost use Rattle.at_store.specs.Spending.{left_by_cell, left_by_tree, left_by_trees};
ghost use Rattle.at_store.specs.Told.{allowed_nodes};

use at_tree::reader::MAX_DEPTH;
use at_tree::token::TokVal;
use at_tree::tree::{Cell, Tree};

/// The greatest number of nodes that a tree may be allowed to have.
pub const MAX_NODES: usize = 16_777_216;

/// How many nodes a tree may have where nothing else is said.
pub const USUAL_NODES: u32 = 65_536;

/// How many bytes a text may have among the tokens.
pub const MAX_TOKEN: usize = 4096;

/// How many nodes a tree may have, where so many are allowed: no more than the greatest number.
pub(crate) fn allowed_nodes(limit: usize) -> usize
    ensures told { result ≡ allowed_nodes limit }
    ensures few { result ≤ 16777216 }
{
    if limit <= MAX_NODES { limit } else { MAX_NODES }
}

/// How many nodes the tree has, or `None` where it has more nodes, more levels or a longer text than it may.
pub(crate) fn nodes_within_limits(tree: &Tree, limit: usize) -> Option<usize>
    ensures within { is_some result ≡ is_within_nodes limit (tree_view tree.now) }
    ensures counted { IfSome result (λ n. n ≡ nodes (tree_view tree.now)) }
{
    let most = allowed_nodes(limit);
    let left = left_after(tree, most, MAX_DEPTH)?;
    Some(most - left)
}

/// How many more nodes may come after the tree, where so many may come with it, on so many levels; `None` where there
/// are too many nodes or levels, or a text is too long.
#[cycle(spending)]
pub(crate) fn left_after(tree: &Tree, room: usize, levels: usize) -> Option<usize>
    ensures { result ≡ left_by_tree (tree_view tree.now) room levels }
{
    if room == 0 || levels == 0 {
        return None;
    }
    let mut left = room - 1;
    for cell in &tree.cells {
        left = left_after_cell(cell, left, levels - 1)?;
    }
    Some(left)
}

#[cycle(spending)]
fn left_after_cell(cell: &Cell, room: usize, levels: usize) -> Option<usize>
    ensures { result ≡ left_by_cell (cell_view cell.now) room levels }
{
    match cell {
        Cell::One(tree) => left_after(tree, room, levels),
        Cell::Many(trees) => left_after_list(trees, room, levels),
        Cell::Filled(tree) => left_after(tree, room, levels),
        Cell::Empty => Some(room),
        Cell::Tok(value) => left_after_token(value, room),
    }
}

#[cycle(spending)]
fn left_after_list(trees: &[Tree], room: usize, levels: usize) -> Option<usize>
    ensures { result ≡ left_by_trees (to_trees (map tree_view trees.now)) room levels }
{
    let mut left = room;
    for tree in trees {
        left = left_after(tree, left, levels)?;
    }
    Some(left)
}

fn left_after_token(value: &TokVal, room: usize) -> Option<usize>
    ensures { result ≡ cond (is_short (token_view value.now)) (Some room) None }
{
    if is_long(value) { None } else { Some(room) }
}

/// Whether the value is a text that is too long.
pub(crate) fn is_long(value: &TokVal) -> bool
    ensures { result ≡ not (is_short (token_view value.now)) }
{
    match value {
        TokVal::Str(text) => text.len() > MAX_TOKEN,
        TokVal::Short(text, _) => text.len() > MAX_TOKEN,
        _ => false,
    }
}
