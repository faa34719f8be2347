//! The components of a graph, by one search, depth first (Gabow 2000, "Path-based depth-first search for strong and biconnected components").

ghost use Rattle.std.specs.Prelude.{◌≡◌, length, IfOk};
ghost use Rattle.at_solve.specs.Components.{AreComponents};

use crate::search::Search;
use std::alloc::{AllocError, Global};

/// The components of the graph in which edges lead from each node to those in its list. Those to which others lead stand first. An
/// error where memory is wanting.
pub fn components_of(alloc: Global, edges: &[Vec<usize>]) -> Result<Vec<Vec<usize>>, AllocError>
    ensures { IfOk result (λ lists. AreComponents edges.now (length edges.now) lists.items) }
{
    let mut search = Search::new(alloc, edges.len())?;
    for node in 0..edges.len() {
        search.begin_at(alloc, edges, node)?;
    }
    Ok(search.into_lists())
}
