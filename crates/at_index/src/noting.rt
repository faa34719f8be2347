//! Nodes of which an entry reads the index.

ghost use Rattle.std.specs.Prelude.{◌≡◌, ℕ, IsTrue, OnOk, Contains, nat_eq, true};
ghost use Rattle.std.specs.List.{list_any};
ghost use Rattle.at_index.specs.Prelude.{Idx, loc_view, Edge, AreNoted, edges_in, edges_among, edges_at, is_of_index};

use crate::facet::{Facets, Readers};
use at_store::{Loc, Node};
use std::alloc::AllocError;

// Whether an entry was found from the facet, which is the index.
fn is_read_index(reader: &Readers) -> bool
    ensures { IsTrue result → (x : Edge) × Contains (edges_in reader.now.edges) x × (is_of_index reader.now.facet ≡ true) }
{
    if !reader.facet.is_index() {
        return false;
    }
    !reader.edges.is_empty()
}

// Whether an entry was found from the index of the node with these readers.
fn is_index_read(readers: &[Readers]) -> bool
    ensures { IsTrue result → (n : ℕ) → (x : Edge) × Contains (edges_among n readers.now (Idx n)) x }
{
    for reader in readers {
        if is_read_index(reader) {
            return true;
        }
    }
    false
}

// Whether an entry was found from the index of the node.
fn is_noted(readers: &[Facets], node: Node) -> bool
    ensures { IsTrue result → (x : Edge) × Contains (edges_at readers.now (Idx node)) x }
{
    match readers.get(node.index()) {
        Some(list) => is_index_read(list.as_slice()),
        None => false,
    }
}

// The node is noted, if no entry was found from its index.
fn note_node(readers: &[Facets], index_read: &mut Vec<Node>, node: Node) -> Result<(), AllocError>
    ensures stay { AreNoted (edges_at readers.now) index_read.old.items → AreNoted (edges_at readers.now) index_read.new.items }
    ensures noted { OnOk result (AreNoted (edges_at readers.now) index_read.old.items → list_any (nat_eq node) index_read.new.items ≡ true) }
{
    if !is_noted(readers, node) {
        index_read.push(node)?;
    }
    Ok(())
}

/// Where the location is the index of a node, that node is noted.
pub fn note(readers: &[Facets], index_read: &mut Vec<Node>, location: Loc) -> Result<(), AllocError>
    ensures stay { AreNoted (edges_at readers.now) index_read.old.items → AreNoted (edges_at readers.now) index_read.new.items }
    ensures noted { OnOk result (AreNoted (edges_at readers.now) index_read.old.items → (n : ℕ)
        → loc_view location ≡ Idx n → list_any (nat_eq n) index_read.new.items ≡ true) }
{
    match location {
        Loc::Idx(node) => note_node(readers, index_read, node),
        _ => Ok(()),
    }
}
