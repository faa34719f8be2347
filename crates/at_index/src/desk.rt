//! Desks: who read which drawer of a node. A node may have thousands of drawers, so each is found by hash.

ghost use Rattle.std.specs.Prelude.{◌≡◌, ◌<◌, ◌∷◌, ℕ, [], None, Some, Bool, Contains, IfNone, IfSome, IsTrue, OnOk, length, nat_eq, slice_get};
ghost use Rattle.std.specs.Map.{lookup};
ghost use Rattle.at_index.specs.Prelude.{Location, loc_view, edges_in, Keeps, Reads, edges_along, edges_of, Stays, node_at, Edge, Edges};
ghost use Rattle.at_index.specs.Desks.{desk_edges, drawer_at, edges_in_desks, same_spot};
ghost use Rattle.at_index.specs.declared.desk.Spot.{Spot};

use crate::edge::{Edge, Edges};
use crate::linking::add_edge;
use crate::row::Row;
use crate::tells::{Adding, Tells};
use at_store::{Loc, Node};
use indexmap::IndexMap;
use std::alloc::{AllocError, Global};

/// Which drawer of a node: the component, the key and the mark.
#[derive(Clone, Copy, PartialEq, Eq, Hash)]
pub struct Spot {
    pub part: u8,
    pub first: u8,
    pub token: u8,
    pub classes: u32,
    pub mark: u32,
}

/// The drawers of a node that were read, each with the edges to the entries that read it.
#[derive(Drop)]
pub struct Desks {
    pub spots: IndexMap<Spot, Edges>,
}

/// The same by nodes.
pub type AllDesks = IndexMap<Node, Desks>;

impl Spot {
    /// The drawer of the node.
    pub fn at(self, node: Node) -> Loc
        ensures { loc_view result ≡ drawer_at node self }
    {
        Loc::Drawer {
            node,
            part: self.part,
            first: self.first,
            token: self.token,
            classes: self.classes,
            mark: self.mark,
        }
    }
}

impl Desks {
    /// None yet.
    pub fn new(alloc: Global) -> Desks
        ensures { result.spots.entries ≡ [] }
    {
        Desks {
            spots: IndexMap::new(alloc),
        }
    }

    /// How many there are.
    pub fn len(&self) -> usize
        ensures { result ≡ length self.now.spots.entries }
    {
        self.spots.len()
    }

    /// The drawer at that place, of that node, with its edges.
    pub fn desk(&self, node: Node, place: usize) -> (Loc, &Edges)
        requires { place < length self.now.spots.entries }
        ensures { (spot : Spot) × (loc_view result.0 ≡ drawer_at node spot) × (slice_get self.now.spots.entries place ≡ Some (spot, result.1.now)) }
    {
        match self.spots.get_index(place) {
            Some((spot, edges)) => (spot.at(node), edges),
            None => unreachable!(),
        }
    }
}

/// The desks of the node, if a drawer of it was ever read.
pub fn desks_of(all: &AllDesks, node: Node) -> Option<&Desks>
    ensures some { IfSome result (λ desks. (l : Location ℕ) → node_at l ≡ node
        → desk_edges all.now.entries l ≡ edges_in_desks node desks.now.spots.entries l) }
    ensures none { IfNone result ((l : Location ℕ) → node_at l ≡ node → desk_edges all.now.entries l ≡ []) }
{
    if all.is_empty() {
        return None;
    }
    all.get(&node)
}

// Whether no edge of the row tells of anything.
fn is_idle_row<T: Tells>(teller: &T, row: Row) -> bool
    ensures { IsTrue result → Keeps (T.tells teller.now) (edges_of row) [] }
{
    let mut rest = row;
    while let Some((edge, others)) = rest.split_first() {
        if teller.tells_of(&edge) {
            return false;
        }
        rest = others;
    }
    true
}

// Whether none of these rows does.
fn are_idle<T: Tells>(teller: &T, rows: &[Row]) -> bool
    ensures { IsTrue result → Keeps (T.tells teller.now) (edges_along rows.now) [] }
{
    for row in rows {
        if !is_idle_row(teller, *row) {
            return false;
        }
    }
    true
}

// Whether none of these edges does.
fn is_idle<T: Tells>(teller: &T, edges: &Edges) -> bool
    ensures { IsTrue result → Keeps (T.tells teller.now) (edges_in edges.now) [] }
{
    match edges {
        Edges::Empty => true,
        Edges::Few(count, step, slot, stamp) => {
            is_idle_row(teller, Row::few(*count, *step, *slot, *stamp))
        }
        Edges::More(rows) => are_idle(teller, rows.as_slice()),
    }
}

// Whether a desk stands at that place of which no edge does.
fn is_idle_at<T: Tells>(teller: &T, desks: &Desks, place: usize) -> bool
    ensures { IsTrue result → (d : Spot × Edges) × (slice_get desks.now.spots.entries place ≡ Some d)
        × Keeps (T.tells teller.now) (edges_in d.1) [] }
{
    match desks.spots.get_index(place) {
        Some((_, edges)) => is_idle(teller, edges),
        None => false,
    }
}

// Desks go of which no edge tells of anything.
fn purge<T: Tells>(teller: &T, desks: &mut Desks)
    ensures { (n : ℕ) (l : Location ℕ)
        → Keeps (T.tells teller.now) (edges_in_desks n desks.old.spots.entries l) (edges_in_desks n desks.new.spots.entries l) }
{
    let mut place = 0;
    while place < desks.spots.len() {
        if is_idle_at(teller, desks, place) {
            desks.spots.swap_remove_index(place);
        } else {
            place += 1;
        }
    }
}

// Makes room for one more desk of a node that has as many as it has room for: those of which no edge tells of anything go first, and
// there is more room only where half of them or more are left.
fn make_room<T: Tells>(teller: &T, desks: &mut Desks) -> Result<(), AllocError>
    ensures { (n : ℕ) (l : Location ℕ)
        → Keeps (T.tells teller.now) (edges_in_desks n desks.old.spots.entries l) (edges_in_desks n desks.new.spots.entries l) }
{
    if desks.spots.len() < desks.spots.capacity() {
        return Ok(());
    }
    purge(teller, desks);
    let count = desks.spots.len();
    if count >= desks.spots.capacity() / 2 {
        desks.spots.reserve(count)?;
    }
    Ok(())
}

// The first edge of a drawer, which has no desk yet.
fn add_desk(desks: &mut Desks, spot: Spot, edge: Edge) -> Result<(), AllocError>
    requires { lookup (same_spot spot) desks.old.spots.entries ≡ None }
    ensures reads { (tells : Edge → Bool) (n : ℕ)
        → Reads tells edge (drawer_at n spot ∷ []) (edges_in_desks n desks.old.spots.entries) (edges_in_desks n desks.new.spots.entries) }
    ensures has { (n : ℕ) → OnOk result (Contains (edges_in_desks n desks.new.spots.entries (drawer_at n spot)) edge) }
{
    match desks.spots.insert(spot, Edges::of(edge)) {
        Ok(_) => Ok(()),
        Err(_) => Err(AllocError),
    }
}

impl<'a, T: Tells> Adding<'a, T> {
    // One more edge of a drawer, among those of a node.
    fn add_to_desks(&self, desks: &mut Desks, spot: Spot) -> Result<(), AllocError>
        ensures reads { (n : ℕ) → Reads (T.tells self.now.teller.now) self.now.edge (drawer_at n spot ∷ [])
            (edges_in_desks n desks.old.spots.entries) (edges_in_desks n desks.new.spots.entries) }
        ensures has { (n : ℕ) → OnOk result (Contains (edges_in_desks n desks.new.spots.entries (drawer_at n spot)) self.now.edge) }
    {
        make_room(self.teller, desks)?;
        match desks.spots.get_mut(&spot) {
            Some(edges) => add_edge(self.alloc, self.teller, edges, self.edge),
            None => add_desk(desks, spot, self.edge),
        }
    }

    // One more edge of a drawer of a node of which none was read yet.
    fn add_node(&self, all: &mut AllDesks, node: Node, spot: Spot) -> Result<(), AllocError>
        requires { lookup (nat_eq node) all.old.entries ≡ None }
        ensures reads { Reads (T.tells self.now.teller.now) self.now.edge (drawer_at node spot ∷ []) (desk_edges all.old.entries) (desk_edges all.new.entries) }
        ensures has { OnOk result (Contains (desk_edges all.new.entries (drawer_at node spot)) self.now.edge) }
    {
        let mut desks = Desks::new(self.alloc);
        self.add_to_desks(&mut desks, spot)?;
        match all.insert(node, desks) {
            Ok(_) => Ok(()),
            Err(_) => Err(AllocError),
        }
    }

    // One more edge of a drawer of the node.
    fn add_at_node(&self, all: &mut AllDesks, node: Node, spot: Spot) -> Result<(), AllocError>
        ensures reads { Reads (T.tells self.now.teller.now) self.now.edge (drawer_at node spot ∷ []) (desk_edges all.old.entries) (desk_edges all.new.entries) }
        ensures has { OnOk result (Contains (desk_edges all.new.entries (drawer_at node spot)) self.now.edge) }
    {
        match all.get_mut(&node) {
            Some(desks) => self.add_to_desks(desks, spot),
            None => self.add_node(all, node, spot),
        }
    }

    /// One more edge of a drawer of the node. Where the edge stands already it stays. An error where memory is wanting.
    #[inline(never)]
    pub fn add_drawer(&self, all: &mut AllDesks, node: Node, spot: Spot) -> Result<(), AllocError>
        ensures reads { Reads (T.tells self.now.teller.now) self.now.edge (drawer_at node spot ∷ []) (desk_edges all.old.entries) (desk_edges all.new.entries) }
        ensures stay { Stays self.now.edge (desk_edges all.old.entries) (desk_edges all.new.entries) }
        ensures has { OnOk result (Contains (desk_edges all.new.entries (drawer_at node spot)) self.now.edge) }
    {
        let live = Adding {
            alloc: self.alloc,
            teller: self,
            edge: self.edge,
        };
        live.add_at_node(all, node, spot)
    }
}
