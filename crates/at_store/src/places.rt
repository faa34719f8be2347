//! Where a prepared edit touches something.
ghost use Rattle.std.specs.Prelude.{◌≡◌, ℕ, Bool, false, true, nat_eq, option_map};
ghost use Rattle.std.specs.List.{list_any};
ghost use Rattle.at_model.specs.Drawers.{Key};
ghost use Rattle.at_model.specs.Run.{Location};
ghost use Rattle.at_model.specs.Touches.{node_of};
ghost use Rattle.at_store.specs.Marked.{change_in, told};
ghost use Rattle.at_store.specs.Memory.{kids_in, up_in};
ghost use Rattle.at_store.specs.Places.{IsChild, NamesAround, NamesComponent, NamesParent, named};
ghost use Rattle.at_store.specs.Shifting.{touched_by};
ghost use Rattle.at_store.specs.View.{memory_of};

use crate::edit::Prepared;
use crate::entry::{Entry, kids_at, up_at};
use crate::node::Node;
use slab::Slab;

/// A node of which one component changes, and the children there whose index may change.
#[derive(Clone, Copy, Debug)]
pub struct Changing<'a> {
    pub node: Node,
    pub children: &'a [Node],
}

/// Nodes whose locations an edit may touch: all of those that leave, of the one that moves and of the two around the change;
/// and the index of the children there. And a node of which an edit may touch drawers alone.
#[derive(Clone, Copy, Debug)]
pub struct Places<'a> {
    pub leaving: &'a [Node],
    pub moved: Option<Node>,
    /// Where something comes, or a token changes.
    pub target: Option<Changing<'a>>,
    /// Where something is taken away or replaced.
    pub source: Option<Changing<'a>>,
    /// Where an element stands of which a token changes.
    pub keyed: Option<Node>,
}

/// A component that changes: its children may get another index.
fn component(slab: &Slab<Entry>, node: Node, part: usize) -> Changing
    ensures { NamesComponent (memory_of slab.now) node part result }
{
    Changing {
        node,
        children: kids_at(slab, node, part),
    }
}

/// The component in which a node stands: what stands beside it may get another index.
fn around(slab: &Slab<Entry>, node: Node) -> Option<Changing>
    ensures { NamesAround (memory_of slab.now) node result }
{
    match up_at(slab, node) {
        Some(place) => Some(component(slab, place.0, place.1)),
        None => None,
    }
}

/// The component in which a node stands, where nothing gets another index.
fn parent(slab: &Slab<Entry>, node: Node) -> Option<Changing>
    ensures { NamesParent (memory_of slab.now) node result }
{
    match up_at(slab, node) {
        Some(place) => Some(alone(place.0)),
        None => None,
    }
}

/// The node above a node.
fn above(slab: &Slab<Entry>, node: Node) -> Option<Node>
    ensures { result ≡ option_map (λ p. p.0) (up_in (memory_of slab.now node)) }
{
    match up_at(slab, node) {
        Some(place) => Some(place.0),
        None => None,
    }
}

/// A component that changes, where nothing gets another index.
fn alone<'a>(node: Node) -> Changing<'a>
    ensures { result.node ≡ node }
{
    Changing {
        node,
        children: &[],
    }
}

/// Where an edit touches something. What leaves is listed.
pub(crate) fn places_of<'a>(
    slab: &'a Slab<Entry>,
    prepared: &Prepared,
    leaving: &'a [Node],
) -> Places<'a>
    ensures { (leaves : ℕ → Bool) → ((k : ℕ) → leaves k ≡ true → list_any (nat_eq k) leaving.now ≡ true) → (brings : Key → ℕ → Bool)
        → (l : Location ℕ) → IsChild (memory_of slab.now) (node_of l) → named result l ≡ false
        → touched_by nat_eq (told (memory_of slab.now)) leaves brings (change_in prepared.now) l ≡ false }
{
    let none = Places {
        leaving,
        moved: None,
        target: None,
        source: None,
        keyed: None,
    };
    match prepared {
        Prepared::Set { node, .. } => Places {
            source: parent(slab, *node),
            ..none
        },
        Prepared::Put { node, .. } => Places {
            target: Some(alone(*node)),
            ..none
        },
        Prepared::Drop { node } => Places {
            source: around(slab, *node),
            ..none
        },
        Prepared::Insert { node, part, .. } => Places {
            target: Some(component(slab, *node, *part as usize)),
            ..none
        },
        Prepared::Token { node, .. } => Places {
            target: Some(alone(*node)),
            keyed: above(slab, *node),
            ..none
        },
        Prepared::Move { node, to, part, .. } => Places {
            moved: Some(*node),
            target: Some(component(slab, *to, *part as usize)),
            source: around(slab, *node),
            ..none
        },
    }
}
