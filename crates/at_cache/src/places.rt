//! A flush marks what reads a touched location, by places that name all that is touched.

ghost use Rattle.std.specs.Prelude.{None};
ghost use Rattle.std.specs.List.{list_any};
ghost use Rattle.at_model.specs.Touches.{node_of};
ghost use Rattle.at_store.specs.Places.{is_drawer_at, is_index_among, is_node, named, names_around};
ghost use Rattle.at_cache.specs.Prelude.{AreNoted, sees, Answers, GoesOn, edges_to};

use crate::cut::Cut;
use crate::desks::begin_desks;
use crate::forgetting::{begin_node, is_unread};
use at_index::edge::Slot;
use at_index::run::AllReaders;
use at_index::scope::Scope;
use at_store::{Changing, Loc, Node, Places};

// So does what reads one in that scope of any of the nodes.
fn begin_nodes<F: Fn(Loc) -> bool>(
    cut: &mut Cut,
    first: Option<Slot>,
    readers: &AllReaders,
    nodes: &[Node],
    scope: Scope,
    touched: &F,
) -> Option<Slot>
    requires { F.IsAlwaysCallable touched.now }
    ensures { GoesOn (Answers (F.post touched.now)) (λ l. list_any (λ n. sees scope n l) nodes.now) (edges_to readers.now) first cut.old result cut.new }
{
    let mut first = first;
    for node in nodes {
        first = begin_node(cut, first, readers, *node, scope, touched);
    }
    first
}

// What reads the touched index of one of the children goes. Of those and the nodes whose index was ever read the fewer are
// looked at.
fn begin_children<F: Fn(Loc) -> bool>(
    cut: &mut Cut,
    first: Option<Slot>,
    readers: &AllReaders,
    index_read: &[Node],
    children: &[Node],
    touched: &F,
) -> Option<Slot>
    requires callable { F.IsAlwaysCallable touched.now }
    requires noted { AreNoted (edges_to readers.now) index_read.now }
    ensures { GoesOn (Answers (F.post touched.now)) (is_index_among children.now) (edges_to readers.now) first cut.old result cut.new }
{
    let fewer = if index_read.len() < children.len() {
        index_read
    } else {
        children
    };
    begin_nodes(cut, first, readers, fewer, Scope::Index, touched)
}

// What reads a touched location of the node goes, or the touched index of one of its children there.
fn begin_around<F: Fn(Loc) -> bool>(
    cut: &mut Cut,
    first: Option<Slot>,
    readers: &AllReaders,
    index_read: &[Node],
    changing: &Option<Changing<'_>>,
    touched: &F,
) -> Option<Slot>
    requires callable { F.IsAlwaysCallable touched.now }
    requires noted { AreNoted (edges_to readers.now) index_read.now }
    ensures { GoesOn (Answers (F.post touched.now)) (names_around changing.now) (edges_to readers.now) first cut.old result cut.new }
{
    match changing {
        Some(changing) => {
            let at = begin_node(cut, first, readers, changing.node, Scope::All, touched);
            begin_children(cut, at, readers, index_read, changing.children, touched)
        }
        None => first,
    }
}

// What reads a touched location of the node goes, if there is one.
fn begin_moved<F: Fn(Loc) -> bool>(
    cut: &mut Cut,
    first: Option<Slot>,
    readers: &AllReaders,
    moved: Option<Node>,
    touched: &F,
) -> Option<Slot>
    requires { F.IsAlwaysCallable touched.now }
    ensures { GoesOn (Answers (F.post touched.now)) (λ l. is_node moved (node_of l)) (edges_to readers.now) first cut.old result cut.new }
{
    match moved {
        Some(node) => begin_node(cut, first, readers, node, Scope::All, touched),
        None => first,
    }
}

// What reads a touched drawer of the node goes, if there is one.
fn begin_keyed<F: Fn(Loc) -> bool>(
    cut: &mut Cut,
    first: Option<Slot>,
    readers: &AllReaders,
    keyed: Option<Node>,
    touched: &F,
) -> Option<Slot>
    requires { F.IsAlwaysCallable touched.now }
    ensures { GoesOn (Answers (F.post touched.now)) (is_drawer_at keyed) (edges_to readers.now) first cut.old result cut.new }
{
    match keyed {
        Some(node) => begin_desks(cut, first, &readers.desks, node, touched),
        None => first,
    }
}

/// What reads a touched location that the places name goes: the first one that goes.
pub fn begin_named<F: Fn(Loc) -> bool>(
    cut: &mut Cut,
    readers: &AllReaders,
    index_read: &[Node],
    places: &Places<'_>,
    touched: &F,
) -> Option<Slot>
    requires callable { F.IsAlwaysCallable touched.now }
    requires noted { AreNoted (edges_to readers.now) index_read.now }
    ensures { GoesOn (Answers (F.post touched.now)) (named places.now) (edges_to readers.now) None cut.old result cut.new }
{
    if is_unread(readers) {
        return None;
    }
    let left = begin_nodes(cut, None, readers, places.leaving, Scope::All, touched);
    let moved = begin_moved(cut, left, readers, places.moved, touched);
    let come = begin_around(cut, moved, readers, index_read, &places.target, touched);
    let gone = begin_around(cut, come, readers, index_read, &places.source, touched);
    begin_keyed(cut, gone, readers, places.keyed, touched)
}
