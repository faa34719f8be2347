//! What is looked at of a node by the same entries has one list of edges.

ghost use Rattle.std.specs.Prelude.{◌≡◌, ◌<◌, IfSome, MatchBool, length};
ghost use Rattle.at_evict.specs.Joining.{AreJoint, HaveSame, Joins};

use at_index::facet::{Facet, Facets, INLINE, Readers};

// The facet of both, where they have the same edges and there is one.
fn joint(some: &Readers, more: &Readers) -> Option<Facet>
    ensures { IfSome result (λ facet. AreJoint some.now more.now facet) }
{
    if !some.edges.are(&more.edges) {
        return None;
    }
    some.facet.with(more.facet)
}

// So many places before one are looked at.
const NEAR: usize = 4;

// The first of the places shortly before that one that has the same edges, with the facet of both, if there is one.
fn joint_before(readers: &[Readers], place: usize) -> Option<(usize, Facet)>
    requires { place < length readers.now }
    ensures { IfSome result (λ found. Joins readers.now found.0 place found.1) }
{
    for before in place.saturating_sub(NEAR)..place {
        if let Some(facet) = joint(&readers[before], &readers[place]) {
            return Some((before, facet));
        }
    }
    None
}

// What stands at the one place gets the facet of both, and what stands at the other one goes.
fn become_one(readers: &mut Facets, before: usize, place: usize, facet: Facet)
    requires { Joins readers.old.items before place facet }
    ensures same { HaveSame readers.old.items readers.new.items }
    ensures fewer { length readers.new.items < length readers.old.items }
{
    let found = &mut readers.as_mut_slice()[before];
    found.facet = facet;
    readers.swap_remove(place);
}

// What stands at the place joins what stands before it and has the same edges, if anything does.
fn is_joined(readers: &mut Facets, place: usize) -> bool
    requires { place < length readers.old.items }
    ensures same { HaveSame readers.old.items readers.new.items }
    ensures others { MatchBool result (length readers.new.items < length readers.old.items) (readers.new.items ≡ readers.old.items) }
{
    match joint_before(readers.as_slice(), place) {
        Some((before, facet)) => {
            become_one(readers, before, place, facet);
            true
        }
        None => false,
    }
}

// What stands at the place goes if it has no edge.
fn is_left_out(readers: &mut Facets, place: usize) -> bool
    requires { place < length readers.old.items }
    ensures same { HaveSame readers.old.items readers.new.items }
    ensures others { MatchBool result (length readers.new.items < length readers.old.items) (readers.new.items ≡ readers.old.items) }
{
    if !readers.as_slice()[place].edges.is_empty() {
        return false;
    }
    readers.swap_remove(place);
    true
}

// What stands at the place goes where it has no edge, or the same as one before it.
fn goes(readers: &mut Facets, place: usize) -> bool
    requires { place < length readers.old.items }
    ensures same { HaveSame readers.old.items readers.new.items }
    ensures others { MatchBool result (length readers.new.items < length readers.old.items) (readers.new.items ≡ readers.old.items) }
{
    is_left_out(readers, place) || is_joined(readers, place)
}

// Those that have the same edges have one list, and those that have none go.
fn join_all(readers: &mut Facets)
    ensures { HaveSame readers.old.items readers.new.items }
{
    let mut place = 0;
    while place < readers.len() {
        if !goes(readers, place) {
            place += 1;
        }
    }
}

/// Where there are more of a node than stand inline, those that have the same edges have one list; they stand inline where they can then.
pub fn join(readers: &mut Facets)
    ensures { HaveSame readers.old.items readers.new.items }
{
    if readers.len() <= INLINE {
        return;
    }
    join_all(readers);
    if readers.len() <= INLINE {
        readers.shrink_to_fit();
    }
}
