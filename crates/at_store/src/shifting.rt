//! Which drawers a prepared edit touches: those in which an element stands before it and not behind it, or the other way round.
ghost use Rattle.std.specs.Prelude.{◌≡◌, ◌&&◌, ◌||◌, nat_eq, true};
ghost use Rattle.at_tree.specs.Token.{token_view};
ghost use Rattle.at_store.specs.Located.{loc_view};
ghost use Rattle.at_store.specs.Marked.{change_in, told};
ghost use Rattle.at_store.specs.Shifting.{brings_in, drawer_view, has_in, is_a_drawer, is_around, is_of, touched_by, turns};
ghost use Rattle.at_store.specs.View.{leaves_in, memory_of};

use crate::edit::Prepared;
use crate::entry::{Entry, class_at, leaves_at, token_at, up_at};
use crate::node::{Loc, Node};
use crate::token::Token;
use crate::under::{is_text_under, is_under};
use at_class::Key;
use at_tree::token::TokVal;
use slab::Slab;

/// A drawer: the elements of a component of a node that have a key and stand under a mark.
#[derive(Clone, Copy)]
pub(crate) struct Drawer {
    pub node: Node,
    pub part: usize,
    pub key: Key,
    pub mark: u32,
}

/// Whether it is one of that component.
fn is_of(drawer: &Drawer, node: Node, part: usize) -> bool
    ensures { result ≡ is_of drawer.now node part }
{
    node == drawer.node && part == drawer.part
}

/// Whether it is one of the component in which the node stands.
fn is_around(slab: &Slab<Entry>, drawer: &Drawer, node: Node) -> bool
    ensures { result ≡ is_around (memory_of slab.now) drawer.now node }
{
    match up_at(slab, node) {
        Some(place) => is_of(drawer, place.0, place.1),
        None => false,
    }
}

/// Whether the node stands under the mark.
fn has(slab: &Slab<Entry>, drawer: &Drawer, node: Node) -> bool
    ensures { result ≡ has_in (memory_of slab.now) drawer.now node }
{
    is_under(slab, node, drawer.key, drawer.mark)
}

/// What a replaced node shifts: it goes, and another one comes.
fn set_shifts(slab: &Slab<Entry>, drawer: &Drawer, node: Node, new: Node) -> bool
    ensures { result ≡ (leaves_in slab.now drawer.now.node
        || is_around (memory_of slab.now) drawer.now node && (has_in (memory_of slab.now) drawer.now node || has_in (memory_of slab.now) drawer.now new)) }
{
    if leaves_at(slab, drawer.node) {
        return true;
    }
    if !is_around(slab, drawer, node) {
        return false;
    }
    if has(slab, drawer, node) {
        return true;
    }
    has(slab, drawer, new)
}

/// What a node that is taken away shifts.
fn drop_shifts(slab: &Slab<Entry>, drawer: &Drawer, node: Node) -> bool
    ensures { result ≡ (leaves_in slab.now drawer.now.node || is_around (memory_of slab.now) drawer.now node && has_in (memory_of slab.now) drawer.now node) }
{
    if leaves_at(slab, drawer.node) {
        return true;
    }
    if !is_around(slab, drawer, node) {
        return false;
    }
    has(slab, drawer, node)
}

/// What comes to a component shifts.
fn comes(slab: &Slab<Entry>, drawer: &Drawer, node: Node, part: usize, new: Node) -> bool
    ensures { result ≡ (is_of drawer.now node part && has_in (memory_of slab.now) drawer.now new) }
{
    if !is_of(drawer, node, part) {
        return false;
    }
    has(slab, drawer, new)
}

/// Whether the token of the key changes, and just one of the two texts stands under the mark.
fn turns(slab: &Slab<Entry>, drawer: &Drawer, node: Node, part: usize, value: &TokVal) -> bool
    ensures { result ≡ turns (memory_of slab.now) drawer.now node part (token_view value.now) }
{
    if part != drawer.key.token as usize {
        return false;
    }
    if !drawer.key.has(class_at(slab, node)) {
        return false;
    }
    let will_be = is_text_under(Token::of(value), drawer.mark);
    if is_text_under(token_at(slab, node, drawer.key.token as usize), drawer.mark) {
        return !will_be;
    }
    will_be
}

/// What a token shifts: where it is the key's, the element comes into one drawer, and goes from another.
fn token_shifts(
    slab: &Slab<Entry>,
    drawer: &Drawer,
    node: Node,
    part: usize,
    value: &TokVal,
) -> bool
    ensures { result ≡ (is_around (memory_of slab.now) drawer.now node && turns (memory_of slab.now) drawer.now node part (token_view value.now)) }
{
    if !is_around(slab, drawer, node) {
        return false;
    }
    turns(slab, drawer, node, part, value)
}

/// What a move shifts: where it goes from, and where it comes.
fn move_shifts(slab: &Slab<Entry>, drawer: &Drawer, node: Node, to: Node, part: usize) -> bool
    ensures { result ≡ ((is_around (memory_of slab.now) drawer.now node || is_of drawer.now to part) && has_in (memory_of slab.now) drawer.now node) }
{
    if !has(slab, drawer, node) {
        return false;
    }
    if is_around(slab, drawer, node) {
        return true;
    }
    is_of(drawer, to, part)
}

/// Whether the edit touches the drawer. What leaves is marked.
fn shifts(slab: &Slab<Entry>, prepared: &Prepared, drawer: &Drawer) -> bool
    ensures { result ≡ touched_by nat_eq (told (memory_of slab.now)) (leaves_in slab.now) (brings_in (memory_of slab.now) prepared.now)
        (change_in prepared.now) (drawer_view drawer.now) }
{
    match prepared {
        Prepared::Set { node, new } => set_shifts(slab, drawer, *node, *new),
        Prepared::Put { node, part, new } => comes(slab, drawer, *node, *part as usize, *new),
        Prepared::Drop { node } => drop_shifts(slab, drawer, *node),
        Prepared::Insert {
            node,
            part,
            new,
            ..
        } => comes(slab, drawer, *node, *part as usize, *new),
        Prepared::Token { node, part, value } => token_shifts(slab, drawer, *node, *part, value),
        Prepared::Move { node, to, part, .. } => move_shifts(
            slab,
            drawer,
            *node,
            *to,
            *part as usize,
        ),
    }
}

/// Whether the location is a drawer.
pub(crate) fn is_drawer(loc: &Loc) -> bool
    ensures { result ≡ is_a_drawer (loc_view loc.now) }
{
    match loc {
        Loc::Drawer { .. } => true,
        _ => false,
    }
}

/// Whether the edit touches the location, a drawer; no other is.
#[inline(never)]
pub(crate) fn touches_drawer(slab: &Slab<Entry>, prepared: &Prepared, loc: &Loc) -> bool
    ensures { is_a_drawer (loc_view loc.now) ≡ true → result ≡ touched_by nat_eq (told (memory_of slab.now)) (leaves_in slab.now)
        (brings_in (memory_of slab.now) prepared.now) (change_in prepared.now) (loc_view loc.now) }
{
    match loc {
        Loc::Drawer {
            node,
            part,
            first,
            token,
            classes,
            mark,
        } => {
            let key = Key {
                first: *first,
                token: *token,
                classes: *classes,
            };
            let drawer = Drawer {
                node: *node,
                part: *part as usize,
                key,
                mark: *mark,
            };
            shifts(slab, prepared, &drawer)
        }
        _ => false,
    }
}
