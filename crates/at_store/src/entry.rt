//! What is kept of a node, and how it is read.
ghost use Rattle.std.specs.Prelude.{◌≡◌, IfOk, Some, false, is_some, map, option_map};
ghost use Rattle.std.specs.List.{slice_get};
ghost use Rattle.std.specs.Option.{option_copied};
ghost use Rattle.at_store.specs.Memory.{IsOnceAmong, StandsOnce, beside, or_first, place_among, cell_in, cells_in, class_in, index_in, kids_in, numbers_in, token_in_cell, up_in};
ghost use Rattle.at_store.specs.Tokens.{lent_view};
ghost use Rattle.at_store.specs.View.{kept_view, leaves_in, memory_of, up_view};

use crate::components::Components;
use crate::node::Node;
use crate::token::Token;
use at_class::ClassId;
use at_tree::token::TokVal;
use slab::Slab;
use smallvec::SmallVec;
use std::alloc::AllocError;

/// How many children may stand in a component: one, any number, or at most one.
#[derive(Clone, Copy, PartialEq, Eq, Debug)]
pub enum Form {
    Plain,
    List,
    Optional,
}

/// The children in a component. Up to four take no memory of their own, and no more room in the node than one.
pub type Children = SmallVec<Node, 4>;

/// What is kept of a component: the children, with the number of the first of them, or the value of a token.
#[derive(Drop)]
pub enum Slot {
    Kids(Form, u32, Children),
    Token(TokVal),
}

/// Where a node stands: alone, or in a component of a parent. An `Option` of the two would take four bytes more.
#[derive(Clone, Copy)]
pub enum Up {
    Alone,
    In(u16, Node),
}

/// What is kept of a node, in 32 bytes. Two hold a class or a component, since a grammar has at most 1,000 classes of at most 32
/// components.
#[derive(Drop)]
pub struct Entry {
    pub class: u16,
    /// Whether the edit that is prepared takes the node away.
    pub leaves: bool,
    pub up: Up,
    /// As much more than the number of the first child as it stands behind it, modulo 2^32: so its position is found in constant
    /// time, and an insert into a list or a drop writes the numbers on the shorter side alone.
    pub number: u32,
    pub cells: Components,
}

impl Up {
    /// The parent, and the component of it.
    fn place(self) -> Option<(Node, u16)>
        ensures { result ≡ up_view self }
    {
        match self {
            Up::Alone => None,
            Up::In(part, parent) => Some((parent, part)),
        }
    }
}

/// The number in two bytes; want of memory where it is too great for that.
pub(crate) fn small(number: usize) -> Result<u16, AllocError>
    ensures { IfOk result (λ n. n ≡ number) }
{
    if number > u16::MAX as usize {
        return Err(AllocError);
    }
    Ok(number as u16)
}

/// The position in four bytes; want of memory where it is too great for that.
pub(crate) fn small_index(index: usize) -> Result<u32, AllocError>
    ensures { IfOk result (λ n. n ≡ index) }
{
    if index > u32::MAX as usize {
        return Err(AllocError);
    }
    Ok(index as u32)
}

/// A parent and a component of it, as they are kept; want of memory where the component's number is too great for that.
pub(crate) fn small_place(up: Option<(Node, usize)>) -> Result<Up, AllocError>
    ensures { IfOk result (λ place. up_view place ≡ up) }
{
    match up {
        Some(place) => Ok(Up::In(small(place.1)?, place.0)),
        None => Ok(Up::Alone),
    }
}

/// Whether there is such a node.
pub(crate) fn is_there(slab: &Slab<Entry>, node: Node) -> bool
    ensures { result ≡ is_some (memory_of slab.now node) }
{
    match slab.get(node.index()) {
        Some(_) => true,
        None => false,
    }
}

/// The class of a node, or the first class where there is no such node.
pub(crate) fn class_at(slab: &Slab<Entry>, node: Node) -> ClassId
    ensures { result ≡ class_in (memory_of slab.now) node }
{
    match slab.get(node.index()) {
        Some(entry) => ClassId::new(entry.class as usize),
        None => ClassId::new(0),
    }
}

/// The parent of a node, and the component of it, as they are kept.
pub(crate) fn place_at(slab: &Slab<Entry>, node: Node) -> Option<(Node, u16)>
    ensures { result ≡ up_in (memory_of slab.now node) }
{
    match slab.get(node.index()) {
        Some(entry) => entry.up.place(),
        None => None,
    }
}

/// The parent of a node, and the component of it.
pub(crate) fn up_at(slab: &Slab<Entry>, node: Node) -> Option<(Node, usize)>
    ensures { result ≡ up_in (memory_of slab.now node) }
{
    match place_at(slab, node) {
        Some(place) => Some((place.0, place.1 as usize)),
        None => None,
    }
}

/// The position of a node among the children of its parent's component.
pub(crate) fn index_at(slab: &Slab<Entry>, node: Node) -> usize
    ensures { StandsOnce (memory_of slab.now) node → result ≡ index_in (memory_of slab.now node) }
{
    match slab.get(node.index()) {
        Some(entry) => index_by(slab, node, entry.up, entry.number),
        None => 0,
    }
}

/// The position of a node in the component where it stands, by its number.
fn index_by(slab: &Slab<Entry>, node: Node, up: Up, number: u32) -> usize
    ensures { IsOnceAmong node (beside (memory_of slab.now) (up_view up))
        → result ≡ or_first (place_among node (beside (memory_of slab.now) (up_view up))) }
{
    match up {
        Up::Alone => 0,
        Up::In(part, parent) => {
            let likely = number.wrapping_sub(first_number(slab, parent, part as usize));
            index_among(kids_at(slab, parent, part as usize), node, likely as usize)
        }
    }
}

/// The position of a node among these, which is likely that one; 0 where it isn't there.
fn index_among(kids: &[Node], node: Node, likely: usize) -> usize
    ensures { IsOnceAmong node kids.now → result ≡ or_first (place_among node kids.now) }
{
    match kids.get(likely) {
        Some(kid) if *kid == node => likely,
        _ => searched(kids, node),
    }
}

/// The position of a node among these; 0 where it isn't there.
fn searched(kids: &[Node], node: Node) -> usize
    ensures { result ≡ or_first (place_among node kids.now) }
{
    for (index, kid) in kids.iter().enumerate() {
        if *kid == node {
            return index;
        }
    }
    0
}

/// The number of the first child in a component of a node.
pub(crate) fn first_number(slab: &Slab<Entry>, node: Node, part: usize) -> u32 {
    match slot_at(slab, node, part) {
        Some(Slot::Kids(_, first, _)) => *first,
        _ => 0,
    }
}

/// Whether the edit that is prepared takes the node away.
pub(crate) fn leaves_at(slab: &Slab<Entry>, node: Node) -> bool
    ensures { result ≡ leaves_in slab.now node }
{
    match slab.get(node.index()) {
        Some(entry) => entry.leaves,
        None => false,
    }
}

/// What is kept of a component of a node.
pub(crate) fn slot_at(slab: &Slab<Entry>, node: Node, part: usize) -> Option<&Slot>
    ensures { option_map kept_view (option_copied result) ≡ cell_in (memory_of slab.now node) part }
{
    match slab.get(node.index()) {
        Some(entry) => entry.cells.as_slice().get(part),
        None => None,
    }
}

/// What is kept of the components of a node.
pub(crate) fn slots_at(slab: &Slab<Entry>, node: Node) -> &[Slot]
    ensures { map kept_view result.now ≡ cells_in (memory_of slab.now node) }
{
    match slab.get(node.index()) {
        Some(entry) => entry.cells.as_slice(),
        None => &[],
    }
}

/// The children in a component.
pub(crate) fn kids_in(slot: &Slot) -> &[Node]
    ensures { result.now ≡ numbers_in (Some (kept_view slot.now)) }
{
    match slot {
        Slot::Kids(_, _, kids) => kids.as_slice(),
        Slot::Token(_) => &[],
    }
}

/// The children in a component of a node.
pub(crate) fn kids_at(slab: &Slab<Entry>, node: Node, part: usize) -> &[Node]
    ensures { result.now ≡ kids_in (memory_of slab.now node) part }
{
    match slot_at(slab, node, part) {
        Some(Slot::Kids(_, _, kids)) => kids.as_slice(),
        _ => &[],
    }
}

/// A child in a component of a node.
pub(crate) fn kid_at(slab: &Slab<Entry>, node: Node, part: usize, index: usize) -> Option<Node>
    ensures { result ≡ slice_get (kids_in (memory_of slab.now node) part) index }
{
    kids_at(slab, node, part).get(index).copied()
}

/// The value of a token of a node; `false` where there is no such token.
pub(crate) fn token_at(slab: &Slab<Entry>, node: Node, part: usize) -> Token<'_>
    ensures { lent_view result ≡ token_in_cell (memory_of slab.now node) part }
{
    match slot_at(slab, node, part) {
        Some(Slot::Token(value)) => Token::of(value),
        _ => Token::Bool(false),
    }
}
