//! What is looked at of nodes, and by which entries.

ghost use Rattle.std.specs.Prelude.{◌≡◌, ◌||◌, ℕ, IfOk, IfSome, MatchBool, Some, true, false};
ghost use Rattle.at_index.specs.Prelude.{Location, Slot, Tok, loc_view, Answers, node_at, same_location, is_of_index, number_of, stands_for};
ghost use Rattle.at_index.specs.declared.facet.Facet.TheVariants as facet;

use crate::edge::Edges;
use at_store::{Loc, Node};
use smallvec::SmallVec;
use std::alloc::AllocError;

/// What is looked at of a node, in eight bytes: mostly a set of its locations, by their numbers, so that one edge tells of all that an entry
/// read of the node; or a token or a component whose number is too great for that, or the index.
#[derive(Clone, Copy, PartialEq, Eq)]
pub enum Facet {
    Near(u32),
    Tok(u32),
    Slot(u32),
    Idx,
}

impl Default for Facet {
    fn default() -> Facet {
        Facet::Near(0)
    }
}

/// A facet of a node, and the edges to the entries that read it.
#[derive(Drop, Default)]
pub struct Readers {
    pub facet: Facet,
    pub edges: Edges,
}

/// How many facets of a node stand inline: most nodes have no more.
pub const INLINE: usize = 2;

/// What is looked at of a node.
pub type Facets = SmallVec<Readers, INLINE>;

// The numbers that a set may have are below this one.
const NUMBERS: u32 = 32;

// Tokens and components before this one have such numbers.
const NEAR: usize = 15;

// The set of the class alone.
const CLASS: u32 = 1;

// The set of the parent alone.
const PARENT: u32 = 2;

// The set of all tokens.
const TOKENS: u32 = 0x5555_5554;

/// The number in four bytes; want of memory where it is too great for that.
pub fn small(number: usize) -> Result<u32, AllocError>
    ensures { IfOk result (λ n. n ≡ number) }
{
    if number > u32::MAX as usize {
        return Err(AllocError);
    }
    Ok(number as u32)
}

// The token alone: in a set where its number isn't too great; want of memory where it is too great for a facet.
fn token(part: usize) -> Result<Facet, AllocError>
    ensures { (n : ℕ) (l : Location ℕ) → IfOk result (λ facet. stands_for n facet l ≡ same_location l (Tok n part)) }
{
    if part < NEAR {
        return Ok(Facet::Near(1 << (2 * part + 2)));
    }
    Ok(Facet::Tok(small(part)?))
}

// The same of the component.
fn component(part: usize) -> Result<Facet, AllocError>
    ensures { (n : ℕ) (l : Location ℕ) → IfOk result (λ facet. stands_for n facet l ≡ same_location l (Slot n part)) }
{
    if part < NEAR {
        return Ok(Facet::Near(1 << (2 * part + 3)));
    }
    Ok(Facet::Slot(small(part)?))
}

impl Facet {
    /// The location without its node; want of memory where its part is too great a number for a facet. A drawer has none.
    #[inline(always)]
    pub fn of(location: Loc) -> Result<Facet, AllocError>
        ensures { (l : Location ℕ) → IfOk result (λ facet. stands_for (node_at (loc_view location)) facet l ≡ same_location l (loc_view location)) }
    {
        match location {
            Loc::Is(_) => Ok(Facet::Near(CLASS)),
            Loc::Up(_) => Ok(Facet::Near(PARENT)),
            Loc::Tok(_, part) => token(part),
            Loc::Slot(_, part) => component(part),
            Loc::Idx(_) => Ok(Facet::Idx),
            Loc::Drawer { .. } => Err(AllocError),
        }
    }

    /// The one facet of what both stand for, where there is one.
    pub fn with(self, other: Facet) -> Option<Facet>
        ensures both { IfSome result (λ facet. (n : ℕ) (l : Location ℕ) → stands_for n facet l ≡ (stands_for n self l || stands_for n other l)) }
        ensures near { IfSome result (λ facet. is_of_index facet ≡ false) }
    {
        match (self, other) {
            (Facet::Near(some), Facet::Near(more)) => Some(Facet::Near(some | more)),
            _ => None,
        }
    }

    /// Whether it is the index.
    pub fn is_index(self) -> bool
        ensures { result ≡ is_of_index self }
    {
        match self {
            Facet::Near(_) => false,
            Facet::Tok(_) => false,
            Facet::Slot(_) => false,
            Facet::Idx => true,
        }
    }

    /// Whether a fold looks so at an element: at its class, or at that and tokens.
    pub fn is_of_element(self) -> bool {
        match self {
            Facet::Near(set) => set & CLASS == CLASS && set & !(CLASS | TOKENS) == 0,
            _ => false,
        }
    }

    /// Whether one of its locations, of that node, is touched.
    pub fn is_touched<F: Fn(Loc) -> bool>(self, node: Node, touched: &F) -> bool
        requires { F.IsAlwaysCallable touched.now }
        ensures { MatchBool result ((l : Location ℕ) × (stands_for node self l ≡ true) × Answers (F.post touched.now) l true)
            ((l : Location ℕ) → stands_for node self l ≡ true → Answers (F.post touched.now) l false) }
    {
        match self {
            Facet::Near(set) => is_any_touched(node, set, touched),
            Facet::Tok(part) => touched(Loc::Tok(node, part as usize)),
            Facet::Slot(part) => touched(Loc::Slot(node, part as usize)),
            Facet::Idx => touched(Loc::Idx(node)),
        }
    }
}

// The location of the node with that number.
fn location_at(node: Node, number: u32) -> Loc
    ensures number { number_of (loc_view result) ≡ Some number }
    ensures node { node_at (loc_view result) ≡ node }
{
    if number == 0 {
        return Loc::Is(node);
    }
    if number == 1 {
        return Loc::Up(node);
    }
    let part = (number / 2 - 1) as usize;
    if number % 2 == 0 {
        Loc::Tok(node, part)
    } else {
        Loc::Slot(node, part)
    }
}

// Whether a location of the node whose number is in the set is touched.
fn is_any_touched<F: Fn(Loc) -> bool>(node: Node, set: u32, touched: &F) -> bool
    requires { F.IsAlwaysCallable touched.now }
    ensures { MatchBool result ((l : Location ℕ) × (stands_for node (facet.Near set) l ≡ true) × Answers (F.post touched.now) l true)
        ((l : Location ℕ) → stands_for node (facet.Near set) l ≡ true → Answers (F.post touched.now) l false) }
{
    for number in 0..NUMBERS {
        let rest = set >> number;
        if rest == 0 {
            return false;
        }
        if rest & 1 == 1 && touched(location_at(node, number)) {
            return true;
        }
    }
    false
}
