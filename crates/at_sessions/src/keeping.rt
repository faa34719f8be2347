//! What is put into a keeper by itself, what it shows of it, and what it keeps again.

ghost use Rattle.std.specs.Prelude.{◌≡◌, true};

use at_body::{Arguments, Inst, Value};
use at_cache::{Keeper, Order};
use at_class::Key;
use at_evict::Bounded;
use at_rules::AttrId;
use at_store::{Loc, Node, Places};
use std::alloc::Global;
use std::process::Abort;

/// What is looked at of a node.
#[derive(Clone, Copy)]
pub enum Of {
    Class,
    Token(usize),
    Slot,
    Parent,
    Index,
    /// The drawer of that component under that mark.
    Drawer(u8, u32),
}

/// An entry: its node, its value, if it has one, and what it looked at there; and the nodes of those that it uses.
#[derive(Clone, Copy)]
struct Entry<'a> {
    node: usize,
    value: Option<i32>,
    reads: &'a [Of],
    uses: &'a [usize],
}

/// What an entry of a row looks at of its node.
const OWN: &[Of] = &[Of::Token(0)];

/// What the elements in drawers have.
const KEY: Key = Key {
    first: 0,
    token: 0,
    classes: 1,
};

/// The drawers under this mark are flushed as those of a node in whose elements a token changes; others with all of their node.
const KEYED: u32 = 1;

/// What is seen of a node.
#[derive(Clone, Copy, PartialEq, Eq)]
pub enum Sight {
    Nothing,
    /// An entry without a value.
    Stands,
    Kept(i32),
}

/// What is done with a keeper, or looked at.
pub enum Act {
    /// An entry of that node is put, which looked at its first token: with that value, or without one, and with those that it uses.
    Put(usize, Option<i32>, &'static [usize]),
    /// It isn't: there is no room for it, or what it uses isn't there.
    Refuse(usize, Option<i32>, &'static [usize]),
    /// An entry of that node is put, with value 7, which looked at this, and used those.
    Look(usize, &'static [Of], &'static [usize]),
    /// What rests on that location of that node is flushed.
    Touch(usize, Of),
    /// That node's instance is settled.
    Settle(usize),
    /// How much work all was so far.
    Worked(u64),
    /// What is seen of the nodes from 0 on.
    See(&'static [Sight]),
    /// Whose instance stands in the way of that node's.
    Blocked(usize, Option<usize>),
}

/// How entries are put, and how many of them a flush leaves in memory at most, where there is a bound.
#[derive(Clone, Copy)]
pub struct How {
    pub order: Order,
    pub most: Option<usize>,
}

/// The node of that number.
fn numbered(number: usize) -> Node {
    Node::of(number).unwrap_or_default()
}

/// The first attribute of that node.
pub fn inst(node: usize) -> Inst {
    Inst::new(numbered(node), AttrId::new(0), Arguments::none())
}

/// That location of that node.
pub fn location(node: usize, of: Of) -> Loc {
    let node = numbered(node);
    match of {
        Of::Class => Loc::Is(node),
        Of::Token(part) => Loc::Tok(node, part),
        Of::Slot => Loc::Slot(node, 0),
        Of::Parent => Loc::Up(node),
        Of::Index => Loc::Idx(node),
        Of::Drawer(part, mark) => Loc::drawer(node, part, KEY, mark),
    }
}

/// The node of which a flush goes over the drawers alone, where it does so.
fn keyed(touched: &Loc) -> Option<Node> {
    match touched {
        Loc::Drawer { node, mark, .. } if *mark == KEYED => Some(*node),
        _ => None,
    }
}

/// Puts an entry for an instance that has none, which uses entries that are there; whether it did.
pub fn put_new<K: Keeper>(
    keeper: &mut K,
    inst: Inst,
    value: Option<i32>,
    reads: &[Loc],
    uses: &[Inst],
    order: Order,
) -> bool {
    if keeper.stands(&inst) {
        return false;
    }
    for used in uses {
        if !keeper.stands(used) {
            return false;
        }
    }
    let value = value.map(Value::Int);
    keeper.put(inst, value, reads, uses, order).is_ok()
}

/// Flushes what rests on that location, as an edit does: behind the bound, where there is one.
pub fn flush_one<K: Bounded>(keeper: &mut K, most: Option<usize>, touched: Loc) {
    if let Some(most) = most {
        keeper.fit(most);
    }
    let keyed = keyed(&touched);
    let places = Places {
        leaving: &[],
        moved: if keyed.is_some() {
            None
        } else {
            Some(touched.node())
        },
        target: None,
        source: None,
        keyed,
    };
    keeper.flush(
        &places,
        &|location: Loc| -> bool
            ensures { result ≡ true → location ≡ touched }
        { location == touched },
    );
}

/// An entry of a row.
fn entry_of<'a>(node: usize, value: Option<i32>, reads: &'a [Of], uses: &'a [usize]) -> Entry<'a> {
    Entry {
        node,
        value,
        reads,
        uses,
    }
}

/// Whether the entry was put.
fn is_put<K: Keeper>(
    rt: &impl Abort,
    alloc: Global,
    keeper: &mut K,
    entry: &Entry,
    order: Order,
) -> bool {
    let mut reads = Vec::new(alloc);
    for of in entry.reads {
        reads.push(location(entry.node, *of)).expect(rt, "memory");
    }
    let mut uses = Vec::new(alloc);
    for used in entry.uses {
        uses.push(inst(*used)).ok().expect(rt, "memory");
    }
    let inst = inst(entry.node);
    put_new(keeper, inst, entry.value, &reads, &uses, order)
}

/// What is seen of that node.
fn seen<K: Keeper>(keeper: &K, node: usize) -> Sight {
    let inst = inst(node);
    match keeper.get(&inst) {
        Some(Value::Int(value)) => Sight::Kept(*value),
        _ if keeper.stands(&inst) => Sight::Stands,
        _ => Sight::Nothing,
    }
}

/// Whether the keeper shows so much of the nodes from 0 on.
fn shows<K: Keeper>(keeper: &K, nodes: &[Sight]) -> bool {
    for (node, wanted) in nodes.iter().enumerate() {
        if seen(keeper, node) != *wanted {
            return false;
        }
    }
    true
}

/// Whether that is the instance of that node, where there is one.
fn is_node(found: Option<&Inst>, node: Option<usize>) -> bool {
    match (found, node) {
        (Some(found), Some(node)) => *found == inst(node),
        (None, None) => true,
        _ => false,
    }
}

/// Does so, or looks at it: whether all is as told. The work that it takes is added.
pub fn is_done<K: Bounded>(
    rt: &impl Abort,
    alloc: Global,
    keeper: &mut K,
    how: How,
    act: &Act,
    work: &mut u64,
) -> bool {
    match act {
        Act::Put(node, value, uses) => {
            let entry = entry_of(*node, *value, OWN, uses);
            is_put(rt, alloc, keeper, &entry, how.order)
        }
        Act::Refuse(node, value, uses) => {
            let entry = entry_of(*node, *value, OWN, uses);
            !is_put(rt, alloc, keeper, &entry, how.order)
        }
        Act::Look(node, reads, uses) => {
            let entry = entry_of(*node, Some(7), reads, uses);
            is_put(rt, alloc, keeper, &entry, how.order)
        }
        Act::Touch(node, of) => {
            flush_one(keeper, how.most, location(*node, *of));
            true
        }
        Act::Settle(node) => {
            *work = keeper.settle(&inst(*node), *work);
            true
        }
        Act::Worked(wanted) => *work == *wanted,
        Act::See(nodes) => shows(keeper, nodes),
        Act::Blocked(node, by) => is_node(keeper.blocker(&inst(*node)), *by),
    }
}
