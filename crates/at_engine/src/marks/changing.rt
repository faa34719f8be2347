//! Marks that come and go.

ghost use Rattle.std.specs.Prelude.{◌≡◌, ◌+◌, ◌++◌, ◌∷◌, [], false, cond, not, nat_eq, nat_le, is_some, count_by, filter, List, IfOk, OnOk, OnErr, MatchOption, string_bytes};
ghost use Rattle.std.specs.List.{list_any};
ghost use Rattle.std.specs.Cow.{cow_str_bytes};
ghost use Rattle.at_store.specs.Shown.{path};
ghost use Rattle.at_engine.specs.Marks.{AreThere, has_mark, has_node, is_named, listed, mark_of, Mark};
ghost use Rattle.at_engine.specs.Tallied.{AreTallied, IsOf, IsPlaceOf, IsTaken, kept_up_to};

use super::tally::Tally;
use super::{Key, MAX_MARKS, Marks};
use crate::nodes::Nodes;
use at_store::Node;
use indexmap::IndexMap;
use std::alloc::{AllocError, Global};

impl Marks {
    /// No marks.
    pub fn new(alloc: Global) -> Marks
        ensures { listed result.items.entries ≡ [] }
    {
        Marks {
            items: IndexMap::new(alloc),
            sessions: Tally::new(alloc),
            nodes: Tally::new(alloc),
        }
    }

    /// Whether the session has as many marks as it may.
    pub fn is_full(&self, session: u16) -> bool
        ensures { result ≡ nat_le 100 (count_by (λ m. nat_eq session m.session) (listed self.now.items.entries)) }
    {
        self.sessions.of(session as usize) >= MAX_MARKS
    }

    /// Whether one of the nodes is marked.
    pub fn has_any(&self, nodes: &[Node]) -> bool
        ensures { result ≡ list_any (has_node (listed self.now.items.entries)) nodes.now }
    {
        for node in nodes {
            if self.is_marked(*node) {
                return true;
            }
        }
        false
    }

    /// Whether a session has marked the node.
    fn is_marked(&self, node: Node) -> bool
        ensures { result ≡ has_node (listed self.now.items.entries) node }
    {
        self.nodes.of(node.index()) > 0
    }

    /// One more mark, behind the others, of a name that the session hasn't given. Where memory is wanting the marks stay as
    /// they were.
    pub fn push(&mut self, session: u16, name: String, node: Node) -> Result<(), AllocError>
        requires { has_mark (listed self.old.items.entries) session (string_bytes name) ≡ false }
        ensures more { IfOk result (λ u. listed self.new.items.entries
            ≡ listed self.old.items.entries ++ record { session = session; name = string_bytes name; node = node } ∷ []) }
        ensures err { OnErr result (listed self.new.items.entries ≡ listed self.old.items.entries) }
    {
        let Marks {
            items,
            sessions,
            nodes,
        } = self;
        count(sessions, nodes, session, node)?;
        match enter(items, Key::owned(session, name), node) {
            Ok(()) => Ok(()),
            Err(error) => {
                discount(sessions, nodes, session, node);
                Err(error)
            }
        }
    }

    /// Forgets the session's mark of that name.
    pub fn forget(&mut self, session: u16, name: &str)
        ensures { listed self.new.items.entries ≡ filter (λ m. not (is_named session name.now m)) (listed self.old.items.entries) }
    {
        let Marks {
            items,
            sessions,
            nodes,
        } = self;
        if let Some(node) = take_out(items, session, name) {
            discount(sessions, nodes, session, node);
        }
    }

    /// Forgets the marks of nodes that are gone. No mark is looked at where none is of such a node.
    pub fn keep_live(&mut self, any_gone: bool, there: &Nodes<'_>)
        requires { any_gone ≡ false → AreThere (path there.now.store.now) (listed self.old.items.entries) }
        ensures { listed self.new.items.entries ≡ filter (λ m. is_some (path there.now.store.now m.node)) (listed self.old.items.entries) }
    {
        if any_gone {
            self.forget_gone(there);
        }
    }

    /// Forgets the marks of nodes that are gone.
    fn forget_gone(&mut self, there: &Nodes<'_>)
        ensures { listed self.new.items.entries ≡ filter (λ m. is_some (path there.now.store.now m.node)) (listed self.old.items.entries) }
    {
        let Marks {
            items,
            sessions,
            nodes,
        } = self;
        discount_all_gone(items, sessions, nodes, there);
        keep(items, there);
    }
}

// One mark more of the session, and of the node.
fn count(
    sessions: &mut Tally,
    nodes: &mut Tally,
    session: u16,
    node: Node,
) -> Result<(), AllocError>
    ensures ok { OnOk result ((ms : List Mark) (m : Mark) → IsOf session node m → AreTallied ms sessions.old nodes.old
        → AreTallied (ms ++ m ∷ []) sessions.new nodes.new) }
    ensures err { OnErr result ((ms : List Mark) → AreTallied ms sessions.old nodes.old → AreTallied ms sessions.new nodes.new) }
{
    sessions.add(session as usize)?;
    match nodes.add(node.index()) {
        Ok(()) => Ok(()),
        Err(error) => {
            sessions.take(session as usize);
            Err(error)
        }
    }
}

// One mark less of the session, and of the node.
fn discount(sessions: &mut Tally, nodes: &mut Tally, session: u16, node: Node)
    ensures { (front back : List Mark) (m : Mark) → IsOf session node m → AreTallied (front ++ m ∷ back) sessions.old nodes.old
        → AreTallied (front ++ back) sessions.new nodes.new }
{
    sessions.take(session as usize);
    nodes.take(node.index());
}

// One less, if the node is gone.
fn discount_gone(
    sessions: &mut Tally,
    nodes: &mut Tally,
    session: u16,
    node: Node,
    there: &Nodes<'_>,
)
    ensures { (front back : List Mark) (m : Mark) → IsOf session node m → AreTallied (front ++ m ∷ back) sessions.old nodes.old
        → AreTallied (front ++ cond (is_some (path there.now.store.now m.node)) (m ∷ back) back) sessions.new nodes.new }
{
    if !there.has(node) {
        discount(sessions, nodes, session, node);
    }
}

// One less, if the node of the mark at the position is gone.
fn discount_at(
    items: &IndexMap<Key<'static>, Node>,
    sessions: &mut Tally,
    nodes: &mut Tally,
    there: &Nodes<'_>,
    position: usize,
)
    ensures { AreTallied (kept_up_to (path there.now.store.now) position (listed items.now.entries)) sessions.old nodes.old
        → AreTallied (kept_up_to (path there.now.store.now) (position + 1) (listed items.now.entries)) sessions.new nodes.new }
{
    if let Some((key, node)) = items.get_index(position) {
        discount_gone(sessions, nodes, key.session, *node, there);
    }
}

// Those whose nodes are gone are counted no more.
fn discount_all_gone(
    items: &IndexMap<Key<'static>, Node>,
    sessions: &mut Tally,
    nodes: &mut Tally,
    there: &Nodes<'_>,
)
    ensures { AreTallied (listed items.now.entries) sessions.old nodes.old
        → AreTallied (filter (λ m. is_some (path there.now.store.now m.node)) (listed items.now.entries)) sessions.new nodes.new }
{
    for position in 0..items.len() {
        discount_at(items, sessions, nodes, there, position);
    }
}

// Those are left whose nodes are there.
fn keep(items: &mut IndexMap<Key<'static>, Node>, there: &Nodes<'_>)
    ensures { listed items.new.entries ≡ filter (λ m. is_some (path there.now.store.now m.node)) (listed items.old.entries) }
{
    items.retain(|_, node| there.has(*node));
}

// A mark under a new key, behind the others.
fn enter(
    items: &mut IndexMap<Key<'static>, Node>,
    key: Key<'static>,
    node: Node,
) -> Result<(), AllocError>
    requires { has_mark (listed items.old.entries) key.session (cow_str_bytes key.name) ≡ false }
    ensures ok { OnOk result (listed items.new.entries ≡ listed items.old.entries ++ mark_of (key.entry, node) ∷ []) }
    ensures err { OnErr result (listed items.new.entries ≡ listed items.old.entries) }
{
    items.insert(key, node)?;
    Ok(())
}

// Where the session's mark of that name stands, if there is one.
fn place_of(items: &IndexMap<Key<'static>, Node>, session: u16, name: &str) -> Option<usize>
    ensures { MatchOption result (filter (λ m. not (is_named session name.now m)) (listed items.now.entries)
        ≡ listed items.now.entries) (IsPlaceOf session name.now (listed items.now.entries)) }
{
    items.get_index_of(&Key::lent(session, name))
}

// Takes the session's mark of that name out, where there is one. All others stay in their order.
fn take_out(items: &mut IndexMap<Key<'static>, Node>, session: u16, name: &str) -> Option<Node>
    ensures left { listed items.new.entries ≡ filter (λ m. not (is_named session name.now m)) (listed items.old.entries) }
    ensures taken { MatchOption result (listed items.new.entries
        ≡ listed items.old.entries) (λ node. IsTaken session node (listed items.old.entries) (listed items.new.entries)) }
{
    let place = place_of(items, session, name)?;
    let (_, node) = items.shift_remove_index(place)?;
    Some(node)
}
