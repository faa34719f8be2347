//! The children of a node that stand under a mark.

ghost use Rattle.std.specs.Prelude.{◌≡◌, ◌≤◌, ◌∷◌, [], ℕ, length, map, IfNone, IfSome};
ghost use Rattle.at_model.specs.Bodies.{named, text_of};
ghost use Rattle.at_model.specs.Drawers.{mark_of};
ghost use Rattle.at_model.specs.Run.{Drawer};
ghost use Rattle.at_class.specs.Keys.{key_view};
ghost use Rattle.at_store.specs.Shown.{contents, IsIdle};
ghost use Rattle.at_body.specs.Seeking.{candidates, sought_in};
ghost use Rattle.at_body.specs.Size.{most};
ghost use Rattle.at_body.specs.Standing.{names};
ghost use Rattle.at_body.specs.Values.{value_view};

use super::folding::children;
use super::stack::Stack;
use super::trial::at;
use super::value::Value;
use at_class::mark_of;
use at_rules::{Lookup, Sought};
use at_store::{Node, Store};

/// Children of a node, of which those are meant that have the key and stand under a mark.
#[derive(Clone, Copy)]
pub struct Candidates<'a> {
    pub(crate) lookup: &'a Lookup,
    pub(crate) store: &'a Store,
    pub(crate) children: &'a [Node],
}

impl<'a> Candidates<'a> {
    /// The children in a component of a node.
    pub(crate) fn of(store: &'a Store, node: Node, lookup: &'a Lookup) -> Candidates<'a>
        requires idle_store { IsIdle store.now }
        ensures are { (mark : ℕ) → candidates result mark ≡ contents store.now (Drawer node lookup.now.part (key_view lookup.now.key) mark) }
        ensures few { (mark : ℕ) → length (candidates result mark) ≤ most }
        ensures idle { IsIdle result.store.now }
    {
        Candidates {
            lookup,
            store,
            children: children(store, node, lookup.part as usize),
        }
    }

    /// The first of those that stand under the mark, and the children behind it.
    pub(crate) fn split_first(&self, mark: u32) -> Option<(Node, &'a [Node])>
        requires idle_store { IsIdle self.now.store.now }
        ensures found { IfSome result (λ found. candidates self.now mark ≡ found.0 ∷ candidates (record self.now { children = found.1 }) mark) }
        ensures none { IfNone result (candidates self.now mark ≡ []) }
    {
        self.store.next_under(self.children, self.lookup.key, mark)
    }
}

/// The mark of the text that is looked for: of the literal, or of what the name stands for.
pub fn mark_at(bound: &Stack<Node>, arguments: &[Value], sought: &Sought) -> u32
    ensures { result ≡ mark_of (text_of (sought_in sought.now (names bound.now (map value_view arguments.now)))) }
{
    match sought {
        Sought::Text(text) => mark_of(text.as_str()),
        Sought::Name(position) => mark_named(bound, arguments, *position),
    }
}

/// The mark of the text that a name stands for; that of no text, where it stands for an element.
fn mark_named(bound: &Stack<Node>, arguments: &[Value], position: usize) -> u32
    ensures { result ≡ mark_of (text_of (named (names bound.now (map value_view arguments.now)) position)) }
{
    match bound.get(position) {
        Some(_) => mark_of(""),
        None => mark_passed(arguments, position.saturating_sub(bound.len())),
    }
}

/// The mark of the text that was passed at a position.
fn mark_passed(arguments: &[Value], position: usize) -> u32
    ensures { result ≡ mark_of (text_of (named (map value_view arguments.now) position)) }
{
    match at(arguments, position) {
        Some(value) => mark_of(bytes_of(value)),
        None => mark_of(""),
    }
}

/// The text that a value is; the empty one for another value.
fn bytes_of(value: &Value) -> &str
    ensures { result.now ≡ text_of (value_view value.now) }
{
    match value {
        Value::Text(text) => text.as_ref().as_str(),
        Value::Int(_) | Value::Bool(_) | Value::Ref(_) => "",
    }
}
