//! The marks in the words of a question.

ghost use Rattle.std.specs.Prelude.{◌≡◌, ◌++◌, ◌∷◌, [], is_some, filter, IfOk, OnErr, string_bytes};
ghost use Rattle.at_store.specs.Shown.{path};
ghost use Rattle.at_engine.specs.Marks.{is_named};

use super::Lookup;
use crate::nodes::Nodes;
use at_store::Node;
use std::alloc::{AllocError, Global};
use std::marker::Model;

/// A session's name for a node.
#[derive(Drop)]
pub struct Mark {
    session: u16,
    name: String,
    node: Node,
}

impl Model for Mark {
    ghost use Rattle.std.specs.Prelude.{string_bytes};
    ghost use Rattle.at_engine.specs.Marks.{Mark as MarkOf};

    ghost Value = { MarkOf };

    ghost view = { λ m. record { session = m.session; name = string_bytes m.name; node = m.node } };
}

impl Mark {
    /// Whether it is the session's mark of that name.
    fn is(&self, session: u16, name: &str) -> bool
        ensures { result ≡ is_named session name.now self.now }
    {
        session == self.session && name == self.name.as_str()
    }

    /// The node.
    fn node(&self) -> Node
        ensures { result ≡ self.now.node }
    {
        self.node
    }
}

/// A few marks in the order in which a question's words use them, as they were when it was posted.
#[derive(Drop)]
pub struct Noted {
    items: Vec<Mark>,
}

impl Lookup for Noted {
    ghost marks = { λ m. m.items.items };

    fn get(&self, session: u16, name: &str) -> Option<Node> {
        for mark in &self.items {
            if mark.is(session, name) {
                return Some(mark.node());
            }
        }
        None
    }
}

impl Noted {
    /// No marks.
    pub fn new(alloc: Global) -> Noted
        ensures { result.items.items ≡ [] }
    {
        Noted {
            items: Vec::new(alloc),
        }
    }

    /// One more mark, behind the others. Where memory is wanting the marks stay as they were.
    pub fn push(&mut self, session: u16, name: String, node: Node) -> Result<(), AllocError>
        ensures more { IfOk result (λ u. self.new.items.items
            ≡ self.old.items.items ++ record { session = session; name = string_bytes name; node = node } ∷ []) }
        ensures err { OnErr result (self.new.items.items ≡ self.old.items.items) }
    {
        self.items.push(Mark {
            session,
            name,
            node,
        })?;
        Ok(())
    }

    /// Forgets the marks of nodes that are gone.
    pub fn keep_live(&mut self, there: &Nodes<'_>)
        ensures { self.new.items.items ≡ filter (λ m. is_some (path there.now.store.now m.node)) self.old.items.items }
    {
        self.items.retain(|mark| there.has(mark.node()));
    }
}
