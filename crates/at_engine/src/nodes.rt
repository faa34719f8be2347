//! The nodes of a store in which no edit waits.

ghost use Rattle.at_store.specs.Shown.{IsIdle};
ghost use Rattle.at_evaluate.specs.OneProof.{idle_prop};

use at_store::{Node, Store};

/// The nodes of a store in which no edit waits.
#[derive(Drop)]
pub struct Nodes<'s> {
    pub store: &'s Store,
    ghost idle: { IsIdle store.now } by { idle_prop store.now },
}

impl<'s> Nodes<'s> {
    ghost use Rattle.std.specs.Prelude.{◌≡◌, is_some};
    ghost use Rattle.at_store.specs.Shown.{IsIdle, path};

    /// The nodes of the store.
    pub fn of(store: &'s Store) -> Nodes<'s>
        requires { IsIdle store.now }
        ensures { result.store.now ≡ store.entry.now }
    {
        Nodes { store }
    }

    /// Whether the node is there.
    pub fn has(&self, node: Node) -> bool
        ensures { result ≡ is_some (path self.now.store.now node) }
    {
        self.store.live(node)
    }
}
