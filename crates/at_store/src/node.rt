//! Nodes, and the locations that one can look at.
use at_class::Key;
use std::marker::Model;

/// A node of a store, by its number. The number stays as long as the node does.
#[derive(Clone, Copy, PartialEq, Eq, Hash, Debug, Default)]
pub struct Node(u32);

impl Model for Node {
    ghost use Rattle.std.specs.Prelude.{ℕ};

    ghost Value = { ℕ };

    ghost view = { λ n. n.0 };

    ghost inverse = { λ n. record { 0 = n } };
}

impl Node {
    ghost use Rattle.std.specs.Prelude.{◌≡◌, ◌≤◌, ◌^◌, IfNone, IfSome};

    /// The node of that number.
    pub fn new(number: u32) -> Self
        ensures { result ≡ number }
    {
        Node(number)
    }

    /// The node of that number; `None` exactly where the number is 2^32 or more.
    pub fn of(number: usize) -> Option<Node>
        ensures found { IfSome result (λ node. node ≡ number) }
        ensures too_great { IfNone result (2 ^ 32 ≤ number) }
    {
        if number > u32::MAX as usize {
            return None;
        }
        Some(Node(number as u32))
    }

    /// Its number, as it is kept.
    pub fn number(self) -> u32
        ensures { result ≡ self }
    {
        self.0
    }

    /// Its number.
    pub fn index(self) -> usize
        ensures { result ≡ self }
    {
        self.0 as usize
    }
}

/// What one can look at of a node. A part is the position of a component of the node's class.
#[derive(Clone, Copy, PartialEq, Eq, Hash, Debug)]
pub enum Loc {
    /// That it is there, and its class.
    Is(Node),
    /// The value of a token.
    Tok(Node, usize),
    /// The children in a component.
    Slot(Node, usize),
    /// The parent, and the component of it in which the node stands.
    Up(Node),
    /// The index among the elements of a list.
    Idx(Node),
    /// The children in a component that stand under a mark, of those that have a key.
    Drawer {
        node: Node,
        part: u8,
        first: u8,
        token: u8,
        classes: u32,
        mark: u32,
    },
}

impl Default for Loc {
    fn default() -> Loc {
        Loc::Is(Node::default())
    }
}

impl Loc {
    ghost use Rattle.std.specs.Prelude.{◌≡◌};
    ghost use Rattle.at_model.specs.Run.{Drawer};
    ghost use Rattle.at_model.specs.Touches.{node_of};
    ghost use Rattle.at_class.specs.Keys.{key_view};
    ghost use Rattle.at_store.specs.Located.{loc_view};

    /// The children in a component of the node that stand under the mark, of those that have the key.
    pub fn drawer(node: Node, part: u8, key: Key, mark: u32) -> Loc
        ensures { loc_view result ≡ Drawer node part (key_view key) mark }
    {
        Loc::Drawer {
            node,
            part,
            first: key.first,
            token: key.token,
            classes: key.classes,
            mark,
        }
    }

    /// The node that is looked at.
    pub fn node(&self) -> Node
        ensures { result ≡ node_of (loc_view self.now) }
    {
        match self {
            Loc::Is(node) => *node,
            Loc::Tok(node, _) => *node,
            Loc::Slot(node, _) => *node,
            Loc::Up(node) => *node,
            Loc::Idx(node) => *node,
            Loc::Drawer { node, .. } => *node,
        }
    }
}
