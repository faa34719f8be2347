//! Where the last question was asked: another one there needs no steps.

use at_store::Node;

/// How many bytes stand before the attribute, at least, where a place is remembered: less are read again as soon.
pub const LONG: usize = 32;

/// Where a question was asked: what stands before the attribute in its line, its session, and the node. Nothing stands there where
/// none is remembered.
pub struct Last {
    pub(crate) front: Vec<u8>,
    pub(crate) session: u16,
    pub(crate) node: Node,
}

/// One call, where each exit that lets it go would else have a case for each field.
impl Drop for Last {
    fn drop(self) {
        let Last {
            front: _,
            session: _,
            node: _,
        } = self;
    }
}

impl Last {
    ghost use Rattle.std.specs.Prelude.{◌≡◌, ◌<◌, [], length};

    /// Nothing is remembered any more.
    pub fn forget(&mut self)
        ensures { self.new.front.items ≡ [] }
    {
        self.front.clear();
    }

    /// This is remembered, if there is room for it; else nothing is.
    pub fn remember(&mut self, front: &[u8], session: u16, node: Node)
        ensures { 0 < length self.new.front.items → (self.new.front.items ≡ front.now) × (self.new.session ≡ session) × (self.new.node ≡ node) }
    {
        self.forget();
        if self.front.extend_from_slice(front).is_ok() {
            self.session = session;
            self.node = node;
        }
    }
}
