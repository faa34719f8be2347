//! Marks: the names that sessions have given to nodes.

ghost use Rattle.at_engine.specs.Marks.{listed};
ghost use Rattle.at_engine.specs.Tallied.{AreTallied};

mod changing;
mod noted;
mod tally;
mod using;

use at_store::Node;
use indexmap::IndexMap;
pub use noted::Noted;
use std::borrow::CowStr;
use tally::Tally;
pub use using::{has_asked, has_mark, has_used};

/// How many marks a session may have.
pub const MAX_MARKS: usize = 100;

/// Where marks are looked up.
pub trait Lookup {
    ghost use Rattle.std.specs.Prelude.{◌≡◌, List};
    ghost use Rattle.at_engine.specs.Marks.{Mark, number_marked};

    // The marks, in the order in which they were made.
    ghost marks: { Self → List Mark };

    /// The node that the session has marked by the name.
    fn get(&self, session: u16, name: &str) -> Option<Node>
        ensures { result ≡ number_marked (marks self.now) session name.now };
}

/// What a mark is found by. The name is lent where a mark is only looked up.
#[derive(PartialEq, Eq, Hash, Drop)]
pub struct Key<'a> {
    session: u16,
    name: CowStr<'a>,
}

impl<'a> Key<'a> {
    ghost use Rattle.std.specs.Prelude.{◌≡◌, string_bytes};
    ghost use Rattle.std.specs.Cow.{cow_str_bytes};

    /// The key of the session's mark of that name, to look it up.
    fn lent(session: u16, name: &'a str) -> Key<'a>
        ensures { (result.session ≡ session) × (cow_str_bytes result.name ≡ name.now) }
    {
        Key {
            session,
            name: CowStr::Borrowed(name),
        }
    }

    /// The key of a mark that is kept.
    fn owned(session: u16, name: String) -> Key<'a>
        ensures session { result.session ≡ session }
        ensures name { cow_str_bytes result.name ≡ string_bytes name }
    {
        Key {
            session,
            name: CowStr::Owned(name),
        }
    }
}

/// The marks of all sessions, in the order in which they were made.
pub struct Marks {
    items: IndexMap<Key<'static>, Node>,
    // How many marks there are of each session, and of each node.
    sessions: Tally,
    nodes: Tally,
    ghost tallied: { AreTallied (listed items.entries) sessions nodes },
}

/// One call, where each exit that lets it go would else have a case for each field.
impl Drop for Marks {
    fn drop(self) {
        let Marks {
            items: _,
            sessions: _,
            nodes: _,
        } = self;
    }
}

impl Lookup for Marks {
    ghost marks = { λ m. listed m.items.entries };

    fn get(&self, session: u16, name: &str) -> Option<Node> {
        let node = self.items.get(&Key::lent(session, name))?;
        Some(*node)
    }
}
