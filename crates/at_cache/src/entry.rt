//! Entries.

ghost use Rattle.std.specs.Prelude.{◌≡◌};

use crate::mark::Mark;
use at_body::Value;
use at_index::edge::{Edges, Slot};
use smallvec::SmallVec;

/// Slots of entries; four stand inline.
pub type Links = SmallVec<Slot, 4>;

/// A value, if it is kept, with the slots of the entries that it used, and edges to those that used it. What it read is found from the
/// locations alone.
pub struct Entry {
    pub value: Option<Value>,
    pub links: Links,
    pub slot: Slot,
    /// The number of its `put`.
    pub stamp: u64,
    pub users: Edges,
    pub mark: Mark,
}

/// One call, where each exit that lets it go would else have a case for each field.
impl Drop for Entry {
    fn drop(self) {
        let Entry {
            value: _,
            links: _,
            slot: _,
            stamp: _,
            users: _,
            mark: _,
        } = self;
    }
}

impl Entry {
    /// Its slot, and what it was put with.
    pub fn into_put(self) -> (Slot, Option<Value>, Links, u64)
        ensures { result ≡ (self.slot, self.value, self.links, self.stamp) }
    {
        let Entry {
            value,
            links,
            slot,
            stamp,
            users: _,
            mark: _,
        } = self;
        (slot, value, links, stamp)
    }
}
