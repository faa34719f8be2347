//! Which entries go in a flush.

ghost use Rattle.std.specs.Prelude.{◌≡◌, true};
ghost use Rattle.at_cache.specs.Prelude.{is_going, next_of};

use at_index::edge::Slot;

/// Whether an entry goes in the flush under way, and which one goes next.
#[derive(Clone, Copy)]
pub enum Mark {
    /// It stays.
    Stays,
    /// It goes, as the last one.
    Last,
    /// It goes before the one in this slot.
    Before(Slot),
}

impl Mark {
    /// The mark of an entry that goes before these, from the first one on.
    pub fn before(first: Option<Slot>) -> Mark
        ensures going { is_going result ≡ true }
        ensures next { next_of result ≡ first }
    {
        match first {
            Some(slot) => Mark::Before(slot),
            None => Mark::Last,
        }
    }

    /// Whether the entry goes.
    pub fn is_going(self) -> bool
        ensures { result ≡ is_going self }
    {
        match self {
            Mark::Stays => false,
            Mark::Last => true,
            Mark::Before(_) => true,
        }
    }

    /// The slot of the one that goes next.
    pub fn next(self) -> Option<Slot>
        ensures { result ≡ next_of self }
    {
        match self {
            Mark::Stays => None,
            Mark::Last => None,
            Mark::Before(slot) => Some(slot),
        }
    }
}
