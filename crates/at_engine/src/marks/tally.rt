//! How many there are of each number.

ghost use Rattle.std.specs.Prelude.{◌≡◌, ◌+◌, ◌-◌, ℕ, OnOk, OnErr};
ghost use Rattle.at_engine.specs.Tally.{counted, one_at};

use indexmap::IndexMap;
use std::alloc::{AllocError, Global};

/// How many there are of each number.
pub struct Tally {
    counts: IndexMap<usize, usize>,
}

/// One call, where each exit that lets it go would else have a case for each field.
impl Drop for Tally {
    fn drop(self) {
        let Tally { counts: _ } = self;
    }
}

impl Tally {
    /// None of any.
    pub fn new(alloc: Global) -> Tally
        ensures { (k : ℕ) → counted result.counts.entries k ≡ 0 }
    {
        Tally {
            counts: IndexMap::new(alloc),
        }
    }

    /// How many there are of the number.
    pub fn of(&self, number: usize) -> usize
        ensures { result ≡ counted self.now.counts.entries number }
    {
        match self.counts.get(&number) {
            Some(count) => *count,
            None => 0,
        }
    }

    /// One more of the number. Where memory is wanting there are as many as before.
    pub fn add(&mut self, number: usize) -> Result<(), AllocError>
        ensures ok { OnOk result ((k : ℕ) → counted self.new.counts.entries k ≡ one_at k number + counted self.old.counts.entries k) }
        ensures err { OnErr result ((k : ℕ) → counted self.new.counts.entries k ≡ counted self.old.counts.entries k) }
    {
        let Some(count) = self.of(number).checked_add(1) else {
            return Err(AllocError);
        };
        self.counts.insert(number, count)?;
        Ok(())
    }

    /// One less of the number, where there are any.
    pub fn take(&mut self, number: usize)
        ensures { (k : ℕ) → counted self.new.counts.entries k ≡ counted self.old.counts.entries k - one_at k number }
    {
        if let Some(count) = self.counts.get_mut(&number) {
            *count = count.saturating_sub(1);
        }
    }
}
