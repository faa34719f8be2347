//! Which finds are gathered often: hints, on which no answer rests.

use std::alloc::{AllocError, Global};
use std::mem;

// A find that was gathered so often, or more, is to have an entry of its own.
const SHARED: u8 = 4;

// How often each find was gathered, by its position, and those that are to have an entry of their own.
pub struct Sharing {
    counts: Vec<u8>,
    due: Vec<usize>,
}

/// One call, where each exit that lets it go would else have a case for each field.
impl Drop for Sharing {
    fn drop(self) {
        let Sharing { counts: _, due: _ } = self;
    }
}

impl Sharing {
    // Nothing was gathered yet.
    pub fn new(alloc: Global) -> Sharing {
        Sharing {
            counts: Vec::new(alloc),
            due: Vec::new(alloc),
        }
    }

    // Forgets what was gathered.
    pub fn clear(&mut self) {
        self.counts.clear();
        self.due.clear();
    }

    // Counts the find at the position once more, and says whether it was gathered often.
    pub fn count(&mut self, position: usize) -> Result<bool, AllocError> {
        // Mostly they are gathered first in the order in which they were found.
        if self.counts.len() == position {
            self.counts.push(1)?;
            return Ok(false);
        }
        if self.counts.len() < position {
            self.counts.resize(position.saturating_add(1), 0)?;
        }
        let Some(count) = self.counts.get_mut(position) else {
            return Ok(false);
        };
        *count = count.saturating_add(1);
        Ok(*count >= SHARED)
    }

    // The find at the position is to have an entry of its own.
    pub fn note(&mut self, position: usize) -> Result<(), AllocError> {
        self.due.push(position)?;
        Ok(())
    }

    // Those that are to have one, in the order in which they were found: each took of earlier ones alone.
    pub fn take_due(&mut self, alloc: Global) -> Vec<usize> {
        let mut due = mem::replace(&mut self.due, Vec::new(alloc));
        due.sort_unstable();
        due
    }
}
