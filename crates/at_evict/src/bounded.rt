//! Keepers that have no more in memory than a bound.

ghost use Rattle.std.specs.Prelude.{◌≡◌, ◌≤◌};
ghost use Rattle.at_cache.specs.Kept.{LeavesKept};
ghost use Rattle.at_cache.specs.Traced.{StayTraced};

use crate::choosing::choose;
use crate::folding::fold;
use at_cache::folding::{Fold, Last};
use at_cache::packing::PackedStanding;
use at_cache::table::Table;
use at_cache::{KeepInTurns, KeepRecorded, Keeper};
use at_index::run::AllReaders;
use std::alloc::{AllocError, Global};
use std::mem;

/// A keeper from which entries go where there are more than a bound.
pub trait Bounded: Keeper {
    /// Has no more than so many entries in memory, kept or not. Where there are more, those go first that aren't kept; of the others
    /// those stay as they were that stay.
    fn fit(&mut self, most: usize)
        ensures kept { LeavesKept (Self.contents self.old) (Self.contents self.new) }
        ensures stay { StayTraced (Self.memories self.old) (Self.memories self.new) }
        ensures within { (Self.memories self.old).count ≤ most → self.new ≡ self.old }
        ensures few { (Self.memories self.new).count ≤ most };
}

// By the plan that is chosen, so that about so many are left.
#[derive(Drop)]
struct Folding {
    target: usize,
}

impl Fold for Folding {
    fn fold(
        &self,
        alloc: Global,
        entries: &mut Table,
        standings: &[PackedStanding],
        readers: &mut AllReaders,
        last: Last,
    ) -> Result<u32, AllocError> {
        let (plan, folds) = choose(alloc, entries, standings, readers, self.target, last)?;
        fold(alloc, entries, readers, plan.as_slice())?;
        Ok(folds)
    }
}

/// Where what is kept is hardly fewer than the bound, entries are folded, so that about three quarters of it are left, or fewer. What nothing
/// uses goes whole, where it came to be kept before the last edit. Where memory is wanting, all is forgotten.
impl Bounded for KeepRecorded {
    fn fit(&mut self, most: usize) {
        if self.len() <= most {
            return;
        }
        let keeper = mem::replace(self, KeepRecorded::new(self.alloc));
        let by = Folding {
            target: most - most / 4,
        };
        let Ok(keeper) = keeper.shrunk(most - most / 16, &by) else {
            return;
        };
        if keeper.len() > most {
            return;
        }
        *self = keeper;
    }
}

impl<K: Bounded> Bounded for KeepInTurns<K> {
    fn fit(&mut self, most: usize) {
        self.keeper.fit(most);
    }
}
