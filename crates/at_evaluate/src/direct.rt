//! Evaluation in one go: an instance is evaluated with all that it demands, by a recursion over the bodies of equations, which comes to its value
//! or gives up. What isn't lazy is evaluated in the one that asks, and each lazy one is kept at its end; before it is evaluated it is kept again,
//! if the keeper can do that without. Here is what such evaluations go by; `going.rt` has the recursion, `operands.rt` what
//! comes with none, `keeping.rt` what is done at an end.

ghost use Rattle.std.specs.Prelude.{◌≡◌, ◌<◌, ◌^◌, []};

use at_body::{Inst, Reads, Value};
use indexmap::IndexMap;
use std::alloc::Global;

mod going;
mod keeping;
mod operands;

// What an evaluation under way has looked at, and the known instances whose values it took.
pub struct Level {
    pub reads: Reads,
    pub uses: Vec<Inst>,
}

/// One call, where each exit that lets it go would else have a case for each field.
impl Drop for Level {
    fn drop(self) {
        let Level { reads: _, uses: _ } = self;
    }
}

/// Evaluations in one go, for one question. One begins in a `spare` level of one that ended, where there is one; what is in it counts for
/// nothing. The values that were `found` of instances that aren't lazy are remembered; of which attributes those are is a hint (`seen`).
pub struct Direct {
    alloc: Global,
    spare: Vec<Level>,
    found: IndexMap<Inst, Value>,
    seen: Vec<bool>,
    work: u64,
    made: u64,
    ghost few: { work < 2 ^ 64 },
}

/// One call, as that of `Level` is.
impl Drop for Direct {
    fn drop(self) {
        let Direct {
            alloc: _,
            spare: _,
            found: _,
            seen: _,
            work: _,
            made: _,
        } = self;
    }
}

impl Direct {
    /// None yet, behind so much work, with so many values made.
    pub fn new(alloc: Global, work: u64, made: u64) -> Direct
        requires few { work < 2 ^ 64 }
        ensures { (result.work ≡ work) × (result.made ≡ made) × (result.found.entries ≡ []) }
    {
        Direct {
            alloc,
            spare: Vec::new(alloc),
            found: IndexMap::new(alloc),
            seen: Vec::new(alloc),
            work,
            made,
        }
    }

    /// How many values were found of lazy attributes that weren't kept, with those before. It stays at the greatest number.
    pub fn work(&self) -> u64
        ensures { result ≡ self.now.work }
    {
        self.work
    }

    /// How many values of lazy attributes were made: found by an evaluation that ended, and put, with those before. It stays at the greatest
    /// number.
    pub fn made(&self) -> u64
        ensures { result ≡ self.now.made }
    {
        self.made
    }
}
