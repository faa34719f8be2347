//! A keeper that is compared, entry by entry, with plain models of what it keeps.

ghost use Rattle.std.proofs.Common.{refl};
ghost use Rattle.at_index.specs.Finding.{edges_to};
ghost use Rattle.at_cache.specs.Keeping.{recorded_by, remembered_by};
ghost use Rattle.at_cache.specs.Standings.{last_is};
ghost use Rattle.at_engine.specs.Engines.{KeepsNothing};

use super::models::Models;
use at_body::{Inst, Value};
use at_cache::{KeepRecorded, Keeper, Order};
use at_evict::Bounded;
use at_store::{Loc, Places};
use std::alloc::{AllocError, Global};

/// Keeps what a `KeepRecorded` keeps, and the same in plain models. Where they differ, or so many entries are gone, it
/// takes no entry any more, which is heard.
pub struct KeepCompared {
    pub keeper: KeepRecorded,
    pub models: Models,
    limit: usize,
}

/// One call, where each exit that lets it go would else have a case for each field.
impl Drop for KeepCompared {
    fn drop(self) {
        let KeepCompared {
            keeper: _,
            models: _,
            limit: _,
        } = self;
    }
}

impl KeepCompared {
    /// A keeper that keeps nothing yet, and takes no entry any more behind so many that are gone.
    pub fn new(alloc: Global, limit: usize) -> KeepCompared
        ensures { KeepsNothing recorded_by remembered_by result.keeper }
    {
        KeepCompared {
            keeper: KeepRecorded::new(alloc),
            models: Models::new(alloc),
            limit,
        }
    }

    /// Whether it takes no entry any more.
    fn takes_none(&self) -> bool {
        self.models.differs || self.models.gone >= self.limit
    }
}

impl Keeper for KeepCompared {
    ghost use Rattle.std.specs.Prelude.{refl};

    ghost contents = { λ k. recorded_by k.keeper };

    ghost memories = { λ k. remembered_by k.keeper };

    ghost always_in_turns = { λ k l. refl };

    ghost kept_last = { λ k i v kept. last_is (edges_to k.keeper.readers) k.keeper.cut.entries k.keeper.cut.standings.items k.keeper.puts i v kept };

    fn get(&self, inst: &Inst) -> Option<&Value> {
        self.keeper.get(inst)
    }

    fn stands(&self, inst: &Inst) -> bool {
        self.keeper.stands(inst)
    }

    fn put(
        &mut self,
        inst: Inst,
        value: Option<Value>,
        reads: &[Loc],
        uses: &[Inst],
        order: Order,
    ) -> Result<(), AllocError> {
        if self.takes_none() {
            return Err(AllocError);
        }
        let entry = self.models.entry(&inst, &value, reads, uses, order)?;
        self.keeper.put(inst, value, reads, uses, order)?;
        self.models.push(entry);
        Ok(())
    }

    fn has_trace(&self, inst: &Inst) -> bool {
        self.keeper.has_trace(inst)
    }

    fn settle(&mut self, inst: &Inst, work: u64) -> u64 {
        let settled = self.keeper.settle(inst, work);
        if settled != work {
            let count = self.models.settle(&self.keeper);
            if settled != work.saturating_add(count) {
                self.models.differs = true;
            }
        }
        settled
    }

    fn blocker(&self, inst: &Inst) -> Option<&Inst> {
        self.keeper.blocker(inst)
    }

    fn keeps_in_turns(&self) -> bool {
        self.keeper.keeps_in_turns()
    }

    fn flush<F: Fn(Loc) -> bool>(&mut self, places: &Places<'_>, touched: &F) {
        self.keeper.flush(places, touched);
        self.models.flush(&self.keeper, touched);
    }
}

impl Bounded for KeepCompared {
    fn fit(&mut self, most: usize) {
        if self.keeper.len() <= most {
            return;
        }
        self.keeper.fit(most);
        self.models.fit(&self.keeper);
    }
}
