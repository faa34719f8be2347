//! What many kept values rest on stands once: as an entry without a value, which they use.

ghost use Rattle.at_demand.specs.Answerable.{CanBeEntered, RestsOnKept};
ghost use Rattle.at_demand.specs.Known.{FoundKept};
ghost use Rattle.at_demand.specs.Keeping.{IsGathered, SharesAlone};

use super::Demand;
use crate::evaluation::Find;
use crate::gathering::Sources;
use at_body::Inst;
use at_cache::{Keeper, Order};
use at_rules::Rules;
use indexmap::IndexMap;
use std::alloc::AllocError;

impl<K: Keeper> Demand<K> {
    // All that the find rests on. What is shared gets an entry of its own before.
    pub(super) fn gather(
        &mut self,
        rules: &Rules,
        found: &IndexMap<Inst, Find>,
        find: &Find,
    ) -> Result<Sources, AllocError>
        requires { RestsOnKept (K.contents self.old.keeper) found.now.entries find.now }
        ensures { IsGathered rules.now (K.contents self.old.keeper) (K.contents self.new.keeper)
            (K.memories self.old.keeper) (K.memories self.new.keeper) self.old.work self.new.work found.now.entries find.now result }
    {
        let sources = Sources::of(self.alloc, &self.keeper, found, find, &mut self.sharing)?;
        let due = self.sharing.take_due(self.alloc);
        if due.is_empty() {
            return Ok(sources);
        }
        let any = self.share_all(rules, found, due.as_slice())?;
        if !any {
            return Ok(sources);
        }
        let shared = Sources::of(self.alloc, &self.keeper, found, find, &mut self.sharing)?;
        Ok(shared)
    }

    // Gives the finds at the positions entries of their own, up to one that gets none, and says whether any has one.
    fn share_all(
        &mut self,
        rules: &Rules,
        found: &IndexMap<Inst, Find>,
        positions: &[usize],
    ) -> Result<bool, AllocError>
        requires { FoundKept (K.contents self.old.keeper) found.now.entries }
        ensures { SharesAlone rules.now found.now.entries (K.contents self.old.keeper) (K.contents self.new.keeper)
            (K.memories self.old.keeper) (K.memories self.new.keeper) self.old.work self.new.work }
    {
        let mut any = false;
        for position in positions {
            let stands = self.share(rules, found, *position)?;
            if !stands {
                return Ok(any);
            }
            any = true;
        }
        Ok(any)
    }

    // Gives the find at the position an entry without a value, where its attribute isn't lazy, and says whether it has one.
    fn share(
        &mut self,
        rules: &Rules,
        found: &IndexMap<Inst, Find>,
        position: usize,
    ) -> Result<bool, AllocError>
        requires { FoundKept (K.contents self.old.keeper) found.now.entries }
        ensures { SharesAlone rules.now found.now.entries (K.contents self.old.keeper) (K.contents self.new.keeper)
            (K.memories self.old.keeper) (K.memories self.new.keeper) self.old.work self.new.work }
    {
        let Some((inst, find)) = found.get_index(position) else {
            return Ok(false);
        };
        if rules.is_lazy(inst.attribute()) {
            return Ok(false);
        }
        if self.keeper.stands(inst) {
            return Ok(true);
        }
        self.enter(rules, found, inst, find)?;
        Ok(true)
    }

    // Puts an entry without a value for the find.
    #[tactic(auto, using(crate::proofs::of_traces::TurnsPut::puts_same))]
    fn enter(
        &mut self,
        rules: &Rules,
        found: &IndexMap<Inst, Find>,
        inst: &Inst,
        find: &Find,
    ) -> Result<(), AllocError>
        requires { CanBeEntered rules.now (K.contents self.old.keeper) found.now.entries inst.now find.now }
        ensures { SharesAlone rules.now found.now.entries (K.contents self.old.keeper) (K.contents self.new.keeper)
            (K.memories self.old.keeper) (K.memories self.new.keeper) self.old.work self.new.work }
    {
        let sources = Sources::of(self.alloc, &self.keeper, found, find, &mut self.sharing)?;
        let uses = sources.kept.as_slice();
        let reads = sources.reads.as_slice();
        self.keeper
            .put(inst.copy(self.alloc)?, None, reads, uses, Order::Any)?;
        Ok(())
    }
}
