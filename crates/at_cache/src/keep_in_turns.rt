//! A keeper whose values turns of posted questions keep again, too.

ghost use Rattle.std.proofs.Common.{refl};
ghost use Rattle.std.specs.Prelude.{true};

use crate::keeper::{Keeper, Order};
use at_body::{Inst, Value};
use at_store::{Loc, Places};
use std::alloc::AllocError;

/// Keeps what the keeper in it keeps; and turns keep again what can be kept with no evaluation, too, so that some questions take
/// fewer turns.
#[derive(Drop)]
pub struct KeepInTurns<K> {
    pub keeper: K,
}

impl<K: Keeper> Keeper for KeepInTurns<K> {
    ghost contents = { λ k. K.contents k.keeper };

    ghost memories = { λ k. record (K.memories k.keeper) { in_turns = true } };

    ghost always_in_turns = { λ k l. refl };

    ghost kept_last = { λ k i v kept. K.kept_last k.keeper i v kept };

    fn get(&self, inst: &Inst) -> Option<&Value> {
        self.keeper.get(inst)
    }

    fn stands(&self, inst: &Inst) -> bool {
        self.keeper.stands(inst)
    }

    fn put(
        &mut self,
        inst: Inst,
        value: Option<Value>,
        reads: &[Loc],
        uses: &[Inst],
        order: Order,
    ) -> Result<(), AllocError> {
        self.keeper.put(inst, value, reads, uses, order)
    }

    fn has_trace(&self, inst: &Inst) -> bool {
        self.keeper.has_trace(inst)
    }

    fn settle(&mut self, inst: &Inst, work: u64) -> u64 {
        self.keeper.settle(inst, work)
    }

    fn blocker(&self, inst: &Inst) -> Option<&Inst> {
        self.keeper.blocker(inst)
    }

    fn keeps_in_turns(&self) -> bool {
        true
    }

    fn flush<F: Fn(Loc) -> bool>(&mut self, places: &Places<'_>, touched: &F) {
        self.keeper.flush(places, touched);
    }
}
