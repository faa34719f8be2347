//! What is known of values while a question is answered.

ghost use Rattle.at_demand.specs.Known.{known_in};

use crate::evaluation::Find;
use at_body::{Inst, Known, Value};
use at_cache::Keeper;
use indexmap::IndexMap;

// What is kept, and what a question found.
#[derive(Drop)]
pub struct Knowing<'a, K> {
    pub keeper: &'a K,
    pub found: &'a IndexMap<Inst, Find>,
}

impl<K: Keeper> Known for Knowing<'_, K> {
    ghost value_of = { λ k. known_in (K.contents k.keeper.now) k.found.now.entries };

    fn known(&self, inst: &Inst) -> Option<&Value> {
        if let Some(value) = self.keeper.get(inst) {
            return Some(value);
        }
        // The map makes the hash of what is looked up in it, empty as it may be.
        if self.found.is_empty() {
            return None;
        }
        match self.found.get(inst) {
            Some(find) => Some(&find.value),
            None => None,
        }
    }
}
