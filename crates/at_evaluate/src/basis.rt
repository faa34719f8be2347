//! What an evaluation in one go stands on.

ghost use Rattle.at_store.specs.Shown.{IsIdle};
ghost use Rattle.at_evaluate.specs.OneProof.{idle_prop};

use at_rules::Rules;
use at_store::Store;

/// The rules, and a store in which no edit waits.
#[derive(Drop)]
pub struct Basis<'a> {
    pub rules: &'a Rules,
    pub store: &'a Store,
    ghost idle: { IsIdle store.now } by { idle_prop store.now },
}
