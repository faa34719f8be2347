//! What entries are folded with.

ghost use Rattle.at_evict.specs.Folding.{AreLone, slots_at};
ghost use Rattle.at_cache.specs.Info.{memory_of};
ghost use Rattle.at_cache.specs.Putting.{is_current};

use crate::lone::Lone;
use at_cache::entry::Links;
use at_cache::table::Table;
use std::alloc::Global;

/// The entries as they were, the plan by which they are folded, and those that it leaves by themselves.
#[derive(Clone, Copy)]
pub struct Refolding<'a> {
    pub alloc: Global,
    pub entries: &'a Table,
    pub plan: &'a [Links],
    pub lone: &'a Lone,
    pub ghost alone: { AreLone (is_current (memory_of entries.now)) (slots_at plan.now) lone.now.none lone.now.stamps.items },
}
