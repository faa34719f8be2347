//! What has fewer entries of what is kept.

ghost use Rattle.std.specs.Prelude.{ℕ, List, OnOk};
ghost use Rattle.at_cache.specs.Prelude.{AreNoted, edges_to, memory_of, AreHeld, FoldsHeld, held};
ghost use Rattle.at_cache.specs.Recorded.{IsIndexed};
ghost use Rattle.at_cache.specs.declared.standing.Standing.{Standing};

use crate::packing::PackedStanding;
use crate::table::Table;
use at_index::run::AllReaders;
use std::alloc::{AllocError, Global};

/// What is known of the last times.
#[derive(Clone, Copy)]
pub struct Last {
    /// How many numbers were given at the last edit.
    pub since: u64,
    /// The last limit on what was folded into one.
    pub folds: u32,
}

/// Folds entries into those that used them.
pub trait Fold {
    /// Folds some of the entries, all of which are kept: those into which they are folded stand for what these stood for. The limit that
    /// this came to. An error where memory is wanting: what is left then means nothing.
    fn fold(
        &self,
        alloc: Global,
        entries: &mut Table,
        standings: &[PackedStanding],
        readers: &mut AllReaders,
        last: Last,
    ) -> Result<u32, AllocError>
        ensures held { (told : List Standing) (puts : ℕ) → AreHeld told (memory_of entries.old)
            → IsIndexed (edges_to readers.old) puts (held told (memory_of entries.old))
            → OnOk result (FoldsHeld told puts (edges_to readers.old) entries.old (edges_to readers.new) entries.new) }
        ensures noted { (nodes : List ℕ) → AreNoted (edges_to readers.old) nodes → OnOk result (AreNoted (edges_to readers.new) nodes) };
}
