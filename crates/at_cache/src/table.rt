//! Entries by instance, in whatever order, each also under a slot that stays while others come and go.

ghost use Rattle.slab.specs.Slab.{get};
ghost use Rattle.at_cache.specs.Attributes.{HaveCome};
ghost use Rattle.at_cache.specs.Placed.{IsPlaced};

use crate::entry::Entry;
use at_body::Inst;
use indexmap::IndexMap;
use slab::Slab;

/// The entries, where each slot's entry stands among them, and of which attributes one ever came.
#[derive(Drop)]
pub struct Table {
    pub entries: IndexMap<Inst, Entry>,
    pub places: Slab<usize>,
    /// By the positions of attributes: of many no entry ever comes, and then an instance needs no look-up.
    pub attributes: Vec<bool>,
    pub ghost placed: { IsPlaced entries.entries (get places) },
    pub ghost come: { HaveCome entries.entries attributes.items },
}
