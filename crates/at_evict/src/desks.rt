//! Edges of drawers that tell of entries which are folded tell of those into which they are.

ghost use Rattle.std.specs.Prelude.{◌≡◌, ◌<◌, ℕ, OnOk, length, slice_get};
ghost use Rattle.at_evict.specs.Prelude.{Location, into_of, is_told, refolds};
ghost use Rattle.at_evict.specs.Desks.{AreDesksRefolded, IsDeskRefolded, IsNodeOfDesks};
ghost use Rattle.at_index.specs.Desks.{desk_edges};

use crate::refolding::Refolding;
use crate::room::Room;
use at_index::desk::{AllDesks, Desks};
use std::alloc::AllocError;

impl<'a> Refolding<'a> {
    // The desk at that place tells of those into which the entries are folded of which it told.
    fn rewrite_desk(
        &self,
        room: &mut Room,
        desks: &mut Desks,
        place: usize,
    ) -> Result<(), AllocError>
        requires { place < length desks.old.spots.entries }
        ensures here { OnOk result (IsDeskRefolded (is_told self.now) (into_of self.now) (slice_get desks.old.spots.entries place)
            (slice_get desks.new.spots.entries place)) }
        ensures others { (k : ℕ) → (k ≡ place → ⊥) → slice_get desks.new.spots.entries k ≡ slice_get desks.old.spots.entries k }
        ensures len { length desks.new.spots.entries ≡ length desks.old.spots.entries }
    {
        let (_, edges) = desks.spots.pair_mut(place);
        self.rewrite_list(room, edges)
    }

    // So do all of a node.
    fn rewrite_desks_of(&self, room: &mut Room, desks: &mut Desks) -> Result<(), AllocError>
        ensures { OnOk result (AreDesksRefolded (is_told self.now) (into_of self.now) desks.old.spots.entries desks.new.spots.entries) }
    {
        for place in 0..desks.len() {
            self.rewrite_desk(room, desks, place)?;
        }
        Ok(())
    }

    // So do those of the node at that place.
    fn rewrite_desks_at(
        &self,
        room: &mut Room,
        all: &mut AllDesks,
        place: usize,
    ) -> Result<(), AllocError>
        requires { place < length all.old.entries }
        ensures here { OnOk result (IsNodeOfDesks (is_told self.now) (into_of self.now) (slice_get all.old.entries place)
            (slice_get all.new.entries place)) }
        ensures others { (k : ℕ) → (k ≡ place → ⊥) → slice_get all.new.entries k ≡ slice_get all.old.entries k }
        ensures len { length all.new.entries ≡ length all.old.entries }
    {
        let (_, desks) = all.pair_mut(place);
        self.rewrite_desks_of(room, desks)
    }

    /// So do those of all nodes. An error where memory is wanting.
    pub fn rewrite_desks(&self, room: &mut Room, all: &mut AllDesks) -> Result<(), AllocError>
        ensures { OnOk result ((l : Location ℕ) → refolds self.now (desk_edges all.old.entries l) (desk_edges all.new.entries l)) }
    {
        for place in 0..all.len() {
            self.rewrite_desks_at(room, all, place)?;
        }
        Ok(())
    }
}
