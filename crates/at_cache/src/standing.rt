//! How entries stand that stay in memory also where they aren't kept.

ghost use Rattle.std.specs.Prelude.{◌≡◌, ◌<◌, ◌^◌, ℕ, IsTrue, OnOk, length, slice_set, true};
ghost use Rattle.at_cache.specs.Prelude.{is_alive, standing_of};

use crate::packing::PackedStanding;
use at_index::edge::Slot;
use std::alloc::AllocError;

/// How an entry stands.
#[derive(Clone, Copy, Default)]
pub struct Standing {
    /// The number of its `put`, or that of when it was kept again.
    pub since: u64,
    /// Whether it is kept.
    pub holds: bool,
    /// Whether it can be kept again once all that it used is.
    pub traced: bool,
}

/// How the entry in the slot stands, packed as it is kept.
pub fn packed_at(standings: &[PackedStanding], slot: Slot) -> PackedStanding
    ensures { result ≡ standing_of standings.now slot }
{
    match standings.get(slot as usize) {
        Some(standing) => *standing,
        None => PackedStanding::new(Standing::default()),
    }
}

/// How the entry in the slot stands.
pub fn standing_at(standings: &[PackedStanding], slot: Slot) -> Standing
    ensures { result ≡ standing_of standings.now slot }
{
    packed_at(standings, slot).unpacked()
}

/// Whether what stands so is kept, or can be kept again.
pub fn is_alive(standing: Standing) -> bool
    ensures { result ≡ is_alive standing }
{
    standing.holds || standing.traced
}

/// Whether what stands so is kept, and can be kept again: so it has a value.
pub fn is_verified(standing: Standing) -> bool
    ensures holds { IsTrue result → standing.holds ≡ true }
    ensures traced { IsTrue result → standing.traced ≡ true }
{
    if !standing.holds {
        return false;
    }
    standing.traced
}

/// Room for the standing of the slot.
pub fn make_standing(standings: &mut Vec<PackedStanding>, slot: Slot) -> Result<(), AllocError>
    ensures same { (k : ℕ) → standing_of standings.new.items k ≡ standing_of standings.old.items k }
    ensures there { OnOk result (slot < length standings.new.items) }
{
    while standings.len() <= slot as usize {
        standings.push(PackedStanding::new(Standing::default()))?;
    }
    Ok(())
}

/// The entry in the slot stands so.
pub fn set_standing(standings: &mut Vec<PackedStanding>, slot: Slot, standing: Standing)
    requires there { slot < length standings.old.items }
    requires fits { standing.since < 2 ^ 62 }
    ensures { standings.new.items ≡ slice_set standings.old.items slot standing }
{
    set_packed(standings, slot, PackedStanding::new(standing));
}

/// The entry in the slot stands so, which is packed already.
pub fn set_packed(standings: &mut Vec<PackedStanding>, slot: Slot, standing: PackedStanding)
    requires { slot < length standings.old.items }
    ensures { standings.new.items ≡ slice_set standings.old.items slot standing }
{
    standings[slot as usize] = standing;
}
