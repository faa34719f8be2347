//! Which facet stands for those at the front of locations.

ghost use Rattle.std.specs.Prelude.{◌∷◌, IfOk, map};
ghost use Rattle.at_index.specs.Prelude.{loc_view, node_at, IsFirst};

use crate::facet::Facet;
use at_store::Loc;
use std::alloc::AllocError;

/// The facet of the location, and of those of its node behind it that have one with it; with what is left of the others. An error where
/// the location has none.
#[inline(always)]
pub fn first_facet(location: Loc, others: &[Loc]) -> Result<(Facet, &[Loc]), AllocError>
    ensures { IfOk result (λ r. IsFirst (loc_view location ∷ map loc_view others.now) (node_at (loc_view location)) r.0 (map loc_view r.1.now)) }
{
    let node = location.node();
    let mut facet = Facet::of(location)?;
    let mut rest = others;
    while let Some((next, left)) = rest.split_first() {
        if next.node() != node {
            return Ok((facet, rest));
        }
        let Ok(alone) = Facet::of(*next) else {
            return Ok((facet, rest));
        };
        let Some(wider) = facet.with(alone) else {
            return Ok((facet, rest));
        };
        facet = wider;
        rest = left;
    }
    Ok((facet, rest))
}
