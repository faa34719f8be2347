//! How an entry stands, in eight bytes.

use crate::standing::Standing;
use std::marker::Model;

/// How many numbers there are to give to entries: each fits beside two bits. Where none is left, memory is wanting.
pub const NUMBERS: u64 = 4611686018427387904;

/// How an entry stands: four times the number, and a bit each for whether it is kept and whether it is traced.
#[derive(Clone, Copy)]
pub struct PackedStanding(u64);

impl Model for PackedStanding {
    ghost use Rattle.std.proofs.Common.{ap};
    ghost use Rattle.at_cache.specs.declared.standing.Standing.{Standing};
    ghost use Rattle.at_cache.specs.Packing.{packed, packed_back, unpacked};

    ghost Value = { Standing };

    ghost view = { λ p. unpacked p.0 };

    ghost inverse = { λ s. record { 0 = packed s } };

    ghost inverse_ok = { λ p _. ap (λ n. record { 0 = n }) (packed_back p.0) };
}

impl PackedStanding {
    ghost use Rattle.std.specs.Prelude.{◌≡◌, ◌<◌, ◌^◌};
    ghost use Rattle.at_cache.specs.Standings.{unheld, untraced};

    /// What stands so, packed.
    pub fn new(standing: Standing) -> PackedStanding
        requires { standing.since < 2 ^ 62 }
        ensures { result ≡ standing }
    {
        let kept = standing.since * 2 + u64::from(standing.holds);
        PackedStanding(kept * 2 + u64::from(standing.traced))
    }

    /// How it stands, by fields.
    pub fn unpacked(self) -> Standing
        ensures { result ≡ self }
    {
        Standing {
            since: self.0 / 4,
            holds: self.0 / 2 % 2 == 1,
            traced: self.0 % 2 == 1,
        }
    }

    /// The same without a trace.
    pub fn without_trace(self) -> PackedStanding
        ensures { result ≡ untraced self }
    {
        PackedStanding(self.0 - self.0 % 2)
    }

    /// The same where it isn't kept.
    pub fn without_value(self) -> PackedStanding
        ensures { result ≡ unheld self }
    {
        PackedStanding(self.0 - self.0 / 2 % 2 * 2)
    }
}
