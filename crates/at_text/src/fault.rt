//! Why nothing is made of what is read: a reason, or want of memory.
ghost use Rattle.std.specs.Prelude.{◌≡◌};
ghost use Rattle.at_text.specs.declared.fault.Fault.TheVariants as fault;
ghost use Rattle.at_text.specs.declared.fault.Failure.TheVariants as failure;

use crate::place::Place;
use std::alloc::{AllocError, AllocFailed};

/// Why nothing is made of a text.
#[derive(Debug, Drop)]
pub enum Fault<C> {
    /// The text is refused, by this code and at this place.
    Refused { code: C, at: Place },
    /// Want of memory.
    Memory,
}

impl<C> Fault<C> {
    ghost use Rattle.at_text.specs.Recoding.{ForCode, IsRecoded};

    /// The same fault at the same place, by the code that the function gives for its own.
    pub fn map_code<D, F: FnOnce(C) -> D>(self, code_for: F) -> Fault<D>
        requires { ForCode self (F.pre code_for) }
        ensures { IsRecoded (F.post code_for) self result }
    {
        match self {
            Fault::Refused { code, at } => Fault::Refused {
                code: code_for(code),
                at,
            },
            Fault::Memory => Fault::Memory,
        }
    }
}

impl<C> From<AllocError> for Fault<C> {
    ghost from_gives = { λ _ e. e ≡ fault.Memory };

    fn from(_e: AllocError) -> Fault<C> {
        Fault::Memory
    }
}

impl<C, T: Drop> From<AllocFailed<T>> for Fault<C> {
    ghost from_gives = { λ _ e. e ≡ fault.Memory };

    fn from(_e: AllocFailed<T>) -> Fault<C> {
        Fault::Memory
    }
}

/// Why nothing is made, where a reason has no place of its own.
#[derive(Drop)]
pub enum Failure<R> {
    /// It can't be made, for this reason.
    For(R),
    /// Want of memory.
    Memory,
}

impl<R> From<AllocError> for Failure<R> {
    ghost from_gives = { λ _ e. e ≡ failure.Memory };

    fn from(_e: AllocError) -> Failure<R> {
        Failure::Memory
    }
}

impl<R, T: Drop> From<AllocFailed<T>> for Failure<R> {
    ghost from_gives = { λ _ e. e ≡ failure.Memory };

    fn from(_e: AllocFailed<T>) -> Failure<R> {
        Failure::Memory
    }
}
