//! Why an evaluation in one go comes to no value.

use std::alloc::{AllocError, AllocFailed};

/// Why there is no value.
#[derive(Clone, Copy)]
pub enum Stop {
    /// Memory is wanting.
    Memory,
    /// The value is one of another kind, or the model has a fault here: it is left to the evaluation that goes step by step.
    GivesUp,
}

impl From<AllocError> for Stop {
    fn from(_error: AllocError) -> Stop {
        Stop::Memory
    }
}

impl<T: Drop> From<AllocFailed<T>> for Stop {
    fn from(_error: AllocFailed<T>) -> Stop {
        Stop::Memory
    }
}
