//! Why a line is answered by a word alone.

use std::alloc::{AllocError, AllocFailed};

/// Why a line is answered by a word alone.
#[derive(Clone, Copy)]
pub enum Refusal {
    /// It can't be read.
    Line,
    /// A place of it leads to no node.
    Path,
    /// The node's class has no such attribute.
    Attribute,
    /// The number or the kinds of the arguments don't fit.
    Arguments,
    /// The value isn't of the attribute's kind.
    Value,
    /// An evaluation in rounds comes to no value.
    NoValue,
    /// Memory ran out.
    Memory,
}

impl Refusal {
    /// The word.
    pub fn word(self) -> &'static str {
        match self {
            Refusal::Line => "line",
            Refusal::Path => "path",
            Refusal::Attribute => "attribute",
            Refusal::Arguments => "arguments",
            Refusal::Value => "value",
            Refusal::NoValue => "none",
            Refusal::Memory => "memory",
        }
    }
}

impl From<AllocError> for Refusal {
    fn from(_error: AllocError) -> Refusal {
        Refusal::Memory
    }
}

impl<T: Drop> From<AllocFailed<T>> for Refusal {
    fn from(_error: AllocFailed<T>) -> Refusal {
        Refusal::Memory
    }
}
