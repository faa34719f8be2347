//! Why the program ends before the lines are answered.

use std::alloc::{AllocError, AllocFailed};
use thiserror::Error;

/// Why the program ends before the lines are answered. It is shown as its text; why a file is refused `attrd` says, over the
/// same files.
#[derive(Clone, Copy, Debug, Error)]
pub enum Failure {
    /// The words aren't three files, with or without forms in front of them.
    #[error("usage: tries [--forms circular] GRAMMAR ASPECTS TREE < LINES")]
    Words,
    /// A file, or standard input, can't be read.
    #[error("read fault")]
    Read,
    /// The grammar is refused.
    #[error("the grammar is refused")]
    Grammar,
    /// The aspects are refused.
    #[error("the aspects are refused")]
    Aspects,
    /// The tree is refused.
    #[error("the tree is refused")]
    Tree,
    /// Standard output can't be written.
    #[error("write fault")]
    Write,
    /// Want of memory.
    #[error("memory")]
    Memory,
}

impl Failure {
    /// The status with which the program ends.
    pub fn status(self) -> u8 {
        match self {
            Failure::Grammar | Failure::Aspects | Failure::Tree => 1,
            Failure::Words => 2,
            Failure::Read | Failure::Write => 3,
            Failure::Memory => 4,
        }
    }
}

impl From<AllocError> for Failure {
    fn from(_error: AllocError) -> Failure {
        Failure::Memory
    }
}

impl<T: Drop> From<AllocFailed<T>> for Failure {
    fn from(_error: AllocFailed<T>) -> Failure {
        Failure::Memory
    }
}
