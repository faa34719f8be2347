//! What the words of the command line ask for.
ghost use Rattle.std.specs.Prelude.{◌≡◌};
ghost use Rattle.attrd.specs.declared.options.WordsFault.TheVariants.{Memory};

mod forms;
mod words;

use at_start::Language;
use std::alloc::{AllocError, AllocFailed};
use thiserror::Error;
pub use words::options;

/// What the command line asks for.
#[derive(Drop)]
pub struct Options {
    /// The path of the socket that is served; standard input and output where there is none.
    pub socket: Option<String>,
    /// How many connections of the socket are served.
    pub connections: u16,
    /// How many turns are given to open questions behind each line.
    pub slice: u32,
    /// How many entries of the cache an edit may find in memory before some are evicted; any number where there is none.
    pub keep: Option<u32>,
    /// How many nodes the tree may have: 1 to 16,777,216.
    pub nodes: Option<u32>,
    /// The language that the aspects are written in.
    pub language: Language,
    /// Whether values are verified before each turn of a posted question, too.
    pub cut_off: bool,
    /// Whether names are looked up by key.
    pub index: bool,
    /// Whether replies to lines that come together are sent on together.
    pub gather: bool,
    /// Whether the engine's work is printed at the end.
    pub work: bool,
    pub grammar: String,
    pub tree: String,
    pub aspects: Vec<String>,
}

/// Why the words ask for nothing that can be served. It is shown as its text, without a newline at the end.
#[derive(Debug, Drop, Error)]
pub enum WordsFault {
    /// What is wrong with the words, or the help or the version that they ask for.
    #[error("{text}")]
    Words { text: String },
    /// Memory ran out.
    #[error("memory")]
    Memory,
}

impl From<AllocError> for WordsFault {
    ghost from_gives = { λ _ e. e ≡ Memory };

    fn from(_e: AllocError) -> WordsFault {
        WordsFault::Memory
    }
}

impl<T: Drop> From<AllocFailed<T>> for WordsFault {
    ghost from_gives = { λ _ e. e ≡ Memory };

    fn from(_e: AllocFailed<T>) -> WordsFault {
        WordsFault::Memory
    }
}
