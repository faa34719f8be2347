//! Why files make no server, and how that is printed.

ghost use Rattle.std.specs.Prelude.{◌≡◌, string_bytes, IfOk};
ghost use Rattle.at_start.specs.declared.fault.StartFault.TheVariants.{Memory};
ghost use Rattle.at_start.specs.Starts.{IsFaultOf};
ghost use Rattle.at_start.specs.StartFaults.{fault_text, refused_text, file_name, of_file, of_tree};

use super::files::{Files, Source};
use crate::code::Code;
use at_text::fault::{Failure, Fault};
use at_text::place::Place;
use std::alloc::{AllocError, AllocFailed, Global};

/// Why files make no engine.
#[derive(Debug, Drop)]
pub enum StartFault {
    /// A file is refused: its number, from 0 in the order grammar, aspects, tree; the code; and but
    /// for a tree file the line and the column, both from 1.
    Refused {
        file: usize,
        code: Code,
        at: Option<Place>,
    },
    /// Want of memory.
    Memory,
}

/// The fault of the grammar or of an aspect file, by its number.
pub fn of_file(file: usize, fault: Fault<Code>) -> StartFault
    ensures { result ≡ of_file file fault }
{
    match fault {
        Fault::Refused { code, at } => StartFault::Refused {
            file,
            code,
            at: Some(at),
        },
        Fault::Memory => StartFault::Memory,
    }
}

/// The fault of the tree file, by its number.
pub fn of_tree(file: usize, fault: Failure<Code>) -> StartFault
    ensures { result ≡ of_tree file fault }
{
    match fault {
        Failure::For(code) => StartFault::Refused {
            file,
            code,
            at: None,
        },
        Failure::Memory => StartFault::Memory,
    }
}

impl From<AllocError> for StartFault {
    ghost from_gives = { λ _ e. e ≡ Memory };

    fn from(_e: AllocError) -> StartFault {
        StartFault::Memory
    }
}

impl<T: Drop> From<AllocFailed<T>> for StartFault {
    ghost from_gives = { λ _ e. e ≡ Memory };

    fn from(_e: AllocFailed<T>) -> StartFault {
        StartFault::Memory
    }
}

/// The file of that number, in the order grammar, aspects, tree.
fn numbered_file(files: &Files, file: usize) -> &Source
    ensures { string_bytes result.now.name ≡ file_name files.now file }
{
    if file == 0 {
        return &files.grammar;
    }
    files.aspects.get(file - 1).unwrap_or(&files.tree)
}

impl StartFault {
    /// The fault of these files as it is printed, without a newline.
    ///
    /// # Errors
    ///
    /// `AllocError` for want of memory.
    pub fn text(&self, alloc: Global, files: &Files) -> Result<String, AllocError>
        requires { IsFaultOf files.now self.now }
        ensures { IfOk result (λ text. string_bytes text ≡ fault_text files.now self.now) }
    {
        match self {
            StartFault::Refused { file, code, at } => {
                refused_text(alloc, numbered_file(files, *file).name.as_str(), *code, *at)
            }
            StartFault::Memory => String::from_str(alloc, "memory"),
        }
    }
}

/// The file's name, the code, and where there is one the place: `NAME: CODE at LINE:COLUMN`.
fn refused_text(
    alloc: Global,
    name: &str,
    code: Code,
    at: Option<Place>,
) -> Result<String, AllocError>
    ensures { IfOk result (λ text. string_bytes text ≡ refused_text name.now code at) }
{
    let code = code.text();
    match at {
        Some(Place { line, column }) => format!(in alloc; "{name}: {code} at {line}:{column}"),
        None => format!(in alloc; "{name}: {code}"),
    }
}
