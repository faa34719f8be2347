//! Why the program ends before all is served, and what is printed then.
ghost use Rattle.std.specs.Prelude.{◌≡◌, Some};
ghost use Rattle.attrd.specs.Failures.{failure_text};
ghost use Rattle.attrd.specs.Statuses.{status_of};
ghost use Rattle.attrd.specs.declared.failure.Failure.TheVariants.{Memory};

use crate::options::WordsFault;
use crate::reason::{Behind, Reason};
use crate::serving::Served;
use at_engine::RunFault;
use std::alloc::{AllocError, AllocFailed};
use std::error::Error;
use std::{fmt, io};

/// Why the program ends before all is served. It is shown as its text, without a newline at the end.
#[derive(Debug, Drop)]
pub enum Failure {
    /// The words of the command line ask for nothing that can be served, with the text that says why.
    Words {
        text: String,
    },
    /// A word of the command line is no text.
    NoText,
    /// The file of that name can't be read, for the system's reason where it is known.
    File {
        name: String,
        reason: Option<Reason>,
    },
    /// A file is refused, with the text that says why.
    Refused {
        text: String,
    },
    /// The socket can't be bound, for the system's reason where it is known.
    Socket {
        reason: Option<Reason>,
    },
    /// Standard input or output failed.
    Run(RunFault),
    /// Connections ended by faults.
    Connections(Served),
    /// Memory ran out.
    Memory,
}

impl fmt::Display for Failure {
    ghost output = { λ failure. Some (failure_text failure) };

    fn fmt<W: fmt::Write>(&self, f: &mut fmt::Formatter<W>) -> fmt::Result {
        match self {
            Failure::Words { text } | Failure::Refused { text } => write!(f, "{text}"),
            Failure::NoText => write!(f, "error: a word of the command line is no UTF-8"),
            Failure::File { name, reason } => {
                let behind = Behind(*reason);
                write!(f, "{name}: read fault{behind}")
            }
            Failure::Socket { reason } => {
                let behind = Behind(*reason);
                write!(f, "socket fault{behind}")
            }
            Failure::Run(fault) => f.write_str(fault.text()),
            Failure::Connections(served) => write!(f, "{served}"),
            Failure::Memory => write!(f, "memory"),
        }
    }
}

impl Error for Failure {}

impl From<AllocError> for Failure {
    ghost from_gives = { λ _ e. e ≡ Memory };

    fn from(_e: AllocError) -> Failure {
        Failure::Memory
    }
}

impl<T: Drop> From<AllocFailed<T>> for Failure {
    ghost from_gives = { λ _ e. e ≡ Memory };

    fn from(_e: AllocFailed<T>) -> Failure {
        Failure::Memory
    }
}

impl From<WordsFault> for Failure {
    fn from(fault: WordsFault) -> Failure {
        match fault {
            WordsFault::Words { text } => Failure::Words { text },
            WordsFault::Memory => Failure::Memory,
        }
    }
}

/// The status with which the program ends.
pub fn status(failure: &Failure) -> u8
    ensures { result ≡ status_of failure.now }
{
    match failure {
        Failure::Refused { text: _ } => 1,
        Failure::Words { text: _ } | Failure::NoText => 2,
        Failure::File { name: _, reason: _ }
        | Failure::Socket { reason: _ }
        | Failure::Connections(_) => 3,
        Failure::Run(RunFault::Memory) | Failure::Memory => 4,
        Failure::Run(_) => 3,
    }
}

/// Prints the failure on standard error.
pub fn tell(rt: &HostRuntime, failure: &Failure) -> io::Result<()> {
    eprintln!(rt; "{failure}")
}
