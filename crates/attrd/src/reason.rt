//! Why the system refuses a file or a socket, as it says so itself.
ghost use Rattle.std.specs.Prelude.{◌≡◌, Some};
ghost use Rattle.attrd.specs.Reasons.{reason_in, reason_numbers, reason_of, reason_text, line_behind};
ghost use Rattle.std.specs.IoError.{raw_os_error};

use std::{fmt, io};

/// The system's number where a file's name is too long.
pub const NAME_TOO_LONG: i32 = 36;

/// The system's number where an address is in use, as another file at a socket's path.
pub const ADDRESS_IN_USE: i32 = 98;

/// Why the system refuses a file or a socket. It is shown as the system's own text, which is that of Linux.
#[derive(Clone, Copy, Debug, PartialEq, Eq)]
pub enum Reason {
    NotPermitted,
    NotFound,
    InputOutput,
    NoDevice,
    PermissionDenied,
    NotADirectory,
    IsADirectory,
    InvalidArgument,
    TooManyInSystem,
    TooManyOpen,
    NoSpace,
    ReadOnly,
    NameTooLong,
    TooManyLinks,
    FamilyNotSupported,
    AddressInUse,
}

impl Reason {
    /// The reason that the system gave for the error; none where the error isn't the system's, or has no reason here.
    pub fn of(error: &io::Error) -> Option<Reason>
        ensures { result ≡ reason_of (raw_os_error error.now) }
    {
        let number = error.raw_os_error()?;
        if number < 0 {
            None
        } else {
            Reason::numbered(number.unsigned_abs())
        }
    }

    /// The reason that has this number in Linux, on each of its processors.
    fn numbered(number: u32) -> Option<Reason>
        ensures { result ≡ reason_in reason_numbers number }
    {
        let reason = match number {
            1 => Reason::NotPermitted,
            2 => Reason::NotFound,
            5 => Reason::InputOutput,
            6 => Reason::NoDevice,
            13 => Reason::PermissionDenied,
            20 => Reason::NotADirectory,
            21 => Reason::IsADirectory,
            22 => Reason::InvalidArgument,
            23 => Reason::TooManyInSystem,
            24 => Reason::TooManyOpen,
            28 => Reason::NoSpace,
            30 => Reason::ReadOnly,
            36 => Reason::NameTooLong,
            40 => Reason::TooManyLinks,
            97 => Reason::FamilyNotSupported,
            98 => Reason::AddressInUse,
            _ => return None,
        };
        Some(reason)
    }
}

impl fmt::Display for Reason {
    ghost output = { λ reason. Some (reason_text reason) };

    fn fmt<W: fmt::Write>(&self, f: &mut fmt::Formatter<W>) -> fmt::Result {
        f.write_str(match self {
            Reason::NotPermitted => "Operation not permitted",
            Reason::NotFound => "No such file or directory",
            Reason::InputOutput => "Input/output error",
            Reason::NoDevice => "No such device or address",
            Reason::PermissionDenied => "Permission denied",
            Reason::NotADirectory => "Not a directory",
            Reason::IsADirectory => "Is a directory",
            Reason::InvalidArgument => "Invalid argument",
            Reason::TooManyInSystem => "Too many open files in system",
            Reason::TooManyOpen => "Too many open files",
            Reason::NoSpace => "No space left on device",
            Reason::ReadOnly => "Read-only file system",
            Reason::NameTooLong => "File name too long",
            Reason::TooManyLinks => "Too many levels of symbolic links",
            Reason::FamilyNotSupported => "Address family not supported by protocol",
            Reason::AddressInUse => "Address already in use",
        })
    }
}

/// The reason behind a fault: shown on a line of its own, where it is known; else as nothing.
#[derive(Clone, Copy)]
pub struct Behind(pub Option<Reason>);

impl fmt::Display for Behind {
    ghost output = { λ behind. Some (line_behind behind.0) };

    fn fmt<W: fmt::Write>(&self, f: &mut fmt::Formatter<W>) -> fmt::Result {
        match self.0 {
            Some(reason) => write!(f, "\n{reason}"),
            None => Ok(()),
        }
    }
}
