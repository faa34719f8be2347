//! The socket and its file, which is made at the start and removed at the end.

use crate::reason::{ADDRESS_IN_USE, NAME_TOO_LONG};
use std::fs::Metadata;
use std::io::ErrorKind;
use std::os::unix::fs::{FileTypeExt, MetadataExt};
use std::os::unix::net::{UnixListener, UnixStream};
use std::{fs, io};

/// How many bytes the path of a socket may have.
const MAX_PATH: usize = 107;

/// A socket that is listened on, and its file.
#[derive(Drop)]
pub struct Socket {
    pub listener: UnixListener,
    /// None where the system doesn't tell of the file.
    file: Option<FileId>,
}

/// Which file it is. No other file has its number on its device while a socket is bound to it, also where it has no name
/// any more.
#[derive(Clone, Copy, PartialEq, Eq)]
struct FileId {
    device: u64,
    number: u64,
}

impl Socket {
    /// A socket with a file of that path. The file of a socket on which nobody answers is taken over.
    ///
    /// # Errors
    ///
    /// Where the path is too long, the file can't be made, or another one is there: with the system's number, which tells why.
    pub fn bind(rt: &HostRuntime, path: &str) -> io::Result<Socket> {
        if path.len() > MAX_PATH {
            return Err(io::Error::from_raw_os_error(NAME_TOO_LONG));
        }
        let listener = match UnixListener::bind(rt, path) {
            Err(e) if e.kind() == ErrorKind::AddrInUse => {
                remove_left(rt, path)?;
                UnixListener::bind(rt, path)?
            }
            bound => bound?,
        };
        let file = file_at(rt, path);
        Ok(Socket { listener, file })
    }

    /// Removes the file, unless another one is at that path by now.
    pub fn remove_file(self, rt: &HostRuntime, path: &str) {
        if self.file.is_some() && self.file == file_at(rt, path) {
            // Whoever took the file away meanwhile did what was to be done.
            let _ = fs::remove_file(rt, path);
        }
    }
}

/// Which file is at that path, where the system tells.
fn file_at(rt: &HostRuntime, path: &str) -> Option<FileId> {
    match fs::symlink_metadata(rt, path) {
        Ok(metadata) => Some(file_of(&metadata)),
        Err(_) => None,
    }
}

fn file_of(metadata: &Metadata) -> FileId {
    FileId {
        device: metadata.dev(),
        number: metadata.ino(),
    }
}

/// Removes the file at that path, where it is that of a socket on which nobody answers.
///
/// # Errors
///
/// `ADDRESS_IN_USE` where it is another file, or somebody answers; else that of the removal.
fn remove_left(rt: &HostRuntime, path: &str) -> io::Result<()> {
    let metadata = fs::symlink_metadata(rt, path)?;
    let is_left = metadata.file_type().is_socket() && is_refused(rt, path);
    if is_left && file_at(rt, path) == Some(file_of(&metadata)) {
        fs::remove_file(rt, path)
    } else {
        Err(io::Error::from_raw_os_error(ADDRESS_IN_USE))
    }
}

/// Whether nobody answers on the socket. Who does has one connection more, on which nothing is sent.
fn is_refused(rt: &HostRuntime, path: &str) -> bool {
    match UnixStream::connect(rt, path) {
        Ok(_) => false,
        Err(e) => e.kind() == ErrorKind::ConnectionRefused,
    }
}
