//! Both ends of a run: where bytes are read from, where replies are written to, and what is known of the calls of both.
ghost use Rattle.std.specs.Prelude.{◌≡◌, ℕ, List, Option, Some, None, Bool, false, is_err, OnOk};
ghost use Rattle.std.specs.Io.{ReadsAtMost, WritesAtMost};
ghost use Rattle.std.specs.Io.KnownBytes.{Keeps, ReadConsumes, WriteAppends};
ghost use Rattle.at_engine.specs.Ends.{Counted, Remembers, brings_none, takes_none};

use std::io::{Read, Result, Write};

/// Where the bytes of lines are read from: any `Read`, or one that is watched.
pub trait Input {
    /// The bytes that reads will give from here on, where they are known.
    ghost remaining: { Self → Option (List ℕ) };

    /// Whether a read failed so far, where that is known.
    ghost failed: { Self → Option Bool };

    /// Whether a read brought no byte so far, where that is known.
    ghost ended: { Self → Option Bool };

    /// How many reads were made so far, where that is known.
    ghost reads: { Self → Option ℕ };

    /// Reads some bytes into the piece; how many.
    ///
    /// # Errors
    ///
    /// Where the read failed; no byte is lost then.
    fn read(&mut self, piece: &mut [u8]) -> Result<usize>
        ensures bound { ReadsAtMost result piece.new }
        ensures bytes { ReadConsumes (remaining self.old) (remaining self.new) result piece.new }
        ensures failed { Remembers (failed self.old) (failed self.new) (is_err result) }
        ensures ended { Remembers (ended self.old) (ended self.new) (brings_none result) }
        ensures counted { Counted (reads self.old) (reads self.new) 1 };
}

/// Where replies are written to: any `Write`, or one that is watched.
pub trait Output {
    /// The bytes that were written so far, where they are known.
    ghost contents: { Self → Option (List ℕ) };

    /// Whether a write or a flush failed so far, or a write took no byte, where that is known.
    ghost failed: { Self → Option Bool };

    /// Whether something that was written is known to wait for being sent on.
    ghost waits: { Self → Bool };

    /// Writes a front of the bytes; how many of them.
    ///
    /// # Errors
    ///
    /// Where the write failed; nothing was written then.
    fn write(&mut self, bytes: &[u8]) -> Result<usize>
        ensures bound { WritesAtMost result bytes.now }
        ensures bytes { WriteAppends (contents self.old) (contents self.new) result bytes.now }
        ensures failed { Remembers (failed self.old) (failed self.new) (takes_none result) };

    /// Sends on what was written.
    ///
    /// # Errors
    ///
    /// Where that failed.
    fn flush(&mut self) -> Result<()>
        ensures bytes { Keeps (contents self.old) (contents self.new) }
        ensures failed { Remembers (failed self.old) (failed self.new) (is_err result) }
        ensures sent { OnOk result (waits self.new ≡ false) };
}

impl<R: Read> Input for R {
    ghost remaining = { λ reader. R.Read.remaining reader };

    ghost failed = { λ _. None };

    ghost ended = { λ _. None };

    ghost reads = { λ _. None };

    fn read(&mut self, piece: &mut [u8]) -> Result<usize> {
        Read::read(self, piece)
    }
}

impl<W: Write> Output for W {
    ghost contents = { λ writer. W.Write.contents writer };

    ghost failed = { λ _. None };

    ghost waits = { λ _. false };

    fn write(&mut self, bytes: &[u8]) -> Result<usize> {
        Write::write(self, bytes)
    }

    fn flush(&mut self) -> Result<()> {
        Write::flush(self)
    }
}

/// A stream that remembers what its calls came to: of reads how many there were, and whether one brought no byte; of writes
/// whether all is sent on; and whether a call failed.
#[derive(Drop)]
pub struct Watched<S> {
    /// The stream.
    pub stream: S,
    failed: bool,
    ended: bool,
    waits: bool,
    reads: u128,
}

impl<S> Watched<S> {
    /// The stream, of which there was no call yet.
    pub fn new(stream: S) -> Watched<S>
        ensures stream { result.stream ≡ stream }
        ensures failed { result.failed ≡ false }
        ensures ended { result.ended ≡ false }
        ensures waits { result.waits ≡ false }
        ensures reads { result.reads ≡ 0 }
    {
        Watched {
            stream,
            failed: false,
            ended: false,
            waits: false,
            reads: 0,
        }
    }

    /// Whether a call failed so far, or a write took no byte.
    pub fn failed(&self) -> bool
        ensures { result ≡ self.now.failed }
    {
        self.failed
    }

    /// Whether a read brought no byte so far.
    pub fn ended(&self) -> bool
        ensures { result ≡ self.now.ended }
    {
        self.ended
    }

    /// Whether there was a write since the last flush that didn't fail.
    pub fn waits(&self) -> bool
        ensures { result ≡ self.now.waits }
    {
        self.waits
    }

    /// How many reads were made so far, up to the greatest number.
    pub fn reads(&self) -> u128
        ensures { result ≡ self.now.reads }
    {
        self.reads
    }
}

impl<R: Read> Input for Watched<R> {
    ghost remaining = { λ watched. R.Read.remaining watched.stream };

    ghost failed = { λ watched. Some watched.failed };

    ghost ended = { λ watched. Some watched.ended };

    ghost reads = { λ watched. Some watched.reads };

    fn read(&mut self, piece: &mut [u8]) -> Result<usize> {
        self.reads = self.reads.saturating_add(1);
        let read = Read::read(&mut self.stream, piece);
        if read.is_err() {
            self.failed = true;
        }
        if matches!(read, Ok(0)) {
            self.ended = true;
        }
        read
    }
}

impl<W: Write> Output for Watched<W> {
    ghost contents = { λ watched. W.Write.contents watched.stream };

    ghost failed = { λ watched. Some watched.failed };

    ghost waits = { λ watched. watched.waits };

    fn write(&mut self, bytes: &[u8]) -> Result<usize> {
        self.waits = true;
        let written = Write::write(&mut self.stream, bytes);
        if !matches!(written, Ok(1..)) {
            self.failed = true;
        }
        written
    }

    fn flush(&mut self) -> Result<()> {
        let flushed = Write::flush(&mut self.stream);
        if flushed.is_err() {
            self.failed = true;
        } else {
            self.waits = false;
        }
        flushed
    }
}
