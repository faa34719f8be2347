//! What a run holds from line to line, and what it says of itself.
ghost use Rattle.std.specs.Prelude.{◌≡◌, ◌≤◌, ◌<◌, ◌+◌, ◌^◌, ◌++◌, vec_len, vec_capacity, [], IfOk, if◌then◌else◌};
ghost use Rattle.at_engine.specs.Loop.{kept};
ghost use Rattle.at_engine.specs.declared.engine.TheConstants.{REPLY_ROOM};
ghost use Rattle.at_protocol.specs.declared.line.TheConstants.{MAX_LINE};

use crate::engine::REPLY_ROOM;
use at_protocol::line::MAX_LINE;
use std::alloc::{AllocError, Global};
use thiserror::Error;

/// What a run did.
#[derive(Clone, Copy, Debug, PartialEq, Eq)]
pub struct Report {
    /// How many lines that aren't empty it served.
    pub lines: u128,
    /// How many of them were accepted edits.
    pub accepted: u128,
    /// How many lines and questions were answered `memory`.
    pub memory: u128,
    /// The engine's work at the end.
    pub work: u64,
}

/// Why a run ended before its input. It is shown as its text.
#[derive(Clone, Copy, Debug, PartialEq, Eq, Error)]
#[error("{}", self.text())]
pub enum RunFault {
    /// A read failed.
    Read,
    /// A write or a flush failed, or a write took no byte.
    Write,
    /// The input goes on after as many reads as a run may make.
    TooManyReads,
    /// The buffers were refused, before the first read.
    Memory,
}

impl RunFault {
    ghost use Rattle.std.specs.Prelude.{◌≡◌};
    ghost use Rattle.at_engine.specs.RunFaults.{fault_text};

    /// The fault as it is printed.
    pub fn text(self) -> &'static str
        ensures { result.now ≡ fault_text self }
    {
        match self {
            RunFault::Read => "read fault",
            RunFault::Write => "write fault",
            RunFault::TooManyReads => "too many reads",
            RunFault::Memory => "memory",
        }
    }
}

/// What a run holds from line to line: the line that is being read, the reply that is being written, and counts.
pub struct Desk {
    pub line: Vec<u8>,
    pub reply: Vec<u8>,
    pub lines: u128,
    pub memory: u128,
    ghost line_room: { MAX_LINE < vec_capacity line },
    ghost line_short: { vec_len line ≤ MAX_LINE + 1 },
    ghost reply_room: { REPLY_ROOM ≤ vec_capacity reply },
}

/// One call, where each exit that lets it go would else have a case for each field.
impl Drop for Desk {
    fn drop(self) {
        let Desk {
            line: _,
            reply: _,
            lines: _,
            memory: _,
        } = self;
    }
}

impl Desk {
    /// A desk with its two buffers.
    pub fn new(alloc: Global) -> Result<Desk, AllocError>
        ensures line { IfOk result (λ desk. desk.line.items ≡ []) }
        ensures lines { IfOk result (λ desk. desk.lines ≡ 0) }
        ensures memory { IfOk result (λ desk. desk.memory ≡ 0) }
    {
        let line = Vec::with_capacity(alloc, MAX_LINE + 1)?;
        let reply = Vec::with_capacity(alloc, REPLY_ROOM)?;
        Ok(Desk {
            line,
            reply,
            lines: 0,
            memory: 0,
        })
    }

    /// More bytes of the line that is being read; of a line that is too long only the front is kept.
    pub fn keep(&mut self, bytes: &[u8])
        ensures line { self.new.line.items ≡ kept (self.old.line.items ++ bytes.now) }
        ensures lines { self.new.lines ≡ self.old.lines }
        ensures memory { self.new.memory ≡ self.old.memory }
    {
        let room = MAX_LINE + 1 - self.line.len();
        let (front, _) = bytes.split_at(room.min(bytes.len()));
        match self.line.extend_from_slice(front) {
            Ok(()) => {}
            Err(_) => unreachable!(),
        }
    }

    /// One more line was answered.
    pub fn count_line(&mut self)
        requires { self.old.lines + 1 < 2 ^ 128 }
        ensures lines { self.new.lines ≡ self.old.lines + 1 }
        ensures rest { (self.new.memory ≡ self.old.memory) × (self.new.line.items ≡ self.old.line.items) × (self.new.reply.items ≡ self.old.reply.items) }
    {
        self.lines += 1;
    }

    /// A line or a question was answered; whether for want of memory.
    pub fn count_answer(&mut self, wants: bool)
        requires { self.old.memory + 1 < 2 ^ 128 }
        ensures memory { self.new.memory ≡ self.old.memory + (if wants then 1 else 0) }
        ensures rest { (self.new.lines ≡ self.old.lines) × (self.new.line.items ≡ self.old.line.items) × (self.new.reply.items ≡ self.old.reply.items) }
    {
        if wants {
            self.memory += 1;
        }
    }

    /// What it says of itself, where so many edits were accepted and the engine's work is so much.
    pub fn report(&self, accepted: u64, work: u64) -> Report
        ensures lines { result.lines ≡ self.now.lines }
        ensures accepted { result.accepted ≡ accepted }
        ensures memory { result.memory ≡ self.now.memory }
        ensures work { result.work ≡ work }
    {
        Report {
            lines: self.lines,
            accepted: u128::from(accepted),
            memory: self.memory,
            work,
        }
    }
}
