//! The connections of a socket, served one after the other.
ghost use Rattle.std.specs.Prelude.{◌≡◌, ◌≤◌, ◌+◌, ◌<◌, ◌^◌, ◌==◌, Some};
ghost use Rattle.at_engine.specs.Engines.{rules_of, settings_of, IsSound};
ghost use Rattle.at_engine.specs.Keeping.{IsSpare, KeepsWhole};
ghost use Rattle.attrd.specs.Connections.{counted, faults, lack, lacks, nobody};
ghost use Rattle.attrd.specs.Failures.{connection_fault_text, fault_line, served_text};
ghost use Rattle.attrd.specs.Doors.{ServesAll, ServesNext, ending};

use crate::door::Door;
use at_engine::{Engine, Report, RunFault, run_gathering};
use at_evict::Bounded;
use std::fmt;

/// How many connections ended, and how many of them by each fault.
#[derive(Clone, Copy, Debug)]
pub struct Served {
    /// All of them.
    pub ended: u16,
    /// A read failed.
    pub read: u16,
    /// A write failed.
    pub write: u16,
    /// There was more to be read after as many reads as a run may make.
    pub reads: u16,
    /// The buffers were refused, and nothing was read.
    pub memory: u16,
    /// The connection wasn't accepted.
    pub socket: u16,
    /// How many were served to their end, where a line or a question was answered `memory`.
    pub lacking: u16,
}

/// Why a connection ended before its input.
#[derive(Clone, Copy, Debug)]
pub enum ConnectionFault {
    /// It wasn't accepted.
    Socket,
    /// Its run broke off.
    Run(RunFault),
}

impl ConnectionFault {
    /// The fault as it is printed.
    fn text(self) -> &'static str
        ensures { result.now ≡ connection_fault_text self }
    {
        match self {
            ConnectionFault::Socket => "socket fault",
            ConnectionFault::Run(fault) => fault.text(),
        }
    }
}

/// The line of one kind of fault, with a newline in front of it behind other lines; nothing where no connection ended so.
#[derive(Clone, Copy)]
struct FaultLine {
    /// How many connections ended by the kinds before.
    before: u32,
    ended: u16,
    fault: ConnectionFault,
}

impl FaultLine {
    fn new(before: u32, ended: u16, fault: ConnectionFault) -> FaultLine
        ensures { (result.before ≡ before) × (result.ended ≡ ended) × (result.fault ≡ fault) }
    {
        FaultLine {
            before,
            ended,
            fault,
        }
    }
}

impl fmt::Display for FaultLine {
    ghost output = { λ line. Some (fault_line line.before line.ended line.fault) };

    fn fmt<W: fmt::Write>(&self, f: &mut fmt::Formatter<W>) -> fmt::Result {
        let text = self.fault.text();
        if self.ended == 0 {
            Ok(())
        } else if self.before == 0 {
            write!(f, "{text}")
        } else {
            write!(f, "\n{text}")
        }
    }
}

/// A line for each kind of fault by which connections ended, without a newline at the end.
impl fmt::Display for Served {
    ghost output = { λ served. Some (served_text served) };

    fn fmt<W: fmt::Write>(&self, f: &mut fmt::Formatter<W>) -> fmt::Result {
        let before_write = u32::from(self.read);
        let before_reads = before_write + u32::from(self.write);
        let before_socket = before_reads + u32::from(self.reads);
        let before_memory = before_socket + u32::from(self.socket);
        let read = FaultLine::new(0, self.read, ConnectionFault::Run(RunFault::Read));
        let write = FaultLine::new(
            before_write,
            self.write,
            ConnectionFault::Run(RunFault::Write),
        );
        let reads = FaultLine::new(
            before_reads,
            self.reads,
            ConnectionFault::Run(RunFault::TooManyReads),
        );
        let socket = FaultLine::new(before_socket, self.socket, ConnectionFault::Socket);
        let memory = FaultLine::new(
            before_memory,
            self.memory,
            ConnectionFault::Run(RunFault::Memory),
        );
        write!(f, "{read}{write}{reads}{socket}{memory}")
    }
}

impl Served {
    /// No connection ended.
    pub fn none() -> Served
        ensures { result ≡ nobody }
    {
        Served {
            ended: 0,
            read: 0,
            write: 0,
            reads: 0,
            memory: 0,
            socket: 0,
            lacking: 0,
        }
    }

    /// Whether no connection ended by a fault.
    pub fn is_faultless(&self) -> bool
        ensures { result ≡ (faults self.now == 0) }
    {
        self.read == 0 && self.write == 0 && self.reads == 0 && self.memory == 0 && self.socket == 0
    }

    /// One more connection ended.
    fn count(&mut self, ended: Result<Report, ConnectionFault>)
        requires few { self.old.ended + 1 < 2 ^ 16 }
        requires within { faults self.old + self.old.lacking ≤ self.old.ended }
        ensures { self.new ≡ counted ended self.old }
    {
        self.ended += 1;
        match ended {
            Ok(report) => {
                if report.memory != 0 {
                    self.lacking += 1;
                }
            }
            Err(ConnectionFault::Socket) => self.socket += 1,
            Err(ConnectionFault::Run(RunFault::Read)) => self.read += 1,
            Err(ConnectionFault::Run(RunFault::Write)) => self.write += 1,
            Err(ConnectionFault::Run(RunFault::TooManyReads)) => self.reads += 1,
            Err(ConnectionFault::Run(RunFault::Memory)) => self.memory += 1,
        }
    }
}

/// Serves so many connections that come through the door, one after the other, all with this engine. A connection's fault
/// ends that connection alone; one that isn't accepted counts, too.
pub fn serve<K: Bounded, D: Door>(engine: &mut Engine<K>, door: &mut D, n: u16) -> Served
    requires sound { IsSound K.contents K.memories engine.old }
    ensures serves { ServesAll K.contents K.memories D.Reader.remaining D.Reader.failed D.Reader.ended D.Reader.reads
        D.Writer.contents D.Writer.failed D.Writer.waits D.gathering
        engine.old (D.seen door.old) n engine.new (D.seen door.new) result }
    ensures spare { KeepsWhole (rules_of engine.old) (lack result) → IsSpare K.contents engine.old → IsSpare K.contents engine.new }
    ensures ended { result.ended ≡ n }
    ensures faults { faults result + result.lacking ≤ n }
    ensures rules { rules_of engine.new ≡ rules_of engine.old }
    ensures settings { settings_of engine.new ≡ settings_of engine.old }
    ensures sound { IsSound K.contents K.memories engine.new }
{
    let mut served = Served::none();
    for turn in 0..n {
        let ended = serve_next(engine, door);
        served.count(ended);
    }
    served
}

/// Serves the connection that comes next.
fn serve_next<K: Bounded, D: Door>(
    engine: &mut Engine<K>,
    door: &mut D,
) -> Result<Report, ConnectionFault>
    requires sound { IsSound K.contents K.memories engine.old }
    ensures serves { ServesNext K.contents K.memories D.Reader.remaining D.Reader.failed D.Reader.ended D.Reader.reads
        D.Writer.contents D.Writer.failed D.Writer.waits D.gathering
        engine.old engine.new (D.seen door.old) (D.seen door.new) result }
    ensures spare { KeepsWhole (rules_of engine.old) (lacks result) → IsSpare K.contents engine.old → IsSpare K.contents engine.new }
    ensures rules { rules_of engine.new ≡ rules_of engine.old }
    ensures settings { settings_of engine.new ≡ settings_of engine.old }
    ensures sound { IsSound K.contents K.memories engine.new }
{
    let Ok(mut ends) = door.open() else {
        return Err(ConnectionFault::Socket);
    };
    let gathers = door.gathers();
    let served = run_gathering(engine, &mut ends.reader, &mut ends.writer, gathers);
    door.note_served(&ends);
    ended(served)
}

/// How a connection ended that a run has served.
fn ended(served: Result<Report, RunFault>) -> Result<Report, ConnectionFault>
    ensures { result ≡ ending served }
{
    match served {
        Ok(report) => Ok(report),
        Err(fault) => Err(ConnectionFault::Run(fault)),
    }
}
