//! The loop over lines: bytes come in pieces of any size, each line is served whole, and its reply is written before the
//! next line is served. It is sent on then, too; or, where replies are gathered, before anything that may take long.
ghost use Rattle.std.specs.Prelude.{◌≡◌, ◌⊎◌, ◌∷◌, ◌++◌, ◌<◌, ◌≤◌, ◌+◌, [], true, false, length, is_err, vec_len, None, IfSome, MatchOption, OnOk};
ghost use Rattle.at_engine.specs.Engines.{rules_of, slice_of, IsSound};
ghost use Rattle.at_engine.specs.Ends.{Remembers, SendsOn};
ghost use Rattle.at_engine.specs.Loop.{lets_wait, newline_at, IsNext, IsOpen};
ghost use Rattle.at_engine.specs.Going.{CanGive, CanServe, CanServeLine, FinishesAll, SendsEach, ServesLine, TakesBytes, Works};
ghost use Rattle.at_engine.specs.Taking.{Drains, GivesTurns, LeavesTurns, Written};
ghost use Rattle.at_engine.specs.Running.{RunsFor, max_reads};

mod desk;
mod ends;

use crate::engine::{Engine, is_prompt};
use at_evict::Bounded;
use desk::Desk;
pub use desk::{Report, RunFault};
pub use ends::{Input, Output, Watched};
use memchr::memchr;

/// How many reads `run` may take.
const READS: u64 = 1_000_000_000;

/// How many bytes a read may bring.
const PIECE: usize = 8_192;

/// Writes all of the bytes and, where they are due, flushes them. Where a call fails, some front of them was written.
fn write_whole<W: Output>(writer: &mut W, bytes: &[u8], is_due: bool) -> Result<(), RunFault>
    ensures written { Written result (W.contents writer.old) (W.contents writer.new) bytes.now }
    ensures failed { Remembers (W.failed writer.old) (W.failed writer.new) (is_err result) }
    ensures sent { OnOk result (is_due ≡ true → W.waits writer.new ≡ false) }
{
    let mut rest = bytes;
    while !rest.is_empty() {
        match writer.write(rest) {
            Ok(0) | Err(_) => return Err(RunFault::Write),
            Ok(n) => rest = rest.split_at(n).1,
        }
    }
    if !is_due {
        return Ok(());
    }
    match writer.flush() {
        Ok(()) => Ok(()),
        Err(_) => Err(RunFault::Write),
    }
}

/// Serves the line that was read, writes its reply, and gives the turns that follow it. Where the next line is known, the
/// reply may wait for that one's.
#[inline(always)]
fn serve<K: Bounded, W: Output>(
    engine: &mut Engine<K>,
    desk: &mut Desk,
    writer: &mut W,
    next: Option<&[u8]>,
) -> Result<(), RunFault>
    requires { CanServeLine K.contents K.memories engine.old desk.old }
    ensures serves { ServesLine K.contents K.memories W.contents W.failed engine.old engine.new desk.old desk.new writer.old writer.new result }
    ensures sent { OnOk result (lets_wait next.entry ≡ false → W.waits writer.new ≡ false) }
{
    desk.reply.clear();
    match engine.serve(desk.line.as_slice(), &mut desk.reply) {
        Ok(wants) => {
            desk.count_line();
            desk.count_answer(wants);
            let due = is_due(engine, next);
            write_whole(writer, desk.reply.as_slice(), due)?;
            give_turns(engine, desk, writer)
        }
        Err(_) => unreachable!(),
    }
}

/// Whether what was told is sent on before the next line is served: always, but where that one is known, and is answered
/// without that anything is evaluated. No question may be open then.
fn is_due<K: Bounded>(engine: &Engine<K>, next: Option<&[u8]>) -> bool
    requires { IsSound K.contents K.memories engine.now }
    ensures { lets_wait next.entry ≡ false → result ≡ true }
{
    match next {
        Some(line) if !line.is_empty() => !engine.is_settled() || !is_prompt(engine, line),
        _ => true,
    }
}

/// Gives the turns that follow a line, or fewer where no question is open. Each answer is written before the next turn.
fn give_turns<K: Bounded, W: Output>(
    engine: &mut Engine<K>,
    desk: &mut Desk,
    writer: &mut W,
) -> Result<(), RunFault>
    requires { CanServe K.contents K.memories engine.old desk.old 0 }
    ensures { Works K.contents K.memories W.contents W.failed W.waits engine.old engine.new desk.old desk.new writer.old writer.new
        (GivesTurns result (rules_of engine.old) (slice_of engine.old)) result }
{
    if engine.is_settled() {
        return Ok(());
    }
    let mut left = u64::from(engine.slice());
    while left > 0 {
        left = give_some(engine, desk, writer, Some(left))?;
    }
    Ok(())
}

/// Gives turns up to the first answer, which is written: how many of the turns are left. Where no question is answered by
/// them, none is left; and none is counted where there is no limit.
fn give_some<K: Bounded, W: Output>(
    engine: &mut Engine<K>,
    desk: &mut Desk,
    writer: &mut W,
    limit: Option<u64>,
) -> Result<u64, RunFault>
    requires { CanGive K.contents K.memories engine.old desk.old limit }
    ensures { Works K.contents K.memories W.contents W.failed W.waits engine.old engine.new desk.old desk.new writer.old writer.new
        (LeavesTurns result (rules_of engine.old) limit) result }
{
    desk.reply.clear();
    match engine.give(limit, &mut desk.reply) {
        Ok(spent) => match spent.told {
            Some(wants) => {
                desk.count_answer(wants);
                write_whole(writer, desk.reply.as_slice(), true)?;
                Ok(left_of(limit, spent.turns))
            }
            None => Ok(0),
        },
        Err(_) => unreachable!(),
    }
}

/// How many turns are left of those that there may be, where they are counted.
fn left_of(limit: Option<u64>, turns: u64) -> u64
    requires { IfSome limit (λ n. turns ≤ n) }
    ensures { IfSome limit (λ n. turns + result ≡ n) }
{
    match limit {
        Some(limit) => limit - turns,
        None => 0,
    }
}

/// Gives turns until no question is open. Each answer is written before the next turn.
fn drain<K: Bounded, W: Output>(
    engine: &mut Engine<K>,
    desk: &mut Desk,
    writer: &mut W,
) -> Result<(), RunFault>
    requires { CanServe K.contents K.memories engine.old desk.old 0 }
    ensures { Works K.contents K.memories W.contents W.failed W.waits engine.old engine.new desk.old desk.new writer.old writer.new
        (Drains result (rules_of engine.old)) result }
{
    while !engine.is_settled() {
        give_some(engine, desk, writer, None)?;
    }
    Ok(())
}

/// Takes a newline: it ends the line, which is served unless it is empty. Where the next line is known, its reply may wait
/// for that one's.
fn take_newline<K: Bounded, W: Output>(
    engine: &mut Engine<K>,
    desk: &mut Desk,
    writer: &mut W,
    next: Option<&[u8]>,
) -> Result<(), RunFault>
    requires { CanServe K.contents K.memories engine.old desk.old 1 }
    ensures takes { TakesBytes K.contents K.memories W.contents W.failed (10 ∷ []) 1 engine.old engine.new
        desk.old desk.new writer.old writer.new result }
    ensures sent { OnOk result (lets_wait next.entry ≡ false → (W.waits writer.old ≡ false) ⊎ (0 < vec_len desk.old.line)
        → W.waits writer.new ≡ false) }
    ensures each { OnOk result (lets_wait next.entry ≡ false
        → SendsEach K.contents K.memories W.contents W.failed W.waits engine.old writer.old engine.new writer.new) }
{
    if !desk.line.is_empty() {
        serve(engine, desk, writer, next)?;
        desk.line.clear();
    }
    Ok(())
}

/// Takes the bytes of a piece: whole lines, and the front of the next one. Where replies are gathered, one may wait for the
/// next line of the piece; none waits behind the last one.
fn take_piece<K: Bounded, W: Output>(
    engine: &mut Engine<K>,
    desk: &mut Desk,
    piece: &[u8],
    writer: &mut W,
    gathers: bool,
) -> Result<(), RunFault>
    requires { CanServe K.contents K.memories engine.old desk.old (length piece.now) }
    ensures takes { TakesBytes K.contents K.memories W.contents W.failed piece.now (length piece.now)
        engine.old engine.new desk.old desk.new writer.old writer.new result }
    ensures sent { SendsOn result (W.waits writer.old) (W.waits writer.new) }
    ensures each { gathers ≡ false
        → OnOk result (SendsEach K.contents K.memories W.contents W.failed W.waits engine.old writer.old engine.new writer.new) }
{
    let mut rest = piece;
    while let Some((line, behind)) = at_newline(rest) {
        desk.keep(line);
        take_newline(engine, desk, writer, next_line(behind, gathers))?;
        rest = behind;
    }
    desk.keep(rest);
    Ok(())
}

/// The next whole line of a piece, where replies are gathered and there is one.
fn next_line(behind: &[u8], gathers: bool) -> Option<&[u8]>
    ensures never { gathers ≡ false → result ≡ None }
    ensures next { IfSome result (IsNext behind.now) }
{
    if !gathers {
        return None;
    }
    let (line, _) = at_newline(behind)?;
    Some(line)
}

/// The bytes before the first newline, and those behind it, where there is one.
fn at_newline(bytes: &[u8]) -> Option<(&[u8], &[u8])>
    ensures { MatchOption result (IsOpen bytes.now) (λ parts. IsOpen parts.0.now × (bytes.now ≡ parts.0.now ++ 10 ∷ parts.1.now)) }
{
    let end = newline_in(bytes)?;
    let (line, behind) = bytes.split_at(end);
    Some((line, behind.split_at(1).1))
}

/// The place of the first newline.
fn newline_in(bytes: &[u8]) -> Option<usize>
    ensures { result ≡ newline_at bytes.now }
{
    memchr(b'\n', bytes)
}

/// Serves the last line, which no newline ends, unless it is empty, and gives turns until no question is open.
fn finish<K: Bounded, W: Output>(
    engine: &mut Engine<K>,
    desk: &mut Desk,
    writer: &mut W,
) -> Result<(), RunFault>
    requires { CanServe K.contents K.memories engine.old desk.old 1 }
    ensures { FinishesAll K.contents K.memories W.contents W.failed W.waits engine.old engine.new desk.old desk.new writer.old writer.new result }
{
    if desk.line.is_empty() {
        return drain(engine, desk, writer);
    }
    serve(engine, desk, writer, None)?;
    drain(engine, desk, writer)
}

/// Serves the lines that the reader gives, each whole, and writes the reply to each before the next one is looked at. A
/// last line needs no newline; an empty line has no reply. Behind each reply the engine's slice of turns is given to open
/// questions, and at the end of the input turns are given until no question is open; each answer is written before the next
/// turn. Where the run ends by a fault, questions may stay open.
///
/// # Errors
///
/// `Read` and `Write` where a call of the reader or the writer failed, or a write took no byte; `TooManyReads` where the
/// input goes on after 1,000,000,000 reads; `Memory` where its two buffers are refused, before the first read.
pub fn run<K: Bounded, R: Input, W: Output>(
    engine: &mut Engine<K>,
    reader: &mut R,
    writer: &mut W,
) -> Result<Report, RunFault>
    requires sound { IsSound K.contents K.memories engine.old }
    ensures { RunsFor K.contents K.memories R.remaining R.failed R.ended R.reads W.contents W.failed W.waits max_reads false
        engine.old engine.new reader.old reader.new writer.old writer.new result }
{
    run_for(engine, reader, writer, READS)
}

/// Serves as `run` does; and where it gathers replies, one isn't flushed if the next line is in the same piece and is answered
/// as it stands, with no question open. So what waits is flushed before each read, before anything that takes long, and at the
/// end. That is for a writer with a buffer; to another one each reply is written at once all the same.
///
/// # Errors
///
/// As `run`. Where a write failed, the last bytes that the writer has taken may be in its buffer alone.
pub fn run_gathering<K: Bounded, R: Input, W: Output>(
    engine: &mut Engine<K>,
    reader: &mut R,
    writer: &mut W,
    gathers: bool,
) -> Result<Report, RunFault>
    requires sound { IsSound K.contents K.memories engine.old }
    ensures { RunsFor K.contents K.memories R.remaining R.failed R.ended R.reads W.contents W.failed W.waits max_reads gathers
        engine.old engine.new reader.old reader.new writer.old writer.new result }
{
    run_with(engine, reader, writer, READS, gathers)
}

/// Serves as `run` does, with another limit on the reads.
///
/// # Errors
///
/// `TooManyReads` where the input goes on after so many reads; else as `run`.
pub fn run_for<K: Bounded, R: Input, W: Output>(
    engine: &mut Engine<K>,
    reader: &mut R,
    writer: &mut W,
    limit: u64,
) -> Result<Report, RunFault>
    requires sound { IsSound K.contents K.memories engine.old }
    ensures { RunsFor K.contents K.memories R.remaining R.failed R.ended R.reads W.contents W.failed W.waits limit false
        engine.old engine.new reader.old reader.new writer.old writer.new result }
{
    run_with(engine, reader, writer, limit, false)
}

/// Serves as `run` does, with another limit on the reads, and gathers replies or not.
fn run_with<K: Bounded, R: Input, W: Output>(
    engine: &mut Engine<K>,
    reader: &mut R,
    writer: &mut W,
    limit: u64,
    gathers: bool,
) -> Result<Report, RunFault>
    requires sound { IsSound K.contents K.memories engine.old }
    ensures { RunsFor K.contents K.memories R.remaining R.failed R.ended R.reads W.contents W.failed W.waits limit gathers
        engine.old engine.new reader.old reader.new writer.old writer.new result }
{
    let version = engine.version();
    let Ok(mut desk) = Desk::new(engine.alloc) else {
        return Err(RunFault::Memory);
    };
    let mut piece = [0u8; PIECE];
    for turn in 0..limit {
        let count = match reader.read(&mut piece) {
            Ok(count) => count,
            Err(_) => return Err(RunFault::Read),
        };
        if count == 0 {
            finish(engine, &mut desk, writer)?;
            let accepted = engine.version().saturating_sub(version);
            return Ok(desk.report(accepted, engine.work()));
        }
        take_piece(engine, &mut desk, &piece[..count], writer, gathers)?;
    }
    Err(RunFault::TooManyReads)
}
