//! What engines write for lines.

ghost use Rattle.at_engine.specs.Engines.{KeepsNothing};
ghost use Rattle.at_start.specs.Starts.{IsReady};

use crate::samples::{Sample, TREE, files, over};
use at_cache::KeepRecorded;
use at_engine::{Engine, Report, run};
use at_evict::Bounded;
use at_start::{start, start_with};
use std::alloc::Global;
use std::process::Abort;

/// The calculator's engine.
pub fn calculator(rt: &impl Abort, alloc: Global) -> Engine<KeepRecorded>
    ensures { IsReady result }
{
    let mut files = files(rt, alloc, &over(TREE));
    match start(alloc, &mut files) {
        Ok(engine) => engine,
        Err(_) => panic!(rt; "no engine"),
    }
}

/// What a fresh engine over an empty keeper, with that bound for edits, writes for the lines, each of which a turn follows, and what its run
/// reports.
pub fn heard<K: Bounded>(
    rt: &impl Abort,
    alloc: Global,
    sample: &Sample,
    keeper: K,
    most: Option<usize>,
    lines: &str,
) -> (Vec<u8>, Report)
    requires { KeepsNothing K.contents K.memories keeper }
{
    let mut files = files(rt, alloc, sample);
    let mut engine = match start_with(alloc, &mut files, keeper) {
        Ok(engine) => engine,
        Err(_) => panic!(rt; "no engine"),
    };
    engine.set_most(most);
    let mut reader = lines.as_bytes();
    let mut out = Vec::new(alloc);
    let report = run(&mut engine, &mut reader, &mut out)
        .ok()
        .expect(rt, "a whole run");
    (out, report)
}
