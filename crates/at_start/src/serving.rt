//! The whole: lines, answered by the engine that files make.

ghost use Rattle.std.specs.Prelude.{◌≡◌, IfErr, IfOk};
ghost use Rattle.at_start.specs.Starts.{AreSameButTree};
ghost use Rattle.at_start.specs.Whole.{AnswersFiles, RunsFiles};
ghost use Rattle.at_engine.specs.Engines.{KeepsNothing};

use super::fault::StartFault;
use super::files::Files;
use super::start_with;
use at_engine::{Engine, Input, Output, Report, RunFault, run_gathering};
use at_evict::Bounded;
use std::alloc::Global;

/// What became of the lines that a reader gave.
#[derive(Drop)]
pub struct Answered<K> {
    /// What the run did, or why it ended before its input.
    pub run: Result<Report, RunFault>,
    /// The engine as the run left it. It tells its work, and answers whatever else is asked.
    pub engine: Engine<K>,
}

/// Serves the lines that the reader gives by the engine that the files make, over an empty keeper, with so many turns behind
/// each line and, where there is a bound, so many entries in memory behind an edit at most; and writes what they are told, where it gathers
/// replies as `run_gathering` does. The bytes of the tree are given back, as by `start`.
///
/// # Errors
///
/// Those of `start`, and then nothing was read or written.
pub fn answer<K: Bounded, R: Input, W: Output>(
    alloc: Global,
    files: &mut Files,
    keeper: K,
    slice: u32,
    most: Option<usize>,
    reader: &mut R,
    writer: &mut W,
    gathers: bool,
) -> Result<Answered<K>, StartFault>
    requires { KeepsNothing K.contents K.memories keeper }
    ensures answers { AnswersFiles files.old slice result (R.remaining reader.old) (R.remaining reader.new) (W.contents writer.old) (W.contents writer.new) }
    ensures runs { IfOk result (RunsFiles K.contents K.memories R.remaining R.failed R.ended R.reads W.contents W.failed W.waits files.old slice
        most gathers reader.old reader.new writer.old writer.new) }
    ensures none { IfErr result (λ _. (reader.new ≡ reader.old) × (writer.new ≡ writer.old)) }
    ensures rest { AreSameButTree files.old files.new }
{
    let mut engine = start_with(alloc, files, keeper)?;
    engine.set_slice(slice);
    engine.set_most(most);
    let run = run_gathering(&mut engine, reader, writer, gathers);
    Ok(Answered { run, engine })
}
