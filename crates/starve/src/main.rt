//! starve: answers lines with a keeper and a bound that a word names, also with one that `attrd` has no option for, and tells how
//! many were answered `memory`. `tools/starve.py` has a request for memory refused in each run, and
//! `tools/of_the_program` plays sessions.
//!
//! **Where to begin:** `serve`, below. Lines are answered by `at_start`'s `answer`, as by `attrd`.
#![tactic(auto)]

ghost use Rattle.at_engine.specs.Engines.{KeepsNothing};

use at_cache::{KeepInTurns, KeepRecorded};
use at_engine::{RunFault, Watched};
use at_evict::Bounded;
use at_start::{Files, Forms, Language, MAX_FILE, Source, StartFault, USUAL_NODES, answer};
use std::alloc::{AllocError, AllocFailed};
use std::fs::File;
use std::io::{ErrorKind, Read};
use std::process::ExitCode;
use std::{env, io};

/// How many entries an edit leaves in memory at most where there is a bound: so few that edits fold what is kept.
const FEW: usize = 4;

/// How many entries an edit leaves in memory at most, where there is a bound, and whether turns keep again what they can.
#[derive(Clone, Copy)]
struct Way {
    most: Option<usize>,
    in_turns: bool,
}

/// Why lines weren't answered to their end.
enum Stop {
    Memory,
    /// Words, a file or a stream.
    Fault,
}

impl From<AllocError> for Stop {
    fn from(_error: AllocError) -> Stop {
        Stop::Memory
    }
}

impl<T: Drop> From<AllocFailed<T>> for Stop {
    fn from(_error: AllocFailed<T>) -> Stop {
        Stop::Memory
    }
}

/// Answers lines of standard input on standard output, by the words `[--forms WORD] KEEPER SLICE GRAMMAR TREE ASPECT..`. Ends
/// with status 0; 2 where words, a file or a stream are at fault, 4 for want of memory outside of the lines.
fn main(rt: HostRuntime) -> ExitCode {
    match serve(&rt) {
        Ok(()) => ExitCode::SUCCESS,
        Err(Stop::Fault) => ExitCode::from(2),
        Err(Stop::Memory) => {
            let _ = eprintln!(rt; "memory");
            ExitCode::from(4)
        }
    }
}

/// Answers the lines as the words say.
fn serve(rt: &HostRuntime) -> Result<(), Stop> {
    let Ok(words) = env::args(rt) else {
        return Err(Stop::Memory);
    };
    let words: Vec<String> = words.skip(1).collect(rt.alloc())?;
    let (index, words) = index_of(words.as_slice());
    let (language, words) = language_of(words);
    let [word, slice, grammar, tree, aspects @ ..] = words else {
        return Err(Stop::Fault);
    };
    let Some(way) = way_of(word.as_str()) else {
        return Err(Stop::Fault);
    };
    let Ok(slice) = slice.parse::<u32>() else {
        return Err(Stop::Fault);
    };
    let mut files = read_files(rt, language, grammar, tree, aspects)?;
    files.index = index;
    let keeper = KeepRecorded::new(rt.alloc());
    if way.in_turns {
        return serve_with(rt, slice, way.most, &mut files, KeepInTurns { keeper });
    }
    serve_with(rt, slice, way.most, &mut files, keeper)
}

/// What the word names: a keeper as `attrd` has it, or as it has it with cut-off; each with no bound, with one of few entries, or with one of
/// none.
fn way_of(word: &str) -> Option<Way> {
    let (most, in_turns) = match word {
        "verified" => (None, false),
        "few-verified" => (Some(FEW), false),
        "until-edit" => (Some(0), false),
        "cut-off" => (None, true),
        "few-cut-off" => (Some(FEW), true),
        "until-edit-cut-off" => (Some(0), true),
        _ => return None,
    };
    Some(Way { most, in_turns })
}

/// Whether the words say in front that names are looked up by key, and the words behind that.
fn index_of(words: &[String]) -> (bool, &[String]) {
    if let [option, rest @ ..] = words
        && option.as_str() == "--index"
    {
        return (true, rest);
    }
    (false, words)
}

/// The language of aspects that the words name in front, and the words behind these.
fn language_of(words: &[String]) -> (Language, &[String]) {
    if let [option, name, rest @ ..] = words
        && option.as_str() == "--forms"
        && let Some(language) = language_named(name)
    {
        return (language, rest);
    }
    (Language::Profile(Forms::NONE), words)
}

/// The language of that name.
fn language_named(name: &str) -> Option<Language> {
    match name {
        "circular" => Some(Language::Profile(Forms { circular: true })),
        "jastadd" => Some(Language::JastAdd),
        _ => None,
    }
}

/// Answers the lines over an empty keeper, with so many turns behind each, and that bound. On standard error it tells how many lines
/// and questions were answered `memory`, and the work.
fn serve_with<K: Bounded>(
    rt: &HostRuntime,
    slice: u32,
    most: Option<usize>,
    files: &mut Files,
    keeper: K,
) -> Result<(), Stop>
    requires { KeepsNothing K.contents K.memories keeper }
{
    let mut reader = Watched::new(rt.reader());
    let mut writer = Watched::new(io::writer(rt));
    let answered = match answer(
        rt.alloc(),
        files,
        keeper,
        slice,
        most,
        &mut reader,
        &mut writer,
        false,
    ) {
        Ok(answered) => answered,
        Err(StartFault::Memory) => return Err(Stop::Memory),
        Err(_) => return Err(Stop::Fault),
    };
    match answered.run {
        Ok(report) => {
            let _ = eprintln!(rt; "memory {}\nwork {}", report.memory, answered.engine.work());
            Ok(())
        }
        Err(RunFault::Memory) => Err(Stop::Memory),
        Err(_) => Err(Stop::Fault),
    }
}

/// The files of these names.
fn read_files(
    rt: &HostRuntime,
    language: Language,
    grammar: &str,
    tree: &str,
    aspects: &[String],
) -> Result<Files, Stop> {
    let mut sources = Vec::new(rt.alloc());
    for name in aspects {
        sources.push(read_file(rt, name)?)?;
    }
    Ok(Files {
        grammar: read_file(rt, grammar)?,
        tree: read_file(rt, tree)?,
        aspects: sources,
        nodes: USUAL_NODES,
        language,
        index: false,
    })
}

/// The file of that name, and one byte more at most than it may have.
fn read_file(rt: &HostRuntime, name: &str) -> Result<Source, Stop> {
    let name = String::from_str(rt.alloc(), name)?;
    let mut bytes = Vec::new(rt.alloc());
    match read_bytes(rt, name.as_str(), &mut bytes) {
        Ok(()) => Ok(Source { name, bytes }),
        Err(e) if e.kind() == ErrorKind::OutOfMemory => Err(Stop::Memory),
        Err(_) => Err(Stop::Fault),
    }
}

fn read_bytes(rt: &HostRuntime, name: &str, bytes: &mut Vec<u8>) -> io::Result<()> {
    let file = File::open(rt, name)?;
    file.take((MAX_FILE as u64).saturating_add(1))
        .read_to_end(bytes)?;
    Ok(())
}
