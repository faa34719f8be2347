//! attrd: an attribute tree server in the JastAdd profile. It reads a grammar, a tree and aspects, and answers
//! lines of standard input on standard output, or those of the connections of a socket.
//!
//! **Its specs:** `CommandLine` is which words are taken, `Forms` which language they name, `Options` what they ask for, `Seen` what is known of those who connect,
//! `Doors` what is done with their connections, `Connections` how these ended, `Statuses` with which status the program ends,
//! `Failures` what it says then, and `Reasons` the system's reasons.
//!
//! **Where to begin:** `main`, below; `options/words.rt` reads the words, `socket.rt` has the socket and its file,
//! `door.rt` where connections come from, `serving.rt` serves them, `failure.rt` and `reason.rt` have what is printed, `stack.rt` takes the stack.
//!
//! **What it keeps true:** standard input is answered by `at_start`'s `answer`, and connections one after the other by
//! `at_engine`'s `run`, each in the state in which the one before it has left the engine. Nothing else is written.
#![tactic(auto)]

ghost use Rattle.std.specs.Prelude.{◌≡◌, None, IfErr, IfOk};
ghost use Rattle.std.specs.Option.{unwrap_or};
ghost use Rattle.at_model.specs.Edits.{usual_nodes};
ghost use Rattle.at_engine.specs.Engines.{most_of, rules_of, slice_of, state_of, IsSound, KeepsNothing};
ghost use Rattle.at_engine.specs.Keeping.{IsSpare};
ghost use Rattle.at_start.specs.Starts.{AreSameButTree, IsFaultOf, IsStartFault, IsStarted};
ghost use Rattle.at_start.specs.Whole.{AnswersFiles, RunsFiles};

mod door;
mod failure;
mod options;
mod reason;
mod serving;
mod socket;
mod stack;

use at_cache::{KeepInTurns, KeepRecorded};
use at_engine::{Engine, Input, Output, Watched};
use at_evict::Bounded;
use at_start::{
    Answered, Files, MAX_FILE, Source, StartFault, USUAL_NODES, answer, start_with, tree_bytes,
};
use door::Gathering;
use failure::{Failure, status, tell};
use options::{Options, options};
use reason::Reason;
use serving::{Served, serve};
use socket::Socket;
use stack::take_stack;
use std::alloc::Global;
use std::fs::File;
use std::io::{BufWriter, ErrorKind, Read};
use std::os::unix::net::UnixListener;
use std::process::ExitCode;
use std::{env, io, mem};

/// Serves what the words of the command line ask for, and ends with status 0; 1 where a file is refused, 2 where the
/// words are, 3 where a file, the socket or a stream fails, 4 where memory ran out. The stack of the deepest question is taken
/// before a file is read.
fn main(rt: HostRuntime) -> ExitCode {
    let mut work = None;
    let served = if take_stack() {
        serve_words(&rt, &mut work)
    } else {
        Err(Failure::Memory)
    };
    ended(&rt, &served, work)
}

/// How many values an engine has counted, and how many of them were evaluated, where others are reused.
#[derive(Clone, Copy)]
struct Work {
    found: u64,
    made: Option<u64>,
}

/// The end of what was served: its failure is printed, and then the work, where there is one and memory didn't run out. A
/// fault of standard error itself has no other place to be reported.
fn ended(rt: &HostRuntime, served: &Result<(), Failure>, work: Option<Work>) -> ExitCode {
    let mut code = 0;
    if let Err(failure) = served {
        code = status(failure);
        let _ = tell(rt, failure);
    }
    if let Some(work) = work
        && code != 4
    {
        tell_work(rt, work);
    }
    ExitCode::from(code)
}

/// Prints the work.
fn tell_work(rt: &HostRuntime, work: Work) {
    let _ = eprintln!(rt; "work {}", work.found);
    if let Some(made) = work.made {
        let _ = eprintln!(rt; "made {made}");
    }
}

/// The work of the engine.
fn work_of<K: Bounded>(options: &Options, engine: &Engine<K>) -> Work {
    Work {
        found: engine.work(),
        made: if options.cut_off {
            Some(engine.made())
        } else {
            None
        },
    }
}

/// Serves what the words of the command line ask for, over a cache with which turns reuse just where cut-off is asked for; and notes the
/// engine's work, where they ask for that.
fn serve_words(rt: &HostRuntime, work: &mut Option<Work>) -> Result<(), Failure> {
    let options = asked(rt)?;
    let mut files = read_files(rt, &options)?;
    let keeper = KeepRecorded::new(rt.alloc());
    if options.cut_off {
        return serve_over(rt, &options, &mut files, KeepInTurns { keeper }, work);
    }
    serve_over(rt, &options, &mut files, keeper, work)
}

/// Serves what is asked for over an empty cache, with which turns reuse just where cut-off is asked for; and notes the engine's work, where
/// that is, too.
fn serve_over<K: Bounded>(
    rt: &HostRuntime,
    options: &Options,
    files: &mut Files,
    keeper: K,
    work: &mut Option<Work>,
) -> Result<(), Failure>
    requires empty { KeepsNothing K.contents K.memories keeper }
    requires turning { (K.memories keeper).in_turns ≡ options.now.cut_off }
{
    let mut done = None;
    let served = match &options.socket {
        Some(path) => serve_connections(rt, path.as_str(), options, files, keeper, &mut done),
        None => serve_standard(rt, options, files, keeper, &mut done),
    };
    if options.work {
        *work = done;
    }
    served
}

/// What the words after the program's name ask for.
fn asked(rt: &HostRuntime) -> Result<Options, Failure> {
    let words = words(rt)?;
    let mut texts = Vec::with_capacity(rt.alloc(), words.len())?;
    for word in &words {
        texts.push(word.as_str())?;
    }
    Ok(options(rt.alloc(), &texts)?)
}

/// The words after the program's name.
fn words(rt: &HostRuntime) -> Result<Vec<String>, Failure> {
    match env::args(rt) {
        Ok(args) => Ok(args.skip(1).collect(rt.alloc())?),
        Err(e) if e.kind() == ErrorKind::OutOfMemory => Err(Failure::Memory),
        Err(_) => Err(Failure::NoText),
    }
}

/// The failure of files that make no engine.
fn refused(rt: &HostRuntime, files: &Files, fault: &StartFault) -> Failure
    requires { IsFaultOf files.now fault.now }
{
    if let StartFault::Memory = fault {
        return Failure::Memory;
    }
    match fault.text(rt.alloc(), files) {
        Ok(text) => Failure::Refused { text },
        Err(_) => Failure::Memory,
    }
}

/// Serves standard input, and replies on standard output, which has a buffer where replies are gathered; notes the engine's
/// work.
fn serve_standard<K: Bounded>(
    rt: &HostRuntime,
    options: &Options,
    files: &mut Files,
    keeper: K,
    work: &mut Option<Work>,
) -> Result<(), Failure>
    requires { KeepsNothing K.contents K.memories keeper }
{
    if !options.gather {
        let mut writer = Watched::new(io::writer(rt));
        return serve_lines(rt, options, files, keeper, &mut writer, work);
    }
    let Ok(buffered) = BufWriter::new(rt.alloc(), io::writer(rt)) else {
        return Err(Failure::Memory);
    };
    let mut writer = Watched::new(buffered);
    serve_lines(rt, options, files, keeper, &mut writer, work)
}

/// Serves standard input, and writes the replies there; notes the engine's work.
fn serve_lines<K: Bounded, W: Output>(
    rt: &HostRuntime,
    options: &Options,
    files: &mut Files,
    keeper: K,
    writer: &mut W,
    work: &mut Option<Work>,
) -> Result<(), Failure>
    requires { KeepsNothing K.contents K.memories keeper }
{
    let mut reader = Watched::new(rt.reader());
    match answer_asked(rt.alloc(), options, files, keeper, &mut reader, writer) {
        Ok(answered) => {
            let Answered { run, engine } = answered;
            *work = Some(work_of(options, &engine));
            // what it holds goes with the process, at once
            mem::forget(engine);
            match run {
                Ok(_) => Ok(()),
                Err(fault) => Err(Failure::Run(fault)),
            }
        }
        Err(fault) => Err(refused(rt, files, &fault)),
    }
}

/// Serves the lines that the reader gives by the engine that the files make over the empty cache, as is asked for.
fn answer_asked<K: Bounded, R: Input, W: Output>(
    alloc: Global,
    options: &Options,
    files: &mut Files,
    keeper: K,
    reader: &mut R,
    writer: &mut W,
) -> Result<Answered<K>, StartFault>
    requires { KeepsNothing K.contents K.memories keeper }
    ensures answers { AnswersFiles files.old options.now.slice result (R.remaining reader.old) (R.remaining reader.new)
        (W.contents writer.old) (W.contents writer.new) }
    ensures runs { IfOk result (RunsFiles K.contents K.memories R.remaining R.failed R.ended R.reads W.contents W.failed W.waits files.old
        options.now.slice options.now.keep options.now.gather reader.old reader.new writer.old writer.new) }
    ensures rest { AreSameButTree files.old files.new }
{
    let most = most_asked(options);
    answer(
        alloc,
        files,
        keeper,
        options.slice,
        most,
        reader,
        writer,
        options.gather,
    )
}

/// The engine that the files make over the empty cache, with the turns and the bound that are asked for.
fn start_asked<K: Bounded>(
    alloc: Global,
    options: &Options,
    files: &mut Files,
    keeper: K,
) -> Result<Engine<K>, StartFault>
    requires { KeepsNothing K.contents K.memories keeper }
    ensures started { IfOk result (λ e. IsStarted files.old (rules_of e) (state_of e)) }
    ensures sound { IfOk result (IsSound K.contents K.memories) }
    ensures slice { IfOk result (λ e. slice_of e ≡ options.now.slice) }
    ensures most { IfOk result (λ e. most_of e ≡ options.now.keep) }
    ensures spare { IfOk result (λ e. options.now.keep ≡ None → IsSpare K.contents e) }
    ensures refused { IfErr result (IsStartFault files.old) }
    ensures rest { AreSameButTree files.old files.new }
{
    let mut engine = start_with(alloc, files, keeper)?;
    engine.set_slice(options.slice);
    engine.set_most(most_asked(options));
    Ok(engine)
}

/// How many entries of the cache an edit leaves in memory at most, where a bound is asked for.
fn most_asked(options: &Options) -> Option<usize>
    ensures { result ≡ options.now.keep }
{
    match options.keep {
        Some(most) => Some(most as usize),
        None => None,
    }
}

/// Serves the connections of the socket with the engine that the files make; notes the engine's work. What the engine holds is
/// left to the end of the process.
fn serve_connections<K: Bounded>(
    rt: &HostRuntime,
    path: &str,
    options: &Options,
    files: &mut Files,
    keeper: K,
    work: &mut Option<Work>,
) -> Result<(), Failure>
    requires { KeepsNothing K.contents K.memories keeper }
{
    let mut engine = match start_asked(rt.alloc(), options, files, keeper) {
        Ok(engine) => engine,
        Err(fault) => return Err(refused(rt, files, &fault)),
    };
    let served = serve_socket(rt, path, options, &mut engine);
    *work = Some(work_of(options, &engine));
    mem::forget(engine);
    served
}

/// Serves as many connections of the socket as are asked for; it has a file as long as that takes. Where the socket can't be
/// made, nothing is served.
fn serve_socket<K: Bounded>(
    rt: &HostRuntime,
    path: &str,
    options: &Options,
    engine: &mut Engine<K>,
) -> Result<(), Failure>
    requires { IsSound K.contents K.memories engine.old }
{
    let mut socket = match Socket::bind(rt, path) {
        Ok(socket) => socket,
        Err(e) if e.kind() == ErrorKind::OutOfMemory => return Err(Failure::Memory),
        Err(e) => {
            return Err(Failure::Socket {
                reason: Reason::of(&e),
            });
        }
    };
    let served = if options.gather {
        serve_gathering(
            engine,
            &mut socket.listener,
            rt.alloc(),
            options.connections,
        )
    } else {
        serve(engine, &mut socket.listener, options.connections)
    };
    socket.remove_file(rt, path);
    if served.is_faultless() {
        Ok(())
    } else {
        Err(Failure::Connections(served))
    }
}

/// Serves so many connections, and gathers their replies.
fn serve_gathering<K: Bounded>(
    engine: &mut Engine<K>,
    listener: &mut UnixListener,
    alloc: Global,
    connections: u16,
) -> Served
    requires { IsSound K.contents K.memories engine.old }
{
    let mut door = Gathering { listener, alloc };
    serve(engine, &mut door, connections)
}

/// How many nodes the tree may have.
fn nodes_asked(options: &Options) -> u32
    ensures { result ≡ unwrap_or options.now.nodes usual_nodes }
{
    options.nodes.unwrap_or(USUAL_NODES)
}

/// The files that are asked for, read in the order grammar, aspects, tree.
fn read_files(rt: &HostRuntime, options: &Options) -> Result<Files, Failure>
    ensures nodes { IfOk result (λ files. files.nodes ≡ unwrap_or options.now.nodes usual_nodes) }
    ensures language { IfOk result (λ files. files.language ≡ options.now.language) }
    ensures index { IfOk result (λ files. files.index ≡ options.now.index) }
{
    let grammar = read_file(rt, &options.grammar, MAX_FILE)?;
    let mut aspects = Vec::new(rt.alloc());
    for name in &options.aspects {
        aspects.push(read_file(rt, name, MAX_FILE)?)?;
    }
    let nodes = nodes_asked(options);
    let tree = read_file(rt, &options.tree, tree_bytes(nodes))?;
    Ok(Files {
        grammar,
        tree,
        aspects,
        nodes,
        language: options.language,
        index: options.index,
    })
}

/// The file of that name, and one byte more at most than it may have.
fn read_file(rt: &HostRuntime, name: &str, most: usize) -> Result<Source, Failure> {
    let name = String::from_str(rt.alloc(), name)?;
    let mut bytes = Vec::new(rt.alloc());
    match read_bytes(rt, name.as_str(), most, &mut bytes) {
        Ok(()) => Ok(Source { name, bytes }),
        Err(e) if e.kind() == ErrorKind::OutOfMemory => Err(Failure::Memory),
        Err(e) => Err(Failure::File {
            name,
            reason: Reason::of(&e),
        }),
    }
}

fn read_bytes(rt: &HostRuntime, name: &str, most: usize, bytes: &mut Vec<u8>) -> io::Result<()> {
    let file = File::open(rt, name)?;
    file.take((most as u64).saturating_add(1))
        .read_to_end(bytes)?;
    Ok(())
}
