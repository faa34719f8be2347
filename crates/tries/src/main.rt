//! tries: one try of one equation, told by itself. For whoever works on evaluation: a question shows what many tries
//! come to together, and no try alone. Here one says which values are known, and is told what an instance's equation
//! comes to over these, and which locations of the tree were looked at up to there.
//!
//! `tries [--forms circular] GRAMMAR ASPECTS TREE < LINES` answers each line that isn't empty by one line; with `--forms
//! circular` attributes of aspects may be circular. `know PLACE CALL = VALUE` says that the instance has the value, and is
//! answered `known`. `try PLACE CALL` is answered `value VALUE`, `formula FORMULA` where the attribute is circular, `fault
//! WORD` or `need PLACE CALL`, and behind it the set of locations, each once, in the order of their texts: `is PLACE`,
//! `slot PLACE PART`, `token PLACE PART`, `up PLACE`, `index PLACE`. `trial ROUNDS PLACE CALL` and `plain ROUNDS PLACE CALL`
//! are for measuring: the equation is evaluated so many times, by trials over nothing that is known or by a plain recursion,
//! and answered `value VALUE`. Any other line is answered by a word alone: what it can't be read for, or what it names that
//! isn't there.
#![tactic(auto)]

ghost use Rattle.std.specs.Prelude.{IfOk};
ghost use Rattle.tries.specs.Worlds.{AreSound, IsSound, IsTyped};

mod failure;
mod files;
mod formulas;
mod instances;
mod known;
mod plain;
mod refusal;
mod rounds;
mod texts;

use at_body::{Inst, Reads, try_body, try_formula};
use at_jrag::Forms;
use failure::Failure;
use files::{World, load};
use formulas::write_progress;
use instances::{instance, value_for};
use known::Values;
use refusal::Refusal;
use rounds::{Way, tell_last};
use std::alloc::AllocError;
use std::io::{Read, Write};
use std::process::ExitCode;
use std::{env, fs};
use texts::{write_found, write_locations};

/// Answers the lines, and ends with status 0; 1 where a file is refused, 2 where the words aren't such words, 3 where
/// a file or a stream fails, 4 for want of memory.
fn main(rt: HostRuntime) -> ExitCode {
    match serve(&rt) {
        Ok(()) => ExitCode::SUCCESS,
        Err(failure) => {
            let _ = eprintln!(rt; "{failure}");
            ExitCode::from(failure.status())
        }
    }
}

/// Answers the lines of standard input on standard output, over the files that the words name.
fn serve(rt: &HostRuntime) -> Result<(), Failure> {
    let world = world_of_words(rt)?;
    let mut lines = Vec::new(rt.alloc());
    if rt.stdin().read_to_end(&mut lines).is_err() {
        return Err(Failure::Read);
    }
    let answers = answers(&world, &lines)?;
    match rt.stdout().write_all(&answers) {
        Ok(()) => Ok(()),
        Err(_) => Err(Failure::Write),
    }
}

/// The rules and the tree of the files that the words name.
fn world_of_words(rt: &HostRuntime) -> Result<World, Failure>
    ensures { IfOk result IsSound }
{
    let words = words(rt)?;
    match words.as_slice() {
        [grammar, aspects, tree] => world_of(rt, Forms::NONE, grammar, aspects, tree),
        [option, name, grammar, aspects, tree] => {
            world_of(rt, forms_of(option, name)?, grammar, aspects, tree)
        }
        _ => Err(Failure::Words),
    }
}

/// The words behind the program's name.
fn words(rt: &HostRuntime) -> Result<Vec<String>, Failure> {
    let Ok(mut given) = env::args(rt) else {
        return Err(Failure::Words);
    };
    let _program = given.next();
    let mut words = Vec::new(rt.alloc());
    for word in given {
        words.push(word)?;
    }
    Ok(words)
}

/// The forms that the words in front of the files name.
fn forms_of(option: &str, name: &str) -> Result<Forms, Failure> {
    if option == "--forms" && name == "circular" {
        return Ok(Forms { circular: true });
    }
    Err(Failure::Words)
}

/// The rules and the tree of these files.
fn world_of(
    rt: &HostRuntime,
    forms: Forms,
    grammar: &str,
    aspects: &str,
    tree: &str,
) -> Result<World, Failure>
    ensures { IfOk result IsSound }
{
    let grammar = text_of(rt, grammar)?;
    let aspects = text_of(rt, aspects)?;
    let tree = text_of(rt, tree)?;
    load(
        rt.alloc(),
        forms,
        grammar.as_str(),
        aspects.as_str(),
        tree.as_str(),
    )
}

/// The text of a file.
fn text_of(rt: &HostRuntime, file: &str) -> Result<String, Failure> {
    match fs::read_to_string(rt, file) {
        Ok(text) => Ok(text),
        Err(_) => Err(Failure::Read),
    }
}

/// The answers to the lines, each with a newline; none to an empty one.
fn answers(world: &World, lines: &[u8]) -> Result<Vec<u8>, AllocError>
    requires { IsSound world.now }
{
    let mut known = Values::new(world.alloc);
    let mut out = Vec::new(world.alloc);
    for line in lines.split(|byte| *byte == b'\n') {
        if !line.is_empty() {
            tell(world, &mut known, line, &mut out)?;
        }
    }
    Ok(out)
}

/// Appends the answer to a line, and a newline.
fn tell(world: &World, known: &mut Values, line: &[u8], out: &mut Vec<u8>) -> Result<(), AllocError>
    requires sound { IsSound world.now }
    requires known { AreSound world.now known.old }
    ensures { AreSound world.now known.new }
{
    let length = out.len();
    if let Err(refusal) = answer(world, known, line, out) {
        out.truncate(length);
        out.extend_from_slice(refusal.word().as_bytes())?;
    }
    Ok(out.push(b'\n')?)
}

/// Appends the answer to a line, or a part of it where there is none.
fn answer(world: &World, known: &mut Values, line: &[u8], out: &mut Vec<u8>) -> Result<(), Refusal>
    requires sound { IsSound world.now }
    requires known { AreSound world.now known.old }
    ensures { AreSound world.now known.new }
{
    let Ok(line) = std::str::from_utf8(line) else {
        return Err(Refusal::Line);
    };
    let Some((word, rest)) = line.split_once(' ') else {
        return Err(Refusal::Line);
    };
    match word {
        "try" => told(world, known, rest, out),
        "know" => {
            learn(world, known, rest)?;
            Ok(out.extend_from_slice(b"known")?)
        }
        "trial" => tell_last(world, Way::Trial, rest, out),
        "plain" => tell_last(world, Way::Plain, rest, out),
        _ => Err(Refusal::Line),
    }
}

/// Appends what a try of the instance comes to, and the locations that it looks at.
fn told(world: &World, known: &Values, call: &str, out: &mut Vec<u8>) -> Result<(), Refusal>
    requires sound { IsSound world.now }
    requires known { AreSound world.now known.now }
{
    let inst = instance(world, call)?;
    let mut reads = Reads::new(world.alloc);
    told_of(world, known, &inst, &mut reads, out)?;
    Ok(write_locations(world, reads.as_slice(), out)?)
}

/// Appends what a try of the instance comes to, a formula where its attribute is circular. The reads gain the locations that it looks at.
fn told_of(
    world: &World,
    known: &Values,
    inst: &Inst,
    reads: &mut Reads,
    out: &mut Vec<u8>,
) -> Result<(), AllocError>
    requires sound { IsSound world.now }
    requires typed { IsTyped world.now inst.now }
    requires known { AreSound world.now known.now }
{
    if world.rules.start_of(inst.attribute()).is_some() {
        let progress = try_formula(world.alloc, &world.rules, &world.store, inst, known, reads)?;
        return write_progress(world, &progress, out);
    }
    let found = try_body(world.alloc, &world.rules, &world.store, inst, known, reads)?;
    write_found(world, &found, out)
}

/// Notes the value of an instance, by the text behind `know`. The last ` = ` stands in front of the value.
fn learn(world: &World, known: &mut Values, fact: &str) -> Result<(), Refusal>
    requires sound { IsSound world.now }
    requires known { AreSound world.now known.old }
    ensures { AreSound world.now known.new }
{
    let Some((call, text)) = fact.rsplit_once(" = ") else {
        return Err(Refusal::Line);
    };
    let inst = instance(world, call)?;
    let value = value_for(world, &inst, text)?;
    Ok(known.learn(inst, value)?)
}
