//! The words of the command line, and how they are read.
ghost use Rattle.std.specs.Prelude.{◌≡◌, IfOk, IfErr, IfSome, Some, true, false, codes, is_some, map, option_map};
ghost use Rattle.std.specs.String.{string_bytes};
ghost use Rattle.clap.specs.Walk.{texts};
ghost use Rattle.clap.specs.Words.{all_of, app_of, first_of, kind_of, matches_of, one_of, rule_of, takes};
ghost use Rattle.clap.specs.declared.error.ErrorKind.TheVariants.{OutOfMemory};
ghost use Rattle.attrd.specs.CommandLine.{command_line, rule, with_words};
ghost use Rattle.attrd.specs.Forms.{language_in};
ghost use Rattle.attrd.specs.Options.{are_taken, Asks, HasValues, IsFlag, IsSized, IsUsable, IsWhole, SpellsUpTo};
ghost use Rattle.attrd.specs.Options.{is_set, max_connections, max_keep, max_nodes_asked, max_slice, number, number_asked, rows_found};
ghost use Rattle.attrd.specs.declared.options.WordsFault.TheVariants.{Memory};

use super::forms::language_of;
use super::{Options, WordsFault};
use at_start::Language;
use clap::builder::ValueParser;
use clap::error::ErrorKind;
use clap::{Arg, ArgMatches, Command, Error};
use std::alloc::{AllocError, Global};

/// How many connections are served where the words don't say.
const CONNECTIONS: u16 = 1;

/// The most connections that can be asked for.
const MAX_CONNECTIONS: u16 = 1_000;

/// How many turns are given behind each line where the words don't say.
const SLICE: u32 = 1;

/// The most turns behind a line that can be asked for.
const MAX_SLICE: u32 = 1_000_000;

/// The greatest bound of the cache that can be asked for.
const MAX_KEEP: u32 = 1_000_000_000;

/// The most nodes of a tree that can be asked for.
const MAX_NODES: u32 = 16_777_216;

/// The program's version, which the file `VERSION` holds, too.
const VERSION: &str = "0.49";

/// What stands below the words in the help: a session, and the commands.
const HELP: &str = "A session:
  $ attrd calc.ast tree.txt calc.jrag
  0 ask /Block/Stmt:1/Expr value()
  0 = 3
  0 token /Block/Stmt:1/Expr/Right Value 5
  0 ok 1
  0 ask /Block/Stmt:1/Expr value()
  0 = 6

A line is SESSION [at VERSION] COMMAND, SESSION a number from 0 to 999. The commands:
  ask PLACE ATTRIBUTE(ARGUMENTS)  the value of an attribute; an argument is a text, a place or null
  set PLACE TERM                  replaces the node
  put PLACE PART TERM             fills an empty optional
  drop PLACE                      removes a list element, or empties an optional
  insert PLACE PART INDEX TERM    one more element in a list
  token PLACE PART VALUE          another value for a token
  move PLACE to PLACE PART INDEX  puts a list element into another list, or elsewhere in its own
  show PLACE                      the term of the node
  mark NAME PLACE                 names a node for the session
  unmark NAME                     forgets the name
  where NAME                      where the named node is now
  version                         how many edits were accepted
  post PLACE ATTRIBUTE(ARGUMENTS) opens a question, which is answered in turns
  wait NUMBER                     the answer to the session's question of that number
A place is a path from the root (/Block/Stmt:1) or from a mark ($u/Left).";

/// A word of the command line: an option, which begins with hyphens, or the name of a file.
struct Word {
    name: &'static str,
    is_option: bool,
    /// How many values it takes at most; one at least, but for a flag.
    most: usize,
    /// What the help calls a value.
    value: &'static str,
    parser: ValueParser<'static>,
    help: &'static str,
}

const WORDS: &[Word] = &[
    Word {
        name: "socket",
        is_option: true,
        most: 1,
        value: "PATH",
        parser: ValueParser::NonEmptyString,
        help: "Serves connections of a Unix socket at PATH, and not standard input",
    },
    Word {
        name: "connections",
        is_option: true,
        most: 1,
        value: "N",
        parser: ValueParser::Signed(CONNECTIONS as i64, MAX_CONNECTIONS as i64),
        help: "How many connections are served, one after the other: 1 to 1000 [default: 1]",
    },
    Word {
        name: "slice",
        is_option: true,
        most: 1,
        value: "N",
        parser: ValueParser::Signed(SLICE as i64, MAX_SLICE as i64),
        help: "How many turns open questions are given behind each line: 1 to 1000000 [default: 1]",
    },
    Word {
        name: "keep",
        is_option: true,
        most: 1,
        value: "N",
        parser: ValueParser::Signed(1, MAX_KEEP as i64),
        help: "Lets some values go at an edit that finds more than N in memory: 1 to 1000000000 [default: no bound]",
    },
    Word {
        name: "nodes",
        is_option: true,
        most: 1,
        value: "N",
        parser: ValueParser::Signed(1, MAX_NODES as i64),
        help: "How many nodes the tree may have: 1 to 16777216 [default: 65536]",
    },
    Word {
        name: "forms",
        is_option: true,
        most: 1,
        value: "WORDS",
        parser: ValueParser::NonEmptyString,
        help: "Which more forms of aspects are read, between commas [possible values: circular, jastadd]",
    },
    Word {
        name: "cut-off",
        is_option: true,
        most: 0,
        value: "",
        parser: ValueParser::Bool,
        help: "Verifies values before each turn, too, so that questions that were posted may take fewer of them",
    },
    Word {
        name: "index",
        is_option: true,
        most: 0,
        value: "",
        parser: ValueParser::Bool,
        help: "Looks names up by key, so that an edit of a list makes no value old that was looked up in it by another name",
    },
    Word {
        name: "gather",
        is_option: true,
        most: 0,
        value: "",
        parser: ValueParser::Bool,
        help: "Sends the replies to lines that come together on together",
    },
    Word {
        name: "work",
        is_option: true,
        most: 0,
        value: "",
        parser: ValueParser::Bool,
        help: "Tells at the end how many lazy attributes were evaluated",
    },
    Word {
        name: "GRAMMAR",
        is_option: false,
        most: 1,
        value: "GRAMMAR",
        parser: ValueParser::String,
        help: "The file of the abstract grammar",
    },
    Word {
        name: "TREE",
        is_option: false,
        most: 1,
        value: "TREE",
        parser: ValueParser::String,
        help: "The file of the syntax tree",
    },
    Word {
        name: "ASPECT",
        is_option: false,
        most: usize::MAX,
        value: "ASPECT",
        parser: ValueParser::String,
        help: "The files of the aspects, one or more",
    },
];

/// What the words after the program's name ask for. Nothing that the command line takes is refused, unless a form is named that isn't
/// one.
///
/// # Errors
///
/// `Words` where they aren't words of the command line, where a form isn't one that they name, or where they ask for help or the
/// version; `Memory` where memory ran out.
pub fn options<'a>(alloc: Global, words: &'a [&'a str]) -> Result<Options, WordsFault>
    ensures usable { IfOk result IsUsable }
    ensures sized { IfOk result IsSized }
    ensures asked { IfOk result (Asks (texts words.entry.now)) }
    ensures refused { IfErr result (λ e. are_taken (texts words.entry.now) ≡ true → e ≡ Memory) }
{
    let matches = match matched(alloc, words) {
        Ok(matches) => matches,
        Err(error) => return Err(fault_of(alloc, &error)),
    };
    let language = language_of(alloc, matches.get_str("forms"))?;
    Ok(options_of(alloc, &matches, language)?)
}

/// The words as they are matched. Each file that is needed is among them, so what follows looks for none in vain.
fn matched<'a>(alloc: Global, words: &'a [&'a str]) -> Result<ArgMatches<'a>, Error>
    ensures taken { IfOk result (λ _. takes command_line (texts words.entry.now) ≡ true) }
    ensures rows { IfOk result (λ m. rows_found m ≡ matches_of command_line (texts words.entry.now)) }
    ensures whole { IfOk result (λ m. IsWhole (rows_found m)) }
    ensures refused { IfErr result (λ e. takes command_line (texts words.entry.now) ≡ true → kind_of e ≡ OutOfMemory) }
{
    let mut command = command(alloc)?;
    command.try_get_matches_from_mut(words)
}

/// The words of the command line.
fn command<'a>(alloc: Global) -> Result<Command<'a>, AllocError>
    ensures { IfOk result (λ c. app_of c ≡ command_line) }
{
    let command = Command::new(alloc, "attrd")
        .about("Serves attributes of a syntax tree, line by line, while the tree is edited.")
        .after_help(HELP)
        .version(VERSION)
        .no_binary_name(true);
    with_words(alloc, command, WORDS)
}

/// The command with these words more. One is added as soon as it is made, so that no exit has several to let go.
fn with_words<'a>(
    alloc: Global,
    mut command: Command<'a>,
    words: &[Word],
) -> Result<Command<'a>, AllocError>
    ensures { IfOk result (λ c. app_of c ≡ with_words (app_of command.entry) (map rule words.now)) }
{
    for word in words {
        command = command.arg(argument(alloc, word))?;
    }
    Ok(command)
}

/// The word as `clap` knows it.
fn argument<'a>(alloc: Global, word: &Word) -> Arg<'a>
    ensures { (rule_of result ≡ rule word.now) × (result.global ≡ false) }
{
    let argument = Arg::new(alloc, word.name)
        .num_args(word.most.min(1)..=word.most)
        .value_name(word.value)
        .value_parser(word.parser)
        .help(word.help);
    if word.is_option {
        argument.long(word.name)
    } else {
        argument.required(true)
    }
}

/// What the words ask for, as they were matched, with the language that they name.
fn options_of(
    alloc: Global,
    matches: &ArgMatches<'_>,
    language: Language,
) -> Result<Options, AllocError>
    requires whole { IsWhole (rows_found matches.now) }
    requires language { language ≡ language_in (first_of (codes "forms") (rows_found matches.now)) }
    ensures { IfOk result (HasValues (rows_found matches.now)) }
{
    Ok(Options {
        socket: socket_of(alloc, matches)?,
        connections: connections_of(matches),
        slice: slice_of(matches),
        keep: keep_of(matches),
        nodes: nodes_of(matches),
        language,
        cut_off: has_flag(matches, "cut-off"),
        index: has_flag(matches, "index"),
        gather: has_flag(matches, "gather"),
        work: has_flag(matches, "work"),
        grammar: file_of(alloc, matches, "GRAMMAR")?,
        tree: file_of(alloc, matches, "TREE")?,
        aspects: files_of(alloc, matches, "ASPECT")?,
    })
}

/// The path of the socket that is asked for, where there is one.
fn socket_of(alloc: Global, matches: &ArgMatches<'_>) -> Result<Option<String>, AllocError>
    ensures { IfOk result (λ s. option_map string_bytes s ≡ first_of (codes "socket") (rows_found matches.now)) }
{
    match matches.get_str("socket") {
        Some(path) => Ok(Some(String::from_str(alloc, path)?)),
        None => Ok(None),
    }
}

/// How many connections are asked for.
fn connections_of(matches: &ArgMatches<'_>) -> u16
    requires { IfSome (one_of (codes "connections") (rows_found matches.now)) (SpellsUpTo max_connections) }
    ensures { result ≡ number_asked (one_of (codes "connections") (rows_found matches.now)) }
{
    matches.get_one::<u16>("connections").unwrap_or(CONNECTIONS)
}

/// How many turns behind a line are asked for.
fn slice_of(matches: &ArgMatches<'_>) -> u32
    requires { IfSome (one_of (codes "slice") (rows_found matches.now)) (SpellsUpTo max_slice) }
    ensures { result ≡ number_asked (one_of (codes "slice") (rows_found matches.now)) }
{
    matches.get_one::<u32>("slice").unwrap_or(SLICE)
}

/// The bound of the cache, where one is asked for.
fn keep_of(matches: &ArgMatches<'_>) -> Option<u32>
    requires { IfSome (one_of (codes "keep") (rows_found matches.now)) (SpellsUpTo max_keep) }
    ensures { result ≡ option_map number (one_of (codes "keep") (rows_found matches.now)) }
{
    matches.get_one::<u32>("keep")
}

/// How many nodes the tree may have, where that is asked for.
fn nodes_of(matches: &ArgMatches<'_>) -> Option<u32>
    requires { IfSome (one_of (codes "nodes") (rows_found matches.now)) (SpellsUpTo max_nodes_asked) }
    ensures { result ≡ option_map number (one_of (codes "nodes") (rows_found matches.now)) }
{
    matches.get_one::<u32>("nodes")
}

/// Whether the flag is there.
fn has_flag(matches: &ArgMatches<'_>, name: &str) -> bool
    requires { IfSome (one_of name.now (rows_found matches.now)) IsFlag }
    ensures { result ≡ is_set (one_of name.now (rows_found matches.now)) }
{
    matches.get_flag(name)
}

/// The file of that name in the command line, which the command has seen to.
fn file_of(alloc: Global, matches: &ArgMatches<'_>, name: &str) -> Result<String, AllocError>
    requires { is_some (first_of name.now (rows_found matches.now)) ≡ true }
    ensures { IfOk result (λ t. Some (string_bytes t) ≡ first_of name.now (rows_found matches.now)) }
{
    String::from_str(alloc, matches.get_str(name).unwrap())
}

/// The files of that name in the command line, of which the command has seen to one at least.
fn files_of(alloc: Global, matches: &ArgMatches<'_>, name: &str) -> Result<Vec<String>, AllocError>
    requires { is_some (first_of name.now (rows_found matches.now)) ≡ true }
    ensures { IfOk result (λ v. Some (map string_bytes v.items) ≡ all_of name.now (rows_found matches.now)) }
{
    copies(alloc, matches.get_strs(name).unwrap())
}

/// Copies of the texts.
fn copies(alloc: Global, texts: &[&str]) -> Result<Vec<String>, AllocError>
    ensures { IfOk result (λ v. map string_bytes v.items ≡ map (λ t. t.now) texts.now) }
{
    let mut copied = Vec::new(alloc);
    for text in texts {
        copied.push(String::from_str(alloc, text)?)?;
    }
    Ok(copied)
}

/// The fault of the words that were refused.
fn fault_of(alloc: Global, error: &Error) -> WordsFault
    ensures { kind_of error.now ≡ OutOfMemory → result ≡ Memory }
{
    if error.kind() == ErrorKind::OutOfMemory {
        return WordsFault::Memory;
    }
    match format!(in alloc; "{error}") {
        Ok(text) => WordsFault::Words {
            text: without_newline(text),
        },
        Err(_) => WordsFault::Memory,
    }
}

/// The text without the newline at its end, where one stands there.
fn without_newline(mut text: String) -> String {
    if text.ends_with('\n') {
        text.pop();
    }
    text
}
