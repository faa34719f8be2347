//! Aspects as users of JastAdd write them (JastAdd2 reference manual, Java Language Specification 14 and 15): methods, bodies with
//! `if`, `return` and loops, modifiers and imports are read, and rewritten to the aspects of `at_jrag`.
//!
//! **Its specs:** `Read` is what a reader takes of a row of tokens, and `Tokens`, `Next` and `Items` what several forms share;
//! `Operands`, `Operators` and `Expressions`, `Kinds`, `Statements` and `Declarations` say of each form what is read, by recursive
//! descent; `Written` is a body as it is written, and `Rewriting` the expression that it means, over `Naming`, which counts forms and
//! puts expressions in the place of names; `Constants` are trees that are written with `new`, `Outsets` the headings of constants and
//! `Making` their bodies, a tree or a list of trees; `Aliases` are names that stand for those
//! of accessors, `Noted` these in a map; `Files` is the whole: the aspects of a text and its constants, or its fault. `View`,
//! `OperatorView`, `Seen`, `Found`, `Searching` and `Rests` are what the program's values stand for, and `Refusals` says that a result
//! of rewriting is what is meant, or its refusal.
//!
//! **Where to begin:** `parse_java`, below, and `reader.rt`.
//!
//! **What it keeps true:** what is read is what the definition reads, and each fault is its fault, by its code and place.
#![tactic(auto)]

ghost use Rattle.std.specs.Prelude.{◌≡◌, ◌⊎◌, List, [], IfOk, IfErr, MatchResult};
ghost use Rattle.at_text.specs.Symbols.{PlacedToken, HasTokens, next_place};
ghost use Rattle.at_text.specs.Rows.{left};
ghost use Rattle.at_text.specs.Faults as scanning;
ghost use Rattle.at_text.specs.declared.scan.ScanFault.{ScanFault};
ghost use Rattle.at_text.specs.declared.place.Place.{Place};
ghost use Rattle.at_text.specs.declared.fault.Failure.TheVariants.{For};
ghost use Rattle.at_text.specs.declared.fault.Fault.TheVariants.{Refused, Memory};
ghost use Rattle.at_java.specs.Read.{Read, got, Fails};
ghost use Rattle.at_java.specs.Seen.{contents_view};
ghost use Rattle.at_java.specs.Files.{Contents as ContentsView, contents_of, uncut, IsUncutAt, IsFaultOf, Holds, IsFault};
ghost use Rattle.at_java.specs.declared.JavaCode.TheVariants.{Syntax};

mod aliases;
mod constants;
pub mod laws;
mod reader;
mod rewriting;
mod written;

pub use aliases::Alias;
use aliases::resolve;
use at_text::cursor::Cursor;
use at_text::fault::{Failure, Fault};
use at_text::place::Place;
use at_text::placed::place_all;
use at_text::scan::{ScanFault, lexemes};
pub use constants::{Constant, Contents};
use reader::{Breach, Reader};
pub use rewriting::copy_of;
use std::alloc::Global;

/// What is wrong with a text that holds no aspects as JastAdd has them.
#[derive(Clone, Copy, PartialEq, Eq, Debug)]
pub enum JavaCode {
    /// No form goes on with this token, or more was needed at the end of the text; where the text can't be cut into tokens, that is
    /// met here.
    Syntax,
    /// A form of JastAdd or of Java begins at this token that this profile leaves out.
    LeftOut,
    /// In the declaration that begins here forms nest deeper than 64, there are more parts of a kind than may stand in one form, or the
    /// body means an expression of more than 4,096 forms; or a declaration or an aspect begins here that is one of more than 65,536.
    Limit,
    /// The end of a body, which is here, can be reached, so that it gives no value.
    NoValue,
}

/// Why a text holds no aspects: its code and its place, or want of memory.
pub type JavaFault = Fault<JavaCode>;

/// The fault of a text that can't be cut into tokens.
fn scan_fault(text: &str, fault: ScanFault) -> JavaFault
    requires within { scanning.IsWithin text.now fault }
    ensures { result ≡ uncut text.now fault }
{
    match fault {
        ScanFault::Memory => Fault::Memory,
        ScanFault::Bad { at } | ScanFault::OpenText { at } | ScanFault::OpenComment { at } => {
            Fault::Refused {
                code: JavaCode::Syntax,
                at: Place::of(text, at),
            }
        }
    }
}

/// The place of the token before which the cursor stands, or of the end of the text.
fn place_next(text: &str, cursor: &Cursor<'_>) -> Place
    ensures { result ≡ next_place text.now (left cursor.now.rest.now) }
{
    match cursor.peek() {
        Some(token) => token.at,
        None => Place::of(text, text.len()),
    }
}

/// The fault of a text where its reader met this one.
fn breached(text: &str, cursor: &Cursor<'_>, breach: Breach) -> JavaFault
    ensures { (read : Read ContentsView) → Fails (For breach) (left cursor.now.rest.now) read → IsFaultOf text.now read result }
{
    match breach {
        Breach::Here(code) => Fault::Refused {
            code,
            at: place_next(text, cursor),
        },
        Breach::At(code, at) => Fault::Refused { code, at },
    }
}

/// The aspects that the text holds and the constants that they declare, in order, where these names stand for others.
///
/// # Errors
///
/// `Syntax` where the text can't be cut into tokens, which comes before all. Else what reading from the left meets first, where a
/// body is rewritten once it is read: `Syntax` at the token with which no form goes on, or at the end of the text; `LeftOut` at the
/// first word of a form that isn't read; `Limit` at the first token of the declaration whose parts are too many or nest too deep;
/// `NoValue` at the closing brace of a body whose end can be reached. `Memory` for want of memory.
pub fn parse_java<'a>(
    alloc: Global,
    text: &'a str,
    aliases: &'a [Alias],
) -> Result<Contents, JavaFault>
    ensures found { IfOk result (λ v. Holds aliases.now text.now (contents_view v)) }
    // A text that can't be cut into tokens is refused where that is met, whatever stands before it.
    ensures uncut { (fault : ScanFault) (at : Place) → IsUncutAt text.now at fault
        → MatchResult result (λ v. ⊥) (λ e. (e ≡ Memory) ⊎ (e ≡ Refused Syntax at)) }
    // What is answered for a text of tokens is what they spell, or the fault there, unless memory runs out.
    ensures only { (tokens : List PlacedToken) → HasTokens text.now tokens
        → MatchResult result (λ v. contents_of aliases.now tokens ≡ got (contents_view v) [])
        (IsFaultOf text.now (contents_of aliases.now tokens)) }
    ensures fault { IfErr result (IsFault aliases.now text.now) }
{
    let tokens = match lexemes(alloc, text) {
        Ok(tokens) => tokens,
        Err(fault) => return Err(scan_fault(text, fault)),
    };
    let mut tokens = place_all(alloc, text, &tokens)?;
    resolve(alloc, &mut tokens, aliases)?;
    let mut reader = Reader::new(alloc, &tokens);
    match reader.file() {
        Ok(contents) => Ok(contents),
        Err(Failure::For(breach)) => Err(breached(text, &reader.cursor, breach)),
        Err(Failure::Memory) => Err(Fault::Memory),
    }
}
