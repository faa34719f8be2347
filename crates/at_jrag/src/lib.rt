//! Aspects (.jrag, JastAdd2 reference manual), read from their text.
//!
//! **Its specs:** `Syntax` is what is written, with its places, and `View` relates the types to it; `Grammar` says
//! which tokens spell each form and how deep it nests; `Forms` which forms are left out; `Faults` the fault of a
//! text, over `FirstFault`, where a language's texts can't go on. That reading stops at the first fault is shown by
//! `at_text`'s machine with a stack of wants (`Wants`, `Table`); `Runs`, `Heads` and `Read` say where each method of the
//! reader leaves it.
//!
//! **Where to begin:** `parse_jrag`, below, and `reader.rt`.
//!
//! **Its proofs** go over the table alone: each file is taken whole (`DeclarationRuns`), what is taken whole is a
//! file (`Sound`), what was taken before a stop can be completed (`Completed`); `FirstFaults` puts these together.
//! Which forms are left out is shown over the stacks that the machine comes to (`Reached`, `Shapes`, `LeftForms`,
//! `KeptForms`). That tokens spell one file is `Unambiguous`; of expressions it is shown from the strongest level
//! down (`OneExpression`, `ExpressionLinks`, `ExpressionFronts`).
//!
//! **What it keeps true:** a text that spells aspects is read as these, and every fault is the first of the
//! language.
#![tactic(auto)]

ghost use Rattle.std.specs.Prelude.{◌≡◌, ◌⊎◌, ◌≤◌, ◌-◌, ℕ, [], List, length, map, take, drop, IfOk, IfErr, MatchResult};
ghost use Rattle.at_text.specs.Symbols.{PlacedToken, HasTokens};
ghost use Rattle.at_text.specs.Rows.{left};
ghost use Rattle.at_text.specs.Faults as scanning;
ghost use Rattle.at_text.specs.declared.scan.ScanFault.{ScanFault};
ghost use Rattle.at_text.specs.declared.place.Place.{Place};
ghost use Rattle.at_text.specs.declared.fault.Fault.TheVariants.{Refused, Memory};
ghost use Rattle.at_jrag.specs.View.{aspect_view};
ghost use Rattle.at_jrag.specs.Faults.{uncut, IsScanFaultAt, IsFault, fault_place};
ghost use Rattle.at_jrag.specs.Syntax as written;
ghost use Rattle.at_jrag.specs.Grammar.{File, IsWithin};
ghost use Rattle.at_jrag.specs.declared.JragCode.TheVariants.{Syntax};

mod declared;
mod reader;
mod syntax;

use at_text::fault::{Failure, Fault};
use at_text::place::Place;
use at_text::placed::{Placed, place_all, place_left};
use at_text::scan::{ScanFault, lexemes};
use declared::declaration_place;
use reader::Reader;
use std::alloc::Global;
pub use syntax::{
    Aspect, Body, BodyForm, Decl, DeclForm, Ending, Expr, FoldForm, Form, Kind, KindWord, Operator,
    OperatorWord, Param, Params, Word,
};

/// What is wrong with a text that holds no aspects.
#[derive(Clone, Copy, PartialEq, Eq, Debug)]
pub enum JragCode {
    /// No file goes on with this token, or more was needed at the end of the text; where the text
    /// can't be cut into tokens, that is met here.
    Syntax,
    /// A form of JastAdd's aspects begins at this token that this profile leaves out.
    LeftOut,
    /// Expressions nest deeper than 64 in the declaration that begins here.
    Nesting,
}

/// Which forms of JastAdd's aspects are read that are left out where they aren't named.
#[derive(Clone, Copy, PartialEq, Eq, Debug)]
pub struct Forms {
    /// `circular [true]` and `circular [false]` behind the parameters of a `boolean` attribute.
    pub circular: bool,
}

impl Forms {
    /// None of them.
    pub const NONE: Forms = Forms { circular: false };
}

/// Why a text holds no aspects: its code and its place, or want of memory.
pub type JragFault = Fault<JragCode>;

/// The fault of a text that can't be cut into tokens.
fn scan_fault(text: &str, fault: ScanFault) -> JragFault
    requires within { scanning.IsWithin text.now fault }
    ensures { result ≡ uncut text.now fault }
{
    match fault {
        ScanFault::Memory => Fault::Memory,
        ScanFault::Bad { at } | ScanFault::OpenText { at } | ScanFault::OpenComment { at } => {
            Fault::Refused {
                code: JragCode::Syntax,
                at: Place::of(text, at),
            }
        }
    }
}

/// The place of a fault where reading stops before the last `count` tokens.
fn fault_place(text: &str, tokens: &[Placed<'_>], count: usize, code: JragCode) -> Place
    requires { count ≤ length tokens.now }
    ensures { result ≡ fault_place text.now code (left (take (length tokens.now - count) tokens.now)) (left (drop (length tokens.now - count) tokens.now)) }
{
    match code {
        JragCode::Syntax | JragCode::LeftOut => place_left(text, tokens, count),
        JragCode::Nesting => declaration_place(tokens.split_at(tokens.len() - count).0),
    }
}

/// The aspects that the text spells, in order; of the forms that are left out else, these are read.
///
/// # Errors
///
/// `Syntax` and `LeftOut` at the first token with which no file goes on, or at the end of the
/// text: `LeftOut` where a form begins there that is left out, and only there. `Syntax` where the
/// text can't be cut into tokens, which comes before all. `Nesting` where files go on with that
/// token, but none in which expressions nest at most 64 deep. `Memory` for want of memory.
pub fn parse_jrag(alloc: Global, text: &str, forms: Forms) -> Result<Vec<Aspect>, JragFault>
    // What is read is what the tokens of the text spell, and its expressions nest at most 64 deep.
    ensures found { IfOk result (λ v. (tokens : List PlacedToken) × HasTokens text.now tokens
        × File forms (map aspect_view v.items) tokens [] × IsWithin (map aspect_view v.items)) }
    // A text that can't be cut into tokens is refused where that is met, whatever stands before it.
    ensures uncut { (fault : ScanFault) (at : Place) → IsScanFaultAt text.now at fault
        → MatchResult result (λ v. ⊥) (λ e. (e ≡ Memory) ⊎ (e ≡ Refused Syntax at)) }
    // Of a text that spells aspects whose expressions nest at most 64 deep, these are what is read, unless memory runs out.
    ensures only { (tokens : List PlacedToken) (aspects : List written.Aspect) → HasTokens text.now tokens → File forms aspects tokens []
        → IsWithin aspects → MatchResult result (λ v. map aspect_view v.items ≡ aspects) (λ e. e ≡ Memory) }
    // A fault is the first one: what stands before it begins such a text, and none goes on there.
    ensures fault { IfErr result (IsFault forms text.now) }
{
    let tokens = match lexemes(alloc, text) {
        Ok(tokens) => tokens,
        Err(fault) => return Err(scan_fault(text, fault)),
    };
    let tokens = place_all(alloc, text, &tokens)?;
    let mut reader = Reader::new(alloc, &tokens);
    match reader.file(forms) {
        Ok(aspects) => Ok(aspects),
        Err(Failure::For(code)) => {
            let at = fault_place(text, &tokens, reader.cursor.count_left(), code);
            Err(Fault::Refused { code, at })
        }
        Err(Failure::Memory) => Err(Fault::Memory),
    }
}
