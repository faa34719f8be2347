//! Abstract grammars (.ast, JastAdd2 reference manual), read from their text.
//!
//! **Its specs:** `Grammar` says which tokens spell each form, `Meaning` what a grammar as written means, `Faults`
//! where a text is refused. `Table` and `Forms` are the reader's decisions, which no public clause names.
//!
//! **Where to begin:** `parse_ast`, below, and `reader.rt`, a recursive descent.
//!
//! **What it keeps true:** what is read is what the text spells, places included; a fault stands at the first token
//! with which no grammar goes on.
#![tactic(auto)]

ghost use Rattle.std.specs.Prelude.{◌≡◌, List, map, IfOk, IfErr, MatchResult, ◌⊎◌};
ghost use Rattle.at_text.specs.Symbols.{PlacedToken, HasTokens};
ghost use Rattle.at_grammar.specs.Grammar.{Declaration};
ghost use Rattle.at_grammar.specs.Meaning.{seen_class, class_means};
ghost use Rattle.at_text.specs.Faults.{FaultsAt, IsWithin};
ghost use Rattle.at_grammar.specs.Faults.{Spells, IsFault};
ghost use Rattle.at_text.specs.declared.fault.Fault.{Fault};
ghost use Rattle.at_text.specs.declared.fault.Fault.TheVariants.{Memory};
ghost use Rattle.at_grammar.specs.declared.AstCode.{AstCode};

mod reader;
mod syntax;

use at_text::fault::{Failure, Fault};
use at_text::place::Place;
use at_text::placed::{place_all, place_left};
use at_text::scan::{ScanFault, lexemes};
use reader::Reader;
use std::alloc::Global;
pub use syntax::{ClassDecl, Grammar, PartDecl, Shape};

/// What is wrong with a text that is no abstract grammar.
#[derive(Clone, Copy, PartialEq, Eq, Debug)]
pub enum AstCode {
    /// No grammar goes on with this token, or more was needed at the end of the text; where the
    /// text can't be cut into tokens, that is met here.
    Syntax,
    /// A form of JastAdd's grammars begins here that this profile leaves out: a `/` where a
    /// component may begin, or a `.` or `<` behind a token's kind.
    LeftOut,
}

/// Why a text is no abstract grammar: its code and its place, or want of memory.
pub type AstFault = Fault<AstCode>;

/// The fault of a text that can't be cut into tokens.
fn scan_fault(text: &str, fault: ScanFault) -> AstFault
    requires within { IsWithin text.now fault }
    requires fault { FaultsAt text.now fault }
    ensures { IsFault text.now result }
{
    match fault {
        ScanFault::Memory => Fault::Memory,
        ScanFault::Bad { at } | ScanFault::OpenText { at } | ScanFault::OpenComment { at } => {
            Fault::Refused {
                code: AstCode::Syntax,
                at: Place::of(text, at),
            }
        }
    }
}

/// The grammar that the text spells.
///
/// # Errors
///
/// `Syntax` and `LeftOut` at the first token with which no grammar goes on, or at the end of the
/// text; `Syntax` where the text can't be cut into tokens, which comes before both. `Memory` for
/// want of memory.
pub fn parse_ast(alloc: Global, text: &str) -> Result<Grammar, AstFault>
    // What is read is what the tokens of the text spell.
    ensures found { IfOk result (λ g. (tokens : List PlacedToken) × HasTokens text.now tokens
        × ((f : List Declaration) × Spells tokens f × (map seen_class g.classes.items ≡ map class_means f))) }
    // A text that spells a file is read, unless memory runs out.
    ensures only { (tokens : List PlacedToken) (f : List Declaration) → HasTokens text.now tokens → Spells tokens f
        → MatchResult result (λ g. map seen_class g.classes.items ≡ map class_means f) (λ e. e ≡ Memory) }
    // A fault is the first one, and says whether what stands there is a form that is left out.
    ensures fault { IfErr result (IsFault text.now) }
    // A text with a fault is refused for it, unless memory runs out.
    ensures refused { (e : Fault AstCode) → (e ≡ Memory → ⊥) → IsFault text.now e
        → MatchResult result (λ g. ⊥) (λ f. (f ≡ Memory) ⊎ (f ≡ e)) }
{
    let tokens = match lexemes(alloc, text) {
        Ok(tokens) => tokens,
        Err(fault) => return Err(scan_fault(text, fault)),
    };
    let tokens = place_all(alloc, text, &tokens)?;
    let mut reader = Reader::new(alloc, &tokens);
    match reader.file() {
        Ok(classes) => Ok(Grammar { classes }),
        Err(Failure::For(code)) => {
            let at = place_left(text, &tokens, reader.count_left());
            Err(Fault::Refused { code, at })
        }
        Err(Failure::Memory) => Err(Fault::Memory),
    }
}
