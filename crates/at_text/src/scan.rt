//! A text is cut into tokens.

ghost use Rattle.std.specs.Prelude.{◌≡◌, ◌≤◌, ◌++◌, ◌⊎◌, ℕ, List, length, [], map, MatchResult, IfOk, IfErr, All, IsCharBoundary};
ghost use Rattle.at_text.specs.declared.scan.ScanFault.{ScanFault};
ghost use Rattle.at_text.specs.declared.scan.ScanFault.TheVariants.{Memory};
ghost use Rattle.at_text.specs.Pieces.{Piece, Cut, tokens_at, IsSpan, spelled_at, spelled, IsOfKind};
ghost use Rattle.at_text.specs.Faults.{FaultsAt, IsWithin};
ghost use Rattle.at_text.specs.Front.{BreaksPiece};

mod front;

use self::front::Break;
use crate::token::{Lexeme, Token};
use std::alloc::{AllocError, AllocFailed, Global};

/// Why a text is no row of tokens. Offsets are in bytes from its beginning.
#[derive(Debug, Drop)]
pub enum ScanFault {
    /// A character that begins no token; within a text between quotes a raw tab,
    /// or a backslash before a character that makes no escape.
    Bad { at: usize },
    /// A text between quotes whose line or whose file ends before its closing quote; the offset is that of its opening quote.
    OpenText { at: usize },
    /// A comment with no `*/`; the offset is that of its `/*`.
    OpenComment { at: usize },
    /// Want of memory.
    Memory,
}

impl From<AllocError> for ScanFault {
    ghost from_gives = { λ _ e. e ≡ Memory };

    fn from(_e: AllocError) -> ScanFault {
        ScanFault::Memory
    }
}

impl<T: Drop> From<AllocFailed<T>> for ScanFault {
    ghost from_gives = { λ _ e. e ≡ Memory };

    fn from(_e: AllocFailed<T>) -> ScanFault {
        ScanFault::Memory
    }
}

/// The fault of a text that is cut up to `rest`, where no piece stands for this reason.
fn fault(text: &str, rest: &str, flaw: Break<'_>) -> ScanFault
    requires within { length rest.now ≤ length text.now }
    requires breaks { BreaksPiece rest.now flaw }
    ensures { (ps : List Piece) → Cut text.now ps rest.now → FaultsAt text.now result × IsWithin text.now result }
{
    let start = text.len() - rest.len();
    match flaw {
        Break::Bad(tail) => ScanFault::Bad {
            at: text.len() - tail.len(),
        },
        Break::OpenText => ScanFault::OpenText { at: start },
        Break::OpenComment => ScanFault::OpenComment { at: start },
    }
}

/// What stands before the end of the text that is `after`.
fn before<'a>(text: &'a str, after: &str) -> &'a str
    requires { (front : List ℕ) × (text.now ≡ front ++ after.now) }
    ensures { text.now ≡ result.now ++ after.now }
{
    let (front, _) = text.split_at(text.len() - after.len());
    front
}

/// The tokens of a text with their places, or the first fault from the left. Blanks (space, tab, carriage return, newline)
/// and comments (`//` to the end of the line, `/*` to the next `*/`) stand between tokens. A word is a character that is an
/// XID start or `_` and the XID continues behind it (Unicode Standard Annex 31), a number is a run of ASCII digits, a sign is
/// the longest that fits, and a text between quotes has the escapes `\"`, `\\`, `\n` and `\t` and no others.
pub fn scan(alloc: Global, text: &str) -> Result<Vec<Token>, ScanFault>
    ensures tokens { IfOk result (λ v. (ps : List Piece) × Cut text.now ps [] × (v.items ≡ tokens_at 0 ps)) }
    ensures only { (ps : List Piece) → Cut text.now ps [] → MatchResult result (λ v. v.items ≡ tokens_at 0 ps) (λ e. e ≡ Memory) }
    ensures spans { IfOk result (λ v. All (IsSpan text.now) v.items) }
    ensures fault { IfErr result (FaultsAt text.now) }
    ensures faulty { (e : ScanFault) → (e ≡ Memory → ⊥) → FaultsAt text.now e → MatchResult result (λ v. ⊥) (λ f. (f ≡ Memory) ⊎ (f ≡ e)) }
    ensures within { IfErr result (IsWithin text.now) }
{
    let mut tokens = Vec::new(alloc);
    let mut rest = text;
    while !rest.is_empty() {
        let (kind, after) = match front::piece(rest) {
            Ok(found) => found,
            Err(flaw) => return Err(fault(text, rest, flaw)),
        };
        if let Some(kind) = kind {
            let start = text.len() - rest.len();
            let end = text.len() - after.len();
            tokens.push(Token { kind, start, end })?;
        }
        rest = after;
    }
    Ok(tokens)
}

/// The tokens of a text with their own texts, where `scan` gives them with their places; the same faults.
pub fn lexemes<'a>(alloc: Global, text: &'a str) -> Result<Vec<Lexeme<'a>>, ScanFault>
    ensures tokens { IfOk result (λ v. (ps : List Piece) × Cut text.now ps [] × (map spelled v.items ≡ spelled_at 0 ps)) }
    ensures only { (ps : List Piece) → Cut text.now ps [] → MatchResult result (λ v. map spelled v.items ≡ spelled_at 0 ps) (λ e. e ≡ Memory) }
    ensures kinds { IfOk result (λ v. All (λ x. IsOfKind x.kind x.text.now) v.items) }
    ensures starts { IfOk result (λ v. All (λ x. IsCharBoundary text.now x.start) v.items) }
    ensures fault { IfErr result (FaultsAt text.now) }
    ensures faulty { (e : ScanFault) → (e ≡ Memory → ⊥) → FaultsAt text.now e → MatchResult result (λ v. ⊥) (λ f. (f ≡ Memory) ⊎ (f ≡ e)) }
    ensures within { IfErr result (IsWithin text.now) }
{
    let mut lexemes = Vec::new(alloc);
    let mut rest = text;
    while !rest.is_empty() {
        let (kind, after) = match front::piece(rest) {
            Ok(found) => found,
            Err(flaw) => return Err(fault(text, rest, flaw)),
        };
        if let Some(kind) = kind {
            let start = text.len() - rest.len();
            lexemes.push(Lexeme {
                kind,
                text: before(rest, after),
                start,
            })?;
        }
        rest = after;
    }
    Ok(lexemes)
}

/// A law with no code: a text is cut into pieces in one way.
pub fn one_cut()
    ensures { (text : List ℕ) (ps qs : List Piece) → Cut text ps [] → Cut text qs [] → ps ≡ qs }
{}

/// A law with no code: a text has a cut or a fault, not both, and no two faults.
pub fn one_fault()
    ensures uncut { (text : List ℕ) (e : ScanFault) → FaultsAt text e → (ps : List Piece) → Cut text ps [] → e ≡ Memory }
    ensures first { (text : List ℕ) (e : ScanFault) → FaultsAt text e → (f : ScanFault) → (f ≡ Memory → ⊥) → FaultsAt text f → (e ≡ Memory) ⊎ (e ≡ f) }
{}
