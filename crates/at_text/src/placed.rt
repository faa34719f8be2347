//! Tokens with their lines and columns.
ghost use Rattle.std.specs.Prelude.{◌≡◌, ◌++◌, ◌-◌, ◌≤◌, ℕ, List, length, drop, map, All, IfOk, IsCharBoundary, chars};
ghost use Rattle.at_text.specs.Place.{place_of};
ghost use Rattle.at_text.specs.Pieces.{spelled};
ghost use Rattle.at_text.specs.Symbols.{placed, placed_in, next_place};

use crate::place::Place;
use crate::token::{Lexeme, TokenKind};
use std::alloc::{AllocError, Global};

/// A token with its text, and the line and the column where it begins, both from 1.
#[derive(Clone, Copy, Debug)]
pub struct Placed<'a> {
    pub kind: TokenKind,
    pub text: &'a str,
    pub at: Place,
}

/// The place of an offset, by that of another one. What lies between is counted, or all that lies
/// before it, if it is the first of the two.
fn place_from(text: &str, from: usize, at: Place, to: usize) -> Place
    requires from { IsCharBoundary text.now from }
    requires at { at ≡ place_of text.now from }
    requires to { IsCharBoundary text.now to }
    ensures { result ≡ place_of text.now to }
{
    if from <= to {
        at.behind(&text[from..to])
    } else {
        Place::of(text, to)
    }
}

/// The tokens of the text, each with its line and column in place of its offset. It takes time
/// linear in the text where the tokens stand in their order.
pub fn place_all<'a>(
    alloc: Global,
    text: &str,
    tokens: &[Lexeme<'a>],
) -> Result<Vec<Placed<'a>>, AllocError>
    requires { All (λ t. IsCharBoundary text.now t.start) tokens.now }
    ensures { IfOk result (λ v. map placed v.items ≡ map (placed_in text.now) (map spelled tokens.now)) }
{
    let mut all = Vec::new(alloc);
    let mut from = 0;
    let mut at = Place::START;
    for token in tokens {
        at = place_from(text, from, at, token.start);
        from = token.start;
        all.push(Placed {
            kind: token.kind,
            text: token.text,
            at,
        })?;
    }
    Ok(all)
}

/// The place of the first of the last `left` tokens, or of the end of the text where none is left.
pub fn place_left(text: &str, tokens: &[Placed<'_>], left: usize) -> Place
    requires { left ≤ length tokens.now }
    ensures { result ≡ next_place text.now (map placed (drop (length tokens.now - left) tokens.now)) }
{
    match tokens.get(tokens.len() - left) {
        Some(token) => token.at,
        None => Place::of(text, text.len()),
    }
}
