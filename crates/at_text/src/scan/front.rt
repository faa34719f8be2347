//! What stands at the front of a text, and what follows it.

ghost use Rattle.std.specs.Prelude.{◌≡◌, ◌≢◌, ◌<◌, ℕ, List, ◌∷◌, ◌++◌, [], get_or, map, MatchOption, MatchResult, length, IsUtf8};
ghost use Rattle.at_text.specs.Pieces.{is_blank, HasNoEnd};
ghost use Rattle.at_text.specs.Faults.{makes_escape, is_misplaced};
ghost use Rattle.at_text.specs.Front.{takes, stands_for_itself, EndsRun, EndsComment, Means, MeansNone, BreaksQuoted, FitsNone, EndsSign, BeginsNoSign, EndsLong, long_signs, is_second, is_short_sign, IsFound, BreaksSign, BreaksPiece};

use crate::names::{continues_name, starts_name};
use crate::token::TokenKind;

/// Why no piece stands at the front of a text.
pub enum Break<'a> {
    /// Here stands what has no place.
    Bad(&'a str),
    /// A text between quotes whose line or file ends before it does.
    OpenText,
    /// A comment with no end.
    OpenComment,
}

/// Characters of one sort, up to the first of another.
#[derive(Clone, Copy)]
enum Run {
    Name,
    Digits,
    Line,
}

/// The signs of more than one character, the longer ones first.
const LONG_SIGNS: [&str; 7] = ["::=", "==", "!=", "<=", ">=", "&&", "||"];

fn is_blank(c: char) -> bool
    ensures { result ≡ is_blank c }
{
    c == ' ' || c == '\t' || c == '\r' || c == '\n'
}

/// Whether the run goes on with the character.
fn takes(run: Run, c: char) -> bool
    ensures { result ≡ takes run c }
{
    match run {
        Run::Name => continues_name(c),
        Run::Digits => c.is_ascii_digit(),
        Run::Line => c != '\n',
    }
}

/// What follows the run.
fn past(text: &str, run: Run) -> &str
    ensures { EndsRun (takes run) text.now result.now }
{
    let mut chars = text.chars();
    let mut rest = text;
    while let Some(c) = chars.next() {
        if !takes(run, c) {
            break;
        }
        rest = chars.as_str();
    }
    rest
}

/// What follows the first `*/`.
fn past_comment(body: &str) -> Option<&str>
    ensures { MatchOption result (HasNoEnd body.now) (λ after. EndsComment body.now after.now) }
{
    let (_, after) = body.split_once("*/")?;
    Some(after)
}

/// Whether the character makes an escape behind a backslash.
fn makes_escape(c: char) -> bool
    ensures { result ≡ makes_escape c }
{
    c == '"' || c == '\\' || c == 'n' || c == 't'
}

/// Whether the character stands for itself between quotes.
fn stands_for_itself(c: char) -> bool
    ensures { result ≡ stands_for_itself c }
{
    c != '"' && c != '\\' && c != '\n' && c != '\t'
}

/// What follows the first character that is meant within a text between quotes, be it written by itself or by an escape.
fn past_meant(text: &str) -> Option<&str>
    ensures { MatchOption result (MeansNone text.now) (λ after. (body : List ℕ) × Means body text.now after.now × (length after.now < length text.now)) }
{
    let mut chars = text.chars();
    let first = chars.next()?;
    if first == '\\' {
        let second = chars.next()?;
        if makes_escape(second) {
            Some(chars.as_str())
        } else {
            None
        }
    } else if stands_for_itself(first) {
        Some(chars.as_str())
    } else {
        None
    }
}

/// Whether a raw tab stands at the front, or a backslash before a character that makes no escape.
fn is_misplaced(text: &str) -> bool
    ensures { result ≡ is_misplaced text.now }
{
    match text.as_bytes() {
        [b'\t', ..] => true,
        [b'\\', c, ..] => !matches!(c, b'"' | b'\\' | b'n' | b't'),
        _ => false,
    }
}

/// What follows the closing quote, where the text begins behind the opening one.
fn past_quoted(text: &str) -> Result<&str, Break<'_>>
    ensures { MatchResult result (λ after. (body : List ℕ) × Means body text.now (34 ∷ after.now) × IsUtf8 after.now) (BreaksQuoted text.now) }
{
    let mut rest = text;
    while let Some(after) = past_meant(rest) {
        rest = after;
    }
    if let Some(after) = rest.strip_prefix('"') {
        Ok(after)
    } else if is_misplaced(rest) {
        Err(Break::Bad(rest))
    } else {
        Err(Break::OpenText)
    }
}

/// What follows these bytes, if the text begins with them.
fn past_front<'a>(text: &'a str, front: &str) -> Option<&'a str>
    ensures { MatchOption result ((rest : List ℕ) → text.now ≢ front.now ++ rest) (λ after. (text.now ≡ front.now ++ after.now) × IsUtf8 after.now) }
{
    text.strip_prefix(front)
}

/// What follows the first of these that the text begins with.
fn past_first<'a>(text: &'a str, fronts: &[&str]) -> Option<&'a str>
    ensures { let texts = map (λ front. front.now) fronts.now in MatchOption result (FitsNone texts (length texts) text.now) (λ after. (k : ℕ)
        × (k < length texts) × FitsNone texts k text.now × (text.now ≡ get_or texts k [] ++ after.now) × IsUtf8 after.now) }
{
    for front in fronts {
        if let Some(after) = past_front(text, front) {
            return Some(after);
        }
    }
    None
}

/// Whether a sign of more than one character may have that byte in its second place.
fn is_second(byte: u8) -> bool
    ensures { result ≡ is_second byte }
{
    byte == b':' || byte == b'=' || byte == b'&' || byte == b'|'
}

/// What follows the longest sign of more than one character at the front.
fn past_long_sign(text: &str) -> Option<&str>
    ensures { MatchOption result (FitsNone long_signs 7 text.now) (λ after. EndsLong text.now after.now) }
{
    let bytes = text.as_bytes();
    if bytes.len() < 2 {
        return None;
    }
    if !is_second(bytes[1]) {
        return None;
    }
    past_first(text, &LONG_SIGNS)
}

/// Whether the character is a sign.
fn is_short_sign(c: char) -> bool
    ensures { result ≡ is_short_sign c }
{
    c == ':'
        || c == ';'
        || c == '*'
        || c == '['
        || c == ']'
        || c == '<'
        || c == '>'
        || c == '/'
        || c == '.'
        || c == '('
        || c == ')'
        || c == '{'
        || c == '}'
        || c == ','
        || c == '='
        || c == '!'
        || c == '-'
        || c == '+'
        || c == '%'
        || c == '?'
}

/// What follows the longest sign at the front.
fn past_sign(text: &str) -> Option<&str>
    ensures { MatchOption result (BeginsNoSign text.now) (λ after. EndsSign text.now after.now) }
{
    if let Some(after) = past_long_sign(text) {
        return Some(after);
    }
    let mut chars = text.chars();
    let first = chars.next()?;
    if is_short_sign(first) {
        Some(chars.as_str())
    } else {
        None
    }
}

/// What follows the comment or the sign at the front, and what kind of token it is, if it is one.
fn comment_or_sign(text: &str) -> Result<(Option<TokenKind>, &str), Break<'_>>
    ensures { MatchResult result (λ found. IsFound text.now found.0 found.1.now) (BreaksSign text.now) }
{
    if let Some(line) = past_front(text, "//") {
        return Ok((None, past(line, Run::Line)));
    }
    if let Some(body) = past_front(text, "/*") {
        return match past_comment(body) {
            Some(after) => Ok((None, after)),
            None => Err(Break::OpenComment),
        };
    }
    match past_sign(text) {
        Some(after) => Ok((Some(TokenKind::Sign), after)),
        None => Err(Break::Bad(text)),
    }
}

/// What follows the piece at the front, and what kind of token it is, if it is one.
pub fn piece(text: &str) -> Result<(Option<TokenKind>, &str), Break<'_>>
    requires { 0 < length text.now }
    ensures { MatchResult result (λ found. IsFound text.now found.0 found.1.now) (BreaksPiece text.now) }
{
    let mut chars = text.chars();
    let Some(c) = chars.next() else {
        unreachable!()
    };
    let after = chars.as_str();
    if is_blank(c) {
        Ok((None, after))
    } else if starts_name(c) {
        Ok((Some(TokenKind::Word), past(after, Run::Name)))
    } else if c.is_ascii_digit() {
        Ok((Some(TokenKind::Number), past(after, Run::Digits)))
    } else if c == '"' {
        Ok((Some(TokenKind::Text), past_quoted(after)?))
    } else {
        comment_or_sign(text)
    }
}
