//! Components of grammars that stand between slashes.

ghost use Rattle.std.specs.Prelude.{◌≡◌, ◌+◌, ◌++◌, ◌∷◌, [], ℕ, List, map, drop, option_map, slice_get, IfOk, OnOk, IsUtf8, IsTrue, All, IsCharBoundary};
ghost use Rattle.at_class.specs.Grammar.{place_view};
ghost use Rattle.at_text.specs.Pieces.{spelled};
ghost use Rattle.at_start.specs.Slashes.{Unslashes, all_slashed, blanked, closed, goes_on, is_named, is_this, first_slashed, kind_length, marks_of, next_slashed, slashed_at, slashed_in, slashes, spot_behind, spot_within, star_length, typed_length};
ghost use Rattle.at_start.specs.SlashesView.{slashed_view};

use at_text::names::is_name;
use at_text::place::Place;
use at_text::placed::{Placed, place_all};
use at_text::scan::{ScanFault, lexemes};
use at_text::token::{Lexeme, TokenKind};
use std::alloc::{AllocError, Global};

/// What the grammar of a text is read of.
#[derive(Drop)]
pub struct Blanked {
    /// The text, with blanks for slashes.
    pub bytes: Vec<u8>,
    /// Where the names behind opening slashes stand.
    pub marks: Vec<Place>,
}

/// A component between slashes.
#[derive(Clone, Copy)]
pub struct Slashed<'a> {
    /// The offset of the slash in front of it.
    pub opens: usize,
    pub name: Lexeme<'a>,
    /// The offset of the slash behind it.
    pub closes: usize,
    /// How many tokens it has behind its first.
    pub more: usize,
}

/// Where a token of a grammar stands.
#[derive(Clone, Copy)]
pub enum Spot {
    /// In front of what a class has behind its `::=`.
    Outside,
    /// Where a component may begin, or behind its name.
    Component,
    /// Behind a `:`.
    Kind,
    /// Behind a `[` or a `<`, and not yet behind what closes it.
    Bracketed,
}

/// What the grammar of the text is read of, or want of memory.
pub fn unslashed(alloc: Global, text: &str) -> Result<Blanked, AllocError>
    ensures read { IfOk result (λ u. Unslashes text.now u.bytes.items (map place_view u.marks.items)) }
    ensures utf8 { IfOk result (λ u. IsUtf8 u.bytes.items) }
{
    match lexemes(alloc, text) {
        Ok(tokens) => without_slashes(alloc, text, &tokens),
        Err(ScanFault::Bad { at: _ }) => as_it_stands(alloc, text),
        Err(ScanFault::OpenText { at: _ }) => as_it_stands(alloc, text),
        Err(ScanFault::OpenComment { at: _ }) => as_it_stands(alloc, text),
        Err(ScanFault::Memory) => Err(AllocError),
    }
}

/// This text with no marks, or want of memory.
fn as_it_stands(alloc: Global, text: &str) -> Result<Blanked, AllocError>
    ensures bytes { IfOk result (λ u. u.bytes.items ≡ text.now) }
    ensures marks { IfOk result (λ u. u.marks.items ≡ []) }
    ensures utf8 { IfOk result (λ u. IsUtf8 u.bytes.items) }
{
    Ok(Blanked {
        bytes: text.as_bytes().to_vec(alloc)?,
        marks: Vec::new(alloc),
    })
}

/// What the grammar of a text with these tokens is read of, or want of memory.
fn without_slashes(alloc: Global, text: &str, tokens: &[Lexeme<'_>]) -> Result<Blanked, AllocError>
    requires { All (λ t. IsCharBoundary text.now t.start) tokens.now }
    ensures bytes { IfOk result (λ u. u.bytes.items ≡ blanked text.now (slashes (slashed_in (map spelled tokens.now)))) }
    ensures marks { IfOk result (λ u. map place_view u.marks.items ≡ marks_of text.now (slashed_in (map spelled tokens.now))) }
    ensures utf8 { IfOk result (λ u. IsUtf8 u.bytes.items) }
{
    let found = all_slashed(alloc, tokens)?;
    let mut bytes = text.as_bytes().to_vec(alloc)?;
    put_blanks(&mut bytes, &found);
    let marks = marks_of(alloc, text, &found)?;
    Ok(Blanked { bytes, marks })
}

/// Where the names of these stand in the text, or want of memory.
fn marks_of(alloc: Global, text: &str, found: &[Slashed<'_>]) -> Result<Vec<Place>, AllocError>
    requires { All (λ s. IsCharBoundary text.now s.name.start) found.now }
    ensures { IfOk result (λ v. map place_view v.items ≡ marks_of text.now (map slashed_view found.now)) }
{
    let names = names_of(alloc, found)?;
    let placed = place_all(alloc, text, &names)?;
    Ok(places_of(alloc, &placed)?)
}

/// The names of these, or want of memory.
fn names_of<'a>(alloc: Global, found: &[Slashed<'a>]) -> Result<Vec<Lexeme<'a>>, AllocError>
    ensures { IfOk result (λ v. v.items ≡ map (λ s. s.name) found.now) }
{
    let mut names = Vec::with_capacity(alloc, found.len())?;
    for slashed in found {
        names.push(slashed.name)?;
    }
    Ok(names)
}

/// Where these tokens stand, or want of memory.
fn places_of(alloc: Global, tokens: &[Placed<'_>]) -> Result<Vec<Place>, AllocError>
    ensures { IfOk result (λ v. v.items ≡ map (λ t. t.at) tokens.now) }
{
    let mut places = Vec::with_capacity(alloc, tokens.len())?;
    for token in tokens {
        places.push(token.at)?;
    }
    Ok(places)
}

/// Puts blanks where the slashes of these stand.
fn put_blanks(bytes: &mut Vec<u8>, found: &[Slashed<'_>])
    ensures bytes { bytes.new.items ≡ blanked bytes.old.items (slashes (map slashed_view found.now)) }
    ensures utf8 { IsUtf8 bytes.old.items → IsUtf8 bytes.new.items }
{
    for slashed in found {
        blank(bytes, slashed.opens);
        blank(bytes, slashed.closes);
    }
}

/// Puts a blank where a slash stands at the offset.
fn blank(bytes: &mut Vec<u8>, offset: usize)
    ensures bytes { bytes.new.items ≡ blanked bytes.old.items (offset ∷ []) }
    ensures utf8 { IsUtf8 bytes.old.items → IsUtf8 bytes.new.items }
{
    if let Some(byte) = bytes.get_mut(offset) {
        if *byte == b'/' {
            *byte = b' ';
        }
    }
}

/// All components between slashes of a grammar, or want of memory.
fn all_slashed<'a>(alloc: Global, tokens: &[Lexeme<'a>]) -> Result<Vec<Slashed<'a>>, AllocError>
    ensures { IfOk result (λ v. map slashed_view v.items ≡ slashed_in (map spelled tokens.now)) }
{
    let mut found = Vec::new(alloc);
    let mut at = Spot::Outside;
    // How many of the next tokens belong to the last one that was found.
    let mut more = 0;
    for i in 0..tokens.len() {
        more = look(&tokens[i..], at, more, &mut found)?;
        at = spot_behind(at, &tokens[i]);
    }
    Ok(found)
}

/// Adds the component between slashes with which these tokens begin there, where their first doesn't belong to one already; or want of
/// memory. It gives how many of the others belong to one.
fn look<'a>(
    tokens: &[Lexeme<'a>],
    at: Spot,
    more: usize,
    found: &mut Vec<Slashed<'a>>,
) -> Result<usize, AllocError>
    ensures { IfOk result (λ n. map slashed_view found.new.items ++ next_slashed at n (map spelled tokens.now)
        ≡ map slashed_view found.old.items ++ all_slashed at more (map spelled tokens.now)) }
{
    if more > 0 {
        return Ok(more - 1);
    }
    let Some(slashed) = slashed_at(at, tokens) else {
        return Ok(0);
    };
    found.push(slashed)?;
    Ok(slashed.more)
}

/// Where the token behind this one stands.
fn spot_behind(at: Spot, token: &Lexeme<'_>) -> Spot
    ensures { result ≡ spot_behind at (spelled token.now) }
{
    if is_this(token, ";") {
        return Spot::Outside;
    }
    spot_within(at, token)
}

/// Where the token behind this one stands, if this one doesn't end a class.
fn spot_within(at: Spot, token: &Lexeme<'_>) -> Spot
    ensures { result ≡ spot_within at (spelled token.now) }
{
    match at {
        Spot::Outside if is_this(token, "::=") => Spot::Component,
        Spot::Outside => Spot::Outside,
        Spot::Component if is_this(token, ":") => Spot::Kind,
        Spot::Component if is_this(token, "[") || is_this(token, "<") => Spot::Bracketed,
        Spot::Component | Spot::Kind => Spot::Component,
        Spot::Bracketed if is_this(token, "]") || is_this(token, ">") => Spot::Component,
        Spot::Bracketed => Spot::Bracketed,
    }
}

/// The component between slashes with which these tokens begin, if one may stand there.
fn slashed_at<'a>(at: Spot, tokens: &[Lexeme<'a>]) -> Option<Slashed<'a>>
    ensures { option_map slashed_view result ≡ slashed_at at (map spelled tokens.now) }
{
    match at {
        Spot::Component => first_slashed(tokens),
        Spot::Outside => None,
        Spot::Kind => None,
        Spot::Bracketed => None,
    }
}

/// The component between slashes with which these tokens begin.
fn first_slashed<'a>(tokens: &[Lexeme<'a>]) -> Option<Slashed<'a>>
    ensures { option_map slashed_view result ≡ first_slashed (map spelled tokens.now) }
{
    match tokens {
        [first, name, rest @ ..] if is_this(first, "/") && is_named(name) => {
            closed(first, name, rest, typed_length(rest))
        }
        _ => None,
    }
}

/// The one behind whose name so many tokens stand before the slash that closes it.
fn closed<'a>(
    first: &Lexeme<'a>,
    name: &Lexeme<'a>,
    rest: &[Lexeme<'a>],
    length: usize,
) -> Option<Slashed<'a>>
    ensures { option_map slashed_view result ≡ closed (spelled first.now) (spelled name.now) length
        (slice_get (map spelled rest.now) length) (slice_get (map spelled rest.now) (length + 1)) }
{
    let close = rest.get(length)?;
    if !is_this(close, "/") {
        return None;
    }
    if goes_on(rest, length + 1) {
        return None;
    }
    Some(Slashed {
        opens: first.start,
        name: *name,
        closes: close.start,
        more: length + 2,
    })
}

/// Whether the token at this index, if there is one, is one of the two signs that go on with a component.
fn goes_on(tokens: &[Lexeme<'_>], index: usize) -> bool
    ensures { result ≡ goes_on (slice_get (map spelled tokens.now) index) }
{
    match tokens.get(index) {
        Some(token) => is_this(token, ":") || is_this(token, "*"),
        None => false,
    }
}

/// How many tokens `[":" name] ["*"]` takes.
fn typed_length(tokens: &[Lexeme<'_>]) -> usize
    ensures { result ≡ typed_length (map spelled tokens.now) }
{
    let kind = kind_length(tokens);
    kind + star_length(&tokens[kind..])
}

/// How many tokens `[":" name]` takes.
fn kind_length(tokens: &[Lexeme<'_>]) -> usize
    ensures { result ≡ kind_length (map spelled tokens.now) }
{
    match tokens {
        [colon, name, ..] if is_this(colon, ":") && is_named(name) => 2,
        _ => 0,
    }
}

/// How many tokens `["*"]` takes.
fn star_length(tokens: &[Lexeme<'_>]) -> usize
    ensures { result ≡ star_length (map spelled tokens.now) }
{
    match tokens {
        [star, ..] if is_this(star, "*") => 1,
        _ => 0,
    }
}

/// Whether the token is this sign.
fn is_this(token: &Lexeme<'_>, sign: &str) -> bool
    ensures { result ≡ is_this sign.now (spelled token.now) }
{
    token.kind == TokenKind::Sign && token.text == sign
}

/// Whether the token is a name.
fn is_named(token: &Lexeme<'_>) -> bool
    ensures { result ≡ is_named (spelled token.now) }
{
    token.kind == TokenKind::Word && is_name(token.text)
}
