//! Quoted texts: one spelling for each text.
ghost use Rattle.std.specs.Prelude.{◌≡◌, ◌≤◌, ◌++◌, ◌∷◌, List, ℕ, length, vec_capacity, Err, OnOk, OnErr, IfOk, IfErr, string_bytes, encode_utf8, MatchOption};
ghost use Rattle.std.specs.List.{flat_map};
ghost use Rattle.std.specs.Str.Iter.{chars_rest};
ghost use Rattle.at_model.specs.Texts.{escaped, quoted};
ghost use Rattle.at_text.specs.Quoted.{Begins, EndsIn, Extends, Reads, Spells};

use std::alloc::{AllocError, Global};
use std::str::Chars;

/// Why no text was read.
#[derive(Clone, Copy, PartialEq, Eq, Debug)]
pub enum QuoteFault {
    /// No quoted text stands at the front: a quote is missing, or a backslash begins no escape, or
    /// a newline or a tab stands for itself.
    Form,
    /// Memory ran out.
    Memory,
}

impl From<AllocError> for QuoteFault {
    ghost use Rattle.std.specs.Prelude.{◌≡◌};
    ghost use Rattle.at_text.specs.declared.quoted.QuoteFault.TheVariants.{Memory};

    ghost from_gives = { λ _ e. e ≡ Memory };

    fn from(_: AllocError) -> QuoteFault {
        QuoteFault::Memory
    }
}

/// Appends the byte as it stands between quotes.
fn push_escaped(byte: u8, out: &mut Vec<u8>) -> Result<(), AllocError>
    ensures ok { OnOk result (out.new.items ≡ out.old.items ++ escaped byte) }
    ensures err { OnErr result (out.new.items ≡ out.old.items) }
    ensures grows { vec_capacity out.old ≤ vec_capacity out.new }
{
    match byte {
        b'"' => out.extend_from_slice(b"\\\""),
        b'\\' => out.extend_from_slice(b"\\\\"),
        b'\n' => out.extend_from_slice(b"\\n"),
        b'\t' => out.extend_from_slice(b"\\t"),
        _ => Ok(out.push(byte)?),
    }
}

/// Appends the text between quotes, or a part of that where memory is wanting.
fn push_quoted(text: &str, out: &mut Vec<u8>) -> Result<(), AllocError>
    ensures ok { OnOk result (out.new.items ≡ out.old.items ++ quoted text.now) }
    ensures err { OnErr result (Extends out.old.items out.new.items) }
    ensures grows { vec_capacity out.old ≤ vec_capacity out.new }
{
    out.push(b'"')?;
    for byte in text.as_bytes() {
        push_escaped(*byte, out)?;
    }
    Ok(out.push(b'"')?)
}

/// Appends the text between quotes, with an escape for each quote, backslash, newline and tab.
/// Where memory is wanting, the output stays as it was.
pub fn write_quoted(text: &str, out: &mut Vec<u8>) -> Result<(), AllocError>
    ensures ok { OnOk result (out.new.items ≡ out.old.items ++ quoted text.now) }
    ensures err { OnErr result (out.new.items ≡ out.old.items) }
    ensures grows { vec_capacity out.old ≤ vec_capacity out.new }
{
    let len = out.len();
    let written = push_quoted(text, out);
    if written.is_err() {
        out.truncate(len);
    }
    written
}

/// The character for which the next one or two stand, or `None` at the closing quote.
fn next_quoted(chars: &mut Chars<'_>) -> Result<Option<char>, QuoteFault>
    // 34 is the closing quote
    ensures taken { IfOk result (λ next. MatchOption next
        (chars_rest chars.old ≡ 34 ∷ chars_rest chars.new)
        (λ c. chars_rest chars.old ≡ flat_map escaped (encode_utf8 c) ++ chars_rest chars.new)) }
    // what is left is no text's spelling
    ensures form { OnErr result ((value : List ℕ) → ¬ (EndsIn (chars_rest chars.old) value)) }
    ensures fault { IfErr result (λ e. e ≡ QuoteFault.Form) }
{
    match chars.next() {
        Some('"') => Ok(None),
        Some('\\') => match chars.next() {
            Some('"') => Ok(Some('"')),
            Some('\\') => Ok(Some('\\')),
            Some('n') => Ok(Some('\n')),
            Some('t') => Ok(Some('\t')),
            _ => Err(QuoteFault::Form),
        },
        Some('\n') | Some('\t') | None => Err(QuoteFault::Form),
        Some(c) => Ok(Some(c)),
    }
}

/// The text whose spelling stands at the front, and how many bytes that spelling takes. So what
/// `write_quoted` wrote is read again, whatever follows it.
///
/// The escapes are `\"`, `\\`, `\n` and `\t` and no others; each other character stands for
/// itself, but a newline and a tab do not. `Form` where no spelling of a text stands at the front,
/// `Memory` where memory runs out.
pub fn read_quoted(alloc: Global, text: &str) -> Result<(String, usize), QuoteFault>
    ensures found { IfOk result (λ r. Begins text.now (string_bytes r.0)
        × (r.1 ≡ length (quoted (string_bytes r.0)))) }
    ensures only { (value : List ℕ) → Begins text.now value → Reads result value }
    ensures form { result ≡ Err QuoteFault.Form → (value : List ℕ) → ¬ (Begins text.now value) }
{
    let mut chars = text.chars();
    let Some('"') = chars.next() else {
        return Err(QuoteFault::Form);
    };
    let mut value = String::new(alloc);
    while let Some(c) = next_quoted(&mut chars)? {
        value.push(c)?;
    }
    Ok((value, text.len() - chars.as_str().len()))
}

/// The text whose spelling the whole of this is. `Form` where it is no text's spelling, `Memory`
/// where memory runs out.
pub fn read_text(alloc: Global, text: &str) -> Result<String, QuoteFault>
    ensures { Spells text.now result }
{
    let (value, length) = read_quoted(alloc, text)?;
    if length == text.len() {
        Ok(value)
    } else {
        Err(QuoteFault::Form)
    }
}

/// A quoted text tells its text and where it ends, whatever follows: no text has two spellings, no
/// two texts have one, and none begins another.
pub fn one_spelling()
    ensures { (a b x y : List ℕ) → quoted a ++ x ≡ quoted b ++ y → (a ≡ b) × (x ≡ y) }
{}
