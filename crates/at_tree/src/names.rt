//! Names at the front of a text. What is of ASCII in them is told by its bytes.
ghost use Rattle.std.specs.Prelude.{◌≡◌, ◌++◌, true, IfOk, MatchOption};
ghost use Rattle.at_model.specs.Names.{IsName, starts_name, continues_name};
ghost use Rattle.at_text.specs.Pieces.{NotBefore};
ghost use Rattle.at_tree.specs.PlainNames.{is_name_byte, name_len, begins_name, begins_plain};
ghost use Rattle.at_tree.specs.Runs.{Passes, IsWordBefore};

use crate::fault::{Misfit, Untaken};
use crate::runs::{Run, past};
use at_text::names::{is_reserved, starts_name};

/// Which bytes are letters or digits of ASCII, or the underscore.
const NAME_BYTES: [bool; 256] = [
    false, false, false, false, false, false, false, false, false, false, false, false, false,
    false, false, false, false, false, false, false, false, false, false, false, false, false,
    false, false, false, false, false, false, false, false, false, false, false, false, false,
    false, false, false, false, false, false, false, false, false, true, true, true, true, true,
    true, true, true, true, true, false, false, false, false, false, false, false, true, true,
    true, true, true, true, true, true, true, true, true, true, true, true, true, true, true, true,
    true, true, true, true, true, true, true, true, false, false, false, false, true, false, true,
    true, true, true, true, true, true, true, true, true, true, true, true, true, true, true, true,
    true, true, true, true, true, true, true, true, true, false, false, false, false, false, false,
    false, false, false, false, false, false, false, false, false, false, false, false, false,
    false, false, false, false, false, false, false, false, false, false, false, false, false,
    false, false, false, false, false, false, false, false, false, false, false, false, false,
    false, false, false, false, false, false, false, false, false, false, false, false, false,
    false, false, false, false, false, false, false, false, false, false, false, false, false,
    false, false, false, false, false, false, false, false, false, false, false, false, false,
    false, false, false, false, false, false, false, false, false, false, false, false, false,
    false, false, false, false, false, false, false, false, false, false, false, false, false,
    false, false, false, false, false, false, false, false, false, false, false, false, false,
    false, false, false, false, false, false, false, false, false, false,
];

/// Whether the word is a name of ASCII alone. It may be another name where it isn't.
pub fn is_plain_name(word: &str) -> bool
    ensures { result ≡ true → IsName word.now }
{
    if name_len(word) < word.len() || !begins_name(word) {
        return false;
    }
    !is_reserved(word)
}

/// The name of ASCII alone at the front, and what follows it.
pub(crate) fn name_first(text: &str) -> Result<(&str, &str), Untaken>
    ensures { IfOk result (λ r. IsName r.0.now × (text.now ≡ r.0.now ++ r.1.now)) }
{
    let (name, rest) = text.split_at(name_len(text));
    if !begins_name(name) || is_reserved(name) {
        return Err(Untaken::For(Misfit::Form));
    }
    Ok((name, rest))
}

/// What has the form of a name at the front, as long as it goes on, and what follows it. Most are of ASCII, and told so at once.
pub(crate) fn word_first(text: &str) -> Option<(&str, &str)>
    ensures { MatchOption result (NotBefore starts_name text.now) (λ r. IsWordBefore text.now r.0.now r.1.now) }
{
    let (word, rest) = text.split_at(name_len(text));
    if !begins_name(word) || !begins_plain(rest) {
        return any_word_first(text);
    }
    Some((word, rest))
}

/// The same for any text, by characters. By itself, so that words of ASCII cost no more than a look at their bytes.
#[inline(never)]
fn any_word_first(text: &str) -> Option<(&str, &str)>
    ensures { MatchOption result (NotBefore starts_name text.now) (λ r. IsWordBefore text.now r.0.now r.1.now) }
{
    let mut chars = text.chars();
    let Some(c) = chars.next() else {
        return None;
    };
    if !starts_name(c) {
        return None;
    }
    let rest = past(behind_plain(chars.as_str()), Run::Name);
    Some(text.split_at(text.len() - rest.len()))
}

/// What follows the bytes at the front with which a name in ASCII goes on.
fn behind_plain(text: &str) -> &str
    ensures { Passes continues_name text.now result.now }
{
    text.split_at(name_len(text)).1
}

/// How many bytes stand before the first that is none of a name in ASCII.
fn name_len(text: &str) -> usize
    ensures { result ≡ name_len text.now }
{
    match text.as_bytes().iter().position(|b| !is_name_byte(*b)) {
        Some(len) => len,
        None => text.len(),
    }
}

/// Whether a name goes on with the byte as a character of ASCII.
fn is_name_byte(b: u8) -> bool
    ensures { result ≡ is_name_byte b }
{
    NAME_BYTES[b as usize]
}

/// Whether such bytes are some, and no digit is the first.
fn begins_name(name: &str) -> bool
    ensures { result ≡ begins_name name.now }
{
    match name.as_bytes() {
        [first, ..] => !first.is_ascii_digit(),
        [] => false,
    }
}

/// Whether no character beyond ASCII stands at the front.
fn begins_plain(text: &str) -> bool
    ensures { result ≡ begins_plain text.now }
{
    match text.as_bytes() {
        [first, ..] => first.is_ascii(),
        [] => true,
    }
}
