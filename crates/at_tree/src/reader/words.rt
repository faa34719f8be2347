//! Words in a term: names, `true` and `false`.
ghost use Rattle.std.specs.Prelude.{◌≡◌, ◌++◌, string_bytes, encode_utf8};
ghost use Rattle.at_tree.specs.Partial.{may_be_word, takes_cell, begins_truth, truth_of, in_word, open_term, after_truth, after_word};
ghost use Rattle.at_tree.specs.Seen.{Gives, levels_view};

use super::steps::{in_cell, inside};
use super::{Level, MAX_DEPTH, Partial, Place};
use crate::fault::{Misfit, Untaken};
use crate::term::TermCell;
use at_class::token::TokVal;
use at_text::names::{continues_name, is_reserved};
use std::alloc::Global;

/// Whether a cell comes next, and no item of a list.
fn takes_cell(levels: &[Level]) -> bool
    ensures { result ≡ takes_cell (levels_view levels.now) }
{
    match levels.last() {
        Some(level) => level.items.is_none(),
        None => false,
    }
}

/// Whether `true` or `false` begins with the word.
fn begins_truth(word: &str) -> bool
    ensures { result ≡ begins_truth word.now }
{
    let word = word.as_bytes();
    "true".as_bytes().starts_with(word) || "false".as_bytes().starts_with(word)
}

/// The truth value that the word spells.
fn truth_of(word: &str) -> Option<bool>
    ensures { result ≡ truth_of word.now }
{
    if word == "true" {
        Some(true)
    } else if word == "false" {
        Some(false)
    } else {
        None
    }
}

/// Whether the front of a word may stand here: of a name where one more term may open, of `true` or
/// `false` where a cell comes.
fn may_be_word(levels: &[Level], word: &str) -> bool
    ensures { result ≡ may_be_word (levels_view levels.now) word.now }
{
    levels.len() < MAX_DEPTH || takes_cell(levels) && begins_truth(word)
}

/// The front of a word, one character longer.
pub(super) fn in_word(levels: Vec<Level>, mut word: String, c: char) -> Result<Partial, Untaken>
    ensures { Gives result (in_word (levels_view levels.items) (string_bytes word ++ encode_utf8 c)) }
{
    word.push(c)?;
    if !may_be_word(&levels, &word) {
        return Err(Untaken::For(Misfit::Form));
    }
    Ok(Partial {
        levels,
        place: Place::InWord(word),
    })
}

/// The parenthesis behind a name.
fn open_term(alloc: Global, levels: Vec<Level>, name: String) -> Result<Partial, Untaken>
    ensures { Gives result (open_term (levels_view levels.items) (string_bytes name)) }
{
    if levels.len() >= MAX_DEPTH || is_reserved(&name) {
        return Err(Untaken::For(Misfit::Form));
    }
    // most terms have two cells at most
    let cells = Vec::with_capacity(alloc, 2)?;
    let level = Level {
        name,
        cells,
        items: None,
    };
    inside(levels, level, Place::Start)
}

/// The character behind `true` or `false`.
fn after_truth(levels: Vec<Level>, truth: Option<bool>, c: char) -> Result<Partial, Untaken>
    ensures { Gives result (after_truth (levels_view levels.items) truth c) }
{
    match truth {
        Some(truth) if takes_cell(&levels) => {
            in_cell(levels, TermCell::Holds(TokVal::Bool(truth)), c)
        }
        _ => Err(Untaken::For(Misfit::Form)),
    }
}

/// The character behind the front of a word.
pub(super) fn after_word(
    alloc: Global,
    levels: Vec<Level>,
    word: String,
    c: char,
) -> Result<Partial, Untaken>
    ensures { Gives result (after_word (levels_view levels.items) (string_bytes word) c) }
{
    if c == '(' {
        return open_term(alloc, levels, word);
    }
    if continues_name(c) {
        return in_word(levels, word, c);
    }
    let truth = truth_of(&word);
    after_truth(levels, truth, c)
}
