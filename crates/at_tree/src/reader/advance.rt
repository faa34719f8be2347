//! The steps of the reader of terms, each over a character and the run that it stands in.
ghost use Rattle.std.specs.Prelude.{◌≡◌, ◌<◌, IfOk, IfErr, length, string_bytes};
ghost use Rattle.at_text.specs.declared.fault.Failure.TheVariants.{For, Memory};
ghost use Rattle.at_tree.specs.declared.fault.Misfit.TheVariants.{Form};
ghost use Rattle.at_tree.specs.Leads.{LeadsTo, Takes, TakesNone};
ghost use Rattle.at_tree.specs.Partial.{at, InText, InWord, can_open, step};
ghost use Rattle.at_tree.specs.Seen.{levels_view, partial_view};

use super::{Level, MAX_DEPTH, Partial, Place};
use crate::fault::{Misfit, Untaken};
use crate::runs::{Run, cut};
use std::alloc::Global;

/// Whether one more term may open.
fn can_open(levels: &[Level]) -> bool
    ensures { result ≡ can_open (levels_view levels.now) }
{
    levels.len() < MAX_DEPTH
}

/// The front of a word with all that a name goes on with, where one more term may open, and what follows it.
fn whole_word<'a>(
    levels: Vec<Level>,
    mut word: String,
    text: &'a str,
) -> Result<(Partial, &'a str), Untaken>
    ensures leads { IfOk result (λ r. LeadsTo step (at (levels_view levels.items) (InWord (string_bytes word))) text.now (partial_view r.0) r.1.now) }
    ensures memory { IfErr result (λ e. e ≡ Memory) }
{
    if !can_open(&levels) {
        let place = Place::InWord(word);
        return Ok((Partial { levels, place }, text));
    }
    let (more, rest) = cut(text, Run::Name);
    word.push_str(more)?;
    let place = Place::InWord(word);
    Ok((Partial { levels, place }, rest))
}

/// The front of a text between quotes with all characters that stand for themselves, and what follows it.
fn plain_text<'a>(
    levels: Vec<Level>,
    mut value: String,
    text: &'a str,
) -> Result<(Partial, &'a str), Untaken>
    ensures leads { IfOk result (λ r. LeadsTo step (at (levels_view levels.items) (InText (string_bytes value))) text.now (partial_view r.0) r.1.now) }
    ensures memory { IfErr result (λ e. e ≡ Memory) }
{
    let (more, rest) = cut(text, Run::Plain);
    value.push_str(more)?;
    let place = Place::InText(value);
    Ok((Partial { levels, place }, rest))
}

impl Partial {
    /// The end of the run that stands here, if one does, and what follows it.
    fn run_on<'a>(self, text: &'a str) -> Result<(Partial, &'a str), Untaken>
        ensures leads { IfOk result (λ r. LeadsTo step (partial_view self) text.now (partial_view r.0) r.1.now) }
        ensures memory { IfErr result (λ e. e ≡ Memory) }
    {
        let Partial { levels, place } = self;
        match place {
            Place::InWord(word) => whole_word(levels, word, text),
            Place::InText(value) => plain_text(levels, value, text),
            place => Ok((Partial { levels, place }, text)),
        }
    }
}

/// The place behind the next character and the run that it stands in, and what follows it.
pub(super) fn advance<'a>(
    alloc: Global,
    partial: Partial,
    text: &'a str,
) -> Result<(Partial, &'a str), Untaken>
    requires { 0 < length text.now }
    ensures taken { IfOk result (λ r. Takes step (partial_view partial) text.now (partial_view r.0) r.1.now) }
    ensures refused { IfErr result (λ e. e ≡ For Form → TakesNone step (partial_view partial) text.now) }
{
    let mut chars = text.chars();
    let Some(c) = chars.next() else {
        return Err(Untaken::For(Misfit::Form));
    };
    let next = partial.step(alloc, c)?;
    let rest = chars.as_str();
    next.run_on(rest)
}
