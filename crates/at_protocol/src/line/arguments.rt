//! Questions: an attribute and its arguments.
ghost use Rattle.std.specs.Prelude.{◌≡◌, ◌≢◌, ◌++◌, ◌∷◌, [], ℕ, List, MatchResult, slice_index, string_bytes};
ghost use Rattle.at_text.specs.declared.fault.Failure.TheVariants.{For};
ghost use Rattle.at_protocol.specs.declared.line.words.Misfit.TheVariants.{Form};
ghost use Rattle.at_protocol.specs.LineView.{argument_view, arguments_view};
ghost use Rattle.at_protocol.specs.Words.{Answers, HasNo};
ghost use Rattle.at_protocol.specs.Calls.{IsCallText, AreArguments, IsNextArgument, IsBareArgument, IsPlainArgument, IsQuotedFirst, next_view};

use super::Argument;
use super::places::read_place;
use super::words::{Misfit, Unread, cut_at, read_name};
use at_text::decimal::read_int;
use at_text::quoted::{QuoteFault, read_quoted};
use std::alloc::Global;

/// The attribute and the arguments that `ATTRIBUTE(ARGUMENTS)` names.
pub(super) fn read_call<'a>(
    alloc: Global,
    text: &'a str,
) -> Result<(&'a str, Vec<Argument<'a>>), Unread>
    ensures { Answers (λ call. (call.0.now, arguments_view call.1.items)) (IsCallText text.now) result }
{
    let (name, inside) = call_parts(text)?;
    let attribute = read_name(name)?;
    if inside.is_empty() {
        return Ok((attribute, Vec::new(alloc)));
    }
    let arguments = read_arguments(alloc, inside)?;
    Ok((attribute, arguments))
}

/// The text before the first parenthesis, and the text from there to the last.
fn call_parts(text: &str) -> Result<(&str, &str), Unread>
    ensures { MatchResult result
        (λ parts. (text.now ≡ parts.0.now ++ 40 ∷ (parts.1.now ++ 41 ∷ [])) × HasNo 40 parts.0.now)
        (λ fault. (fault ≡ For Form) × ((name inside : List ℕ) → HasNo 40 name → text.now ≢ name ++ 40 ∷ (inside ++ 41 ∷ []))) }
{
    let Some((name, rest)) = cut_at(text, b'(') else {
        return Err(Unread::For(Misfit::Form));
    };
    match rest.strip_suffix(')') {
        Some(inside) => Ok((name, inside)),
        None => Err(Unread::For(Misfit::Form)),
    }
}

/// The arguments that the text spells, one or more, with a comma between each two.
fn read_arguments<'a>(alloc: Global, text: &'a str) -> Result<Vec<Argument<'a>>, Unread>
    ensures { Answers (λ arguments. arguments_view arguments.items) (AreArguments text.now) result }
{
    let (first, mut rest) = next_argument(alloc, text)?;
    let mut arguments = Vec::new(alloc);
    arguments.push(first)?;
    while let Some(text) = rest {
        let (argument, behind) = next_argument(alloc, text)?;
        arguments.push(argument)?;
        rest = behind;
    }
    Ok(arguments)
}

/// The argument before the next comma or the end, and what stands behind the comma.
fn next_argument<'a>(
    alloc: Global,
    text: &'a str,
) -> Result<(Argument<'a>, Option<&'a str>), Unread>
    ensures { Answers next_view (IsNextArgument text.now) result }
{
    if text.starts_with('"') {
        return next_text(alloc, text);
    }
    match text.split_once(',') {
        Some((word, rest)) => Ok((read_bare(alloc, word)?, Some(rest))),
        None => Ok((read_bare(alloc, text)?, None)),
    }
}

/// The same, where a quote stands at the front.
fn next_text<'a>(alloc: Global, text: &'a str) -> Result<(Argument<'a>, Option<&'a str>), Unread>
    requires { slice_index text.now 0 ≡ 34 }
    ensures { Answers next_view (IsNextArgument text.now) result }
{
    let (value, rest) = text_first(alloc, text)?;
    if rest.is_empty() {
        return Ok((Argument::Text(value), None));
    }
    match rest.strip_prefix(',') {
        Some(rest) => Ok((Argument::Text(value), Some(rest))),
        None => Err(Unread::For(Misfit::Form)),
    }
}

/// The text whose spelling between quotes stands at the front, and the rest.
fn text_first(alloc: Global, text: &str) -> Result<(String, &str), Unread>
    ensures { Answers (λ first. (string_bytes first.0, first.1.now)) (IsQuotedFirst text.now) result }
{
    match read_quoted(alloc, text) {
        Ok((value, length)) => Ok((value, text.split_at(length).1)),
        Err(QuoteFault::Form) => Err(Unread::For(Misfit::Form)),
        Err(QuoteFault::Memory) => Err(Unread::Memory),
    }
}

/// The argument that the word spells: a place, `null`, a boolean or an int.
fn read_bare<'a>(alloc: Global, word: &'a str) -> Result<Argument<'a>, Unread>
    ensures { Answers argument_view (IsBareArgument word.now) result }
{
    if word.starts_with('/') || word.starts_with('$') {
        return Ok(Argument::Node(read_place(alloc, word)?));
    }
    read_plain(word)
}

/// The argument that the word spells, where it is no place: `null`, a boolean, or a decimal within 32 bits.
fn read_plain<'a>(word: &str) -> Result<Argument<'a>, Unread>
    ensures { Answers argument_view (IsPlainArgument word.now) result }
{
    if word == "null" {
        return Ok(Argument::Null);
    }
    if word == "true" {
        return Ok(Argument::Bool(true));
    }
    if word == "false" {
        return Ok(Argument::Bool(false));
    }
    match read_int(word) {
        Some(number) => Ok(Argument::Int(number)),
        None => Err(Unread::For(Misfit::Form)),
    }
}
