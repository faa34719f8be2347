//! Places: nodes, as a line names them.
ghost use Rattle.std.specs.Prelude.{◌≡◌, ◌++◌, ◌∷◌};
ghost use Rattle.at_tree.specs.PathView.{path_view};
ghost use Rattle.at_protocol.specs.LineView.{place_view};
ghost use Rattle.at_protocol.specs.Words.{Answers, HasNo, IsPlaceText, IsPathText, IsStepsText, IsSlashOrEnd};

use super::Place;
use super::words::{Misfit, Unread, read_name};
use at_tree::fault::TermFault;
use at_tree::path::{Path, read_path};
use std::alloc::Global;
use std::borrow::CowStr;

/// The place that the word spells.
#[inline(always)]
pub(super) fn read_place<'a>(alloc: Global, word: &'a str) -> Result<Place<'a>, Unread>
    ensures { Answers place_view (IsPlaceText word.now) result }
{
    match word.strip_prefix('$') {
        Some(rest) => read_marked(alloc, rest),
        None => Ok(Place::FromRoot(read_whole_path(alloc, word)?)),
    }
}

/// A mark's name and the steps from there, behind the dollar sign.
fn read_marked<'a>(alloc: Global, text: &'a str) -> Result<Place<'a>, Unread>
    ensures { Answers place_view (IsPlaceText (36 ∷ text.now)) result }
{
    let (name, steps) = at_slash(text);
    let name = read_name(name)?;
    let steps = read_steps(alloc, steps)?;
    let name = CowStr::Borrowed(name);
    Ok(Place::FromMark { name, steps })
}

/// The text before the first slash, and the text from there.
fn at_slash(text: &str) -> (&str, &str)
    ensures split { text.now ≡ result.0.now ++ result.1.now }
    ensures front { HasNo 47 result.0.now }
    ensures behind { IsSlashOrEnd result.1.now }
{
    match text.find('/') {
        Some(at) => text.split_at(at),
        None => (text, ""),
    }
}

/// The steps that the text spells: none where it is empty.
fn read_steps<'a>(alloc: Global, text: &'a str) -> Result<Path<'a>, Unread>
    ensures { Answers path_view (IsStepsText text.now) result }
{
    if text.is_empty() {
        return Ok(Path {
            steps: Vec::new(alloc),
        });
    }
    // This is the root's path, and no step.
    if text == "/" {
        return Err(Unread::For(Misfit::Form));
    }
    read_whole_path(alloc, text)
}

/// The path that the text spells.
fn read_whole_path<'a>(alloc: Global, text: &'a str) -> Result<Path<'a>, Unread>
    ensures { Answers path_view (IsPathText text.now) result }
{
    match read_path(alloc, text) {
        Ok(path) => Ok(path),
        Err(TermFault::Syntax { at: _ }) => Err(Unread::For(Misfit::Form)),
        Err(TermFault::Memory) => Err(Unread::Memory),
    }
}
