//! A path in one pass over its text, a step at a time.
ghost use Rattle.std.specs.Prelude.{◌≡◌, ◌≢◌, ◌<◌, ◌∷◌, ◌+◌, ◌==◌, [], ℕ, List, true, IfOk, IfErr, MatchOption};
ghost use Rattle.std.specs.Str.{bytes_eq};
ghost use Rattle.at_model.specs.Paths.{Path as Steps, IsPath, path_text};
ghost use Rattle.at_text.specs.Pieces.{NotBefore};
ghost use Rattle.at_tree.specs.Leads.{LeadsTo};
ghost use Rattle.at_tree.specs.Partial.{is_digit, is_empty};
ghost use Rattle.at_tree.specs.PartialPath.{at, Slash, Colon, InIndex, step, goes_on};
ghost use Rattle.at_tree.specs.PathSteps.{TakesStep, StopsBehind, StopsLeaving};
ghost use Rattle.at_tree.specs.PathView.{path_view, step_view};
ghost use Rattle.at_tree.specs.Reads.{Reads, StopsWith};
ghost use Rattle.at_tree.specs.Stops.{IsPathText};

use super::{Path, Step};
use crate::fault::TermFault;
use crate::names::word_first;
use at_text::fault::Failure;
use at_text::names::is_reserved;
use std::alloc::Global;
use std::borrow::CowStr;

/// Why no path was read: how many bytes are left where the text stops being a path's, or want of memory.
type Stopped = Failure<usize>;

/// About how many bytes a step has, for the room that a path's steps take.
const STEP_LENGTH: usize = 5;

/// The path of a text. Its work is linear in the text.
///
/// ```text
/// path = "/" | { "/" step }, one step or more      step = name [":" index]
/// index = "0" | nonzero { digit }, at most 9 digits
/// ```
///
/// `Syntax` has the offset of the first character with which no path's text goes on, or the end of
/// the text; `Memory` is want of memory.
pub fn read_path<'a>(alloc: Global, text: &'a str) -> Result<Path<'a>, TermFault>
    // What is read is the text's path.
    ensures found { IfOk result (λ p. IsPath (path_view p) × (path_text (path_view p) ≡ text.now)) }
    // A path's text is read as that path, unless memory runs out.
    ensures only { (p : Steps) → IsPath p → path_text p ≡ text.now → Reads path_view result p }
    // Else the fault stands at the first character that leads to no path's text.
    ensures fault { IfErr result (StopsWith IsPathText text.now) }
{
    match whole_path(alloc, text) {
        Ok(path) => Ok(path),
        Err(Failure::For(left)) => Err(TermFault::Syntax {
            at: text.len() - left,
        }),
        Err(Failure::Memory) => Err(TermFault::Memory),
    }
}

/// The path that the whole text is written of.
fn whole_path<'a>(alloc: Global, text: &'a str) -> Result<Path<'a>, Stopped>
    ensures found { IfOk result (λ p. IsPath (path_view p) × (path_text (path_view p) ≡ text.now)) }
    ensures stops { IfErr result (StopsLeaving text.now) }
{
    if is_root(text) {
        return Ok(Path {
            steps: Vec::new(alloc),
        });
    }
    let mut steps = Vec::with_capacity(alloc, text.len() / STEP_LENGTH + 1)?;
    let mut rest = text;
    while let Some(behind) = behind_sign(rest, b'/') {
        let (step, next) = step_first(behind)?;
        steps.push(step)?;
        rest = next;
    }
    if steps.is_empty() {
        return Err(Stopped::For(rest.len()));
    }
    if !rest.is_empty() {
        return Err(Stopped::For(rest.len()));
    }
    Ok(Path { steps })
}

/// Whether the text is the path of the root.
fn is_root(text: &str) -> bool
    ensures { result ≡ bytes_eq text.now (47 ∷ []) }
{
    match text.as_bytes() {
        [b'/'] => true,
        _ => false,
    }
}

/// The step at the front, behind its slash, and what follows it.
fn step_first<'a>(text: &'a str) -> Result<(Step<'a>, &'a str), Stopped>
    ensures taken { IfOk result (λ r. (ss : Steps) → TakesStep ss text.now (step_view r.0) r.1.now) }
    ensures stops { IfErr result (λ e. (ss : Steps) → (is_empty ss ≡ true → text.now ≢ []) → StopsBehind (at ss Slash) text.now e) }
{
    let Some((name, behind)) = word_first(text) else {
        return Err(Stopped::For(text.len()));
    };
    if is_reserved(name) {
        return Err(Stopped::For(behind.len()));
    }
    let part = CowStr::Borrowed(name);
    let Some(digits) = behind_sign(behind, b':') else {
        return Ok((Step { part, index: None }, behind));
    };
    let Some((index, rest)) = index_first(digits) else {
        return Err(Stopped::For(digits.len()));
    };
    let index = Some(index);
    Ok((Step { part, index }, rest))
}

/// What follows the sign of ASCII at the front.
fn behind_sign(text: &str, sign: u8) -> Option<&str>
    requires { sign < 128 }
    ensures { MatchOption result (NotBefore (λ c. c == sign) text.now) (λ rest. text.now ≡ sign ∷ rest.now) }
{
    match text.as_bytes() {
        [first, ..] if *first == sign => Some(text.split_at(1).1),
        _ => None,
    }
}

/// The index whose decimal stands at the front, and what follows it: no digit with which it would go on.
fn index_first(text: &str) -> Option<(u32, &str)>
    ensures { MatchOption result
        (NotBefore is_digit text.now)
        (λ r. NotBefore (goes_on r.0) r.1.now
        × ((ss : Steps) (part : List ℕ) → LeadsTo step (at ss (Colon part)) text.now (at ss (InIndex part r.0)) r.1.now)) }
{
    let (mut value, mut rest) = digit_first(text)?;
    while value > 0 && value < 100_000_000 {
        let Some((digit, behind)) = digit_first(rest) else {
            return Some((value, rest));
        };
        value = value * 10 + digit;
        rest = behind;
    }
    Some((value, rest))
}

/// The digit at the front, and what follows it.
fn digit_first(text: &str) -> Option<(u32, &str)>
    ensures { MatchOption result (NotBefore is_digit text.now) (λ r. (r.0 < 10) × (text.now ≡ (48 + r.0) ∷ r.1.now)) }
{
    match text.as_bytes() {
        [first, ..] if first.is_ascii_digit() => {
            let digit = u32::from(*first - b'0');
            Some((digit, text.split_at(1).1))
        }
        _ => None,
    }
}
