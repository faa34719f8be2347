//! Questions that begin at the root, name no version and have no arguments, told by what stands before their attribute.
ghost use Rattle.std.specs.Prelude.{◌≡◌, ◌<◌, ℕ, List, IfNone, IfSome};
ghost use Rattle.at_model.specs.Lines.{From_root, Spells, max_sessions};
ghost use Rattle.at_model.specs.Paths.{IsPath, Path};
ghost use Rattle.at_protocol.specs.Again.{bare_question, front_text, question};
ghost use Rattle.at_protocol.specs.LineView.{arguments_view, place_view};

use super::words::is_name_word;
use super::{Argument, MAX_LINE, Place};

/// What stands between the name of an attribute without arguments and the end of the line.
const NO_ARGUMENTS: &[u8] = b"()";

/// What stands before the attribute of such a question, where the line, of which these are the parts, is one.
pub fn front_of<'a>(
    line: &'a [u8],
    expected: Option<u64>,
    place: &Place<'_>,
    attribute: &str,
    arguments: &[Argument<'_>],
) -> Option<&'a [u8]>
    ensures found { (session : ℕ) → Spells line.now (question session expected (place_view place.now) attribute.now (arguments_view arguments.now))
        → IfSome result (λ front. (steps : Path) × (place_view place.now ≡ From_root steps) × (front.now ≡ front_text session steps)) }
    ensures none { (session : ℕ) → Spells line.now (question session expected (place_view place.now) attribute.now (arguments_view arguments.now))
        → IfNone result ((steps : Path) → Spells line.now (bare_question session steps attribute.now) → ⊥) }
{
    match place {
        Place::FromRoot(_) if expected.is_none() && arguments.is_empty() => {
            let behind = attribute.len() + NO_ARGUMENTS.len();
            let end = line.len().checked_sub(behind)?;
            Some(line.split_at(end).0)
        }
        _ => None,
    }
}

/// The attribute for which the line asks, where it is such a question, of the session and the node of the question before whose
/// attribute this front stood.
#[inline(always)]
pub fn asked_behind<'a>(line: &'a [u8], front: &[u8]) -> Option<&'a str>
    ensures found { (session : ℕ) (steps : Path) → session < max_sessions → IsPath steps → front.now ≡ front_text session steps
        → IfSome result (λ attribute. Spells line.now (bare_question session steps attribute.now)) }
    ensures none { (session : ℕ) (steps : Path) → front.now ≡ front_text session steps
        → IfNone result ((attribute : List ℕ) → Spells line.now (bare_question session steps attribute) → ⊥) }
{
    if line.len() > MAX_LINE {
        return None;
    }
    let call = line.strip_prefix(front)?;
    let name = call.strip_suffix(NO_ARGUMENTS)?;
    let Ok(word) = std::str::from_utf8(name) else {
        return None;
    };
    if is_name_word(word) { Some(word) } else { None }
}
