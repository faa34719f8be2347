//! Texts that are compared where they stand, in an evaluation in one go.

ghost use Rattle.std.specs.Prelude.{◌≡◌, IfOk, IfSome, Some, bytes_eq, map};
ghost use Rattle.at_model.specs.Bodies.{named, token_of};
ghost use Rattle.at_model.specs.Classes.{Classes};
ghost use Rattle.at_model.specs.Run.{Gives, Ref, Text};
ghost use Rattle.at_store.specs.Shown.{IsIdle, contents};
ghost use Rattle.at_rules.specs.Bodies.{body_view};
ghost use Rattle.at_body.specs.Comparing.{IsComparison};
ghost use Rattle.at_body.specs.Rest.{ev, with_two};
ghost use Rattle.at_body.specs.Standing.{scope};
ghost use Rattle.at_body.specs.Values.{value_view};
ghost use Rattle.at_evaluate.specs.Parts.{two_of};
ghost use Rattle.at_evaluate.specs.Looking.{MayHaveLooked};
ghost use Rattle.at_evaluate.specs.Place.{place_at};

use crate::here::{Here, at};
use crate::stop::Stop;
use at_body::{Binary, Reads, Value, tells, text_in, token_text};
use at_rules::Body;
use at_store::{Loc, Node, Store};

/// What the comparison of a token of `this` or of an element with an argument or a literal tells, of which no copy is made: then just that token was
/// looked at. None of other expressions, and of what is no text: then nothing was looked at. An error where memory is wanting.
pub fn compare(
    here: &Here,
    store: &Store,
    reads: &mut Reads,
    comparison: &Binary,
    left: &Body,
    right: &Body,
) -> Result<Option<Value>, Stop>
    requires idle { IsIdle store.now }
    requires comparison { IsComparison comparison.now }
    ensures { (classes : Classes) → IfOk result (MayHaveLooked (contents store.now) reads.old reads.new
        (two_of classes (place_at here.now) comparison.now left.now right.now)) }
{
    let Some(text) = lent(here, right) else {
        return Ok(None);
    };
    let Some((node, part)) = near_token(here, left) else {
        return Ok(None);
    };
    let Some(own) = token_text(store, node, part) else {
        return Ok(None);
    };
    reads.push(Loc::Tok(node, part))?;
    Ok(Some(Value::Bool(tells(comparison, is_same(own, text)))))
}

// Whether the texts are the same.
pub(crate) fn is_same(left: &str, right: &str) -> bool
    ensures { result ≡ bytes_eq left.now right.now }
{
    left == right
}

/// What the comparison of a value with a text tells, of which no copy is made. Gives up at a value of another kind.
pub fn compare_with(comparison: &Binary, left: &Value, right: &str) -> Result<Value, Stop>
    requires { IsComparison comparison.now }
    ensures { IfOk result (λ v. with_two comparison.now (value_view left.now) (Text right.now) ≡ Gives (value_view v)) }
{
    let Some(own) = text_in(left) else {
        return Err(Stop::GivesUp);
    };
    Ok(Value::Bool(tells(comparison, is_same(own, right))))
}

/// The text of a literal or of an argument, of which no copy is made. None of other expressions.
pub fn lent<'s>(here: &'s Here, body: &'s Body) -> Option<&'s str>
    ensures { IfSome result (λ text. (classes : Classes) → ev classes (body_view body.now) (place_at here.now) ≡ Gives (Text text.now)) }
{
    match body {
        Body::Text(text) => Some(text.as_str()),
        Body::Name(position) => lent_argument(here, *position),
        _ => None,
    }
}

// The text of an argument; none of an element of a fold, and of another value.
fn lent_argument(here: &Here, position: usize) -> Option<&str>
    ensures { IfSome result (λ text. named (scope (place_at here.now)).names position ≡ Text text.now) }
{
    if let Some(_element) = here.bound.get(position) {
        return None;
    }
    let passed = position.saturating_sub(here.bound.len());
    argument_text(here.arguments.as_slice(), passed)
}

// The text of the argument at a position; none of another value.
pub(crate) fn argument_text(arguments: &[Value], position: usize) -> Option<&str>
    ensures { IfSome result (λ text. named (map value_view arguments.now) position ≡ Text text.now) }
{
    let Some(value) = at(arguments, position) else {
        return None;
    };
    text_in(value)
}

// The node and the component of a token of `this` or of an element.
fn near_token(here: &Here, body: &Body) -> Option<(Node, usize)>
    ensures { IfSome result (λ q. (classes : Classes) → ev classes (body_view body.now) (place_at here.now) ≡ token_of q.1 (Ref (Some q.0))) }
{
    match body {
        Body::TokenOf(a, part) => {
            let node = near(here, a)?;
            Some((node, *part))
        }
        _ => None,
    }
}

// The node that is `this` or an element.
pub(crate) fn near(here: &Here, body: &Body) -> Option<Node>
    ensures { IfSome result (λ node. (classes : Classes) → ev classes (body_view body.now) (place_at here.now) ≡ Gives (Ref (Some node))) }
{
    match body {
        Body::This => Some(here.this),
        Body::Name(position) => here.bound.get(*position),
        _ => None,
    }
}
