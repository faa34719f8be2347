//! How much may be declared.

ghost use Rattle.std.specs.Prelude.{◌≡◌, map, option_and_then};
ghost use Rattle.at_jrag.specs.Syntax.{TextLiteral, to_exprs};
ghost use Rattle.at_jrag.specs.View.{expr_view};
ghost use Rattle.at_typing.specs.Declaring.{body_in, over_limit, long_text, long_text_among};
ghost use Rattle.at_typing.specs.Numbering.{numbered_view, limit_of};

use super::fault_at;
use crate::fault::Breach;
use crate::located::{body_in, is_attribute};
use crate::numbered::Numbered;
use at_jrag::{Expr, Form};
use at_kinds::RuleCode;
use at_text::place::Place;

/// How many attributes may be declared.
const MAX_ATTRIBUTES: usize = 2000;

/// How many bytes a text may have.
const MAX_TEXT: usize = 4096;

/// The first attribute that is one too many, or the first text that is too long, whichever comes first.
pub fn over_limit(declared: &[Numbered]) -> Option<Breach>
    ensures { result ≡ over_limit (map numbered_view declared.now) }
{
    let mut left = MAX_ATTRIBUTES;
    for numbered in declared {
        if let Some(fault) = limit_of(left == 0, numbered) {
            return Some(fault);
        }
        if is_attribute(&numbered.decl.form) {
            left -= 1;
        }
    }
    None
}

/// The fault of a declaration, where as many attributes as there may be stand before it, or don't.
fn limit_of(is_full: bool, numbered: &Numbered) -> Option<Breach>
    ensures { result ≡ limit_of is_full (numbered_view numbered.now) }
{
    if is_attribute(&numbered.decl.form) && is_full {
        return Some(fault_at(RuleCode::Limit, numbered, numbered.decl.at));
    }
    let at = long_text_of(numbered)?;
    Some(fault_at(RuleCode::Limit, numbered, at))
}

/// The first text in the declaration's body that is too long.
fn long_text_of(numbered: &Numbered) -> Option<Place>
    ensures { result ≡ option_and_then (λ b. long_text b.expr) (body_in (numbered_view numbered.now).decl.form) }
{
    long_text(&body_in(&numbered.decl.form)?.expr)
}

/// The place of the text, if it is too long.
#[tactic(auto, unfolding(crate::specs::Declaring::max_text))]
fn long_literal(at: Place, text: &str) -> Option<Place>
    ensures { result ≡ long_text (TextLiteral at text.now) }
{
    if text.len() > MAX_TEXT {
        Some(at)
    } else {
        None
    }
}

/// The first text in the expression that is too long.
#[cycle(long)]
fn long_text(expr: &Expr) -> Option<Place>
    ensures { result ≡ long_text (expr_view expr.now) }
{
    match &expr.form {
        Form::Text(text) => long_literal(expr.at, text.as_str()),
        Form::Number(_) | Form::Truth(_) | Form::Null | Form::This | Form::Name(_) => None,
        Form::Call(_, arguments) => long_text_among(arguments),
        Form::CallOf(receiver, _, arguments) => {
            long_text(receiver).or(long_text_among(arguments))
        }
        Form::Paren(inner) | Form::Negate(inner) | Form::Not(inner) => long_text(inner),
        Form::Cast(_, inner) | Form::InstanceOf(inner, _, _) => long_text(inner),
        Form::Binary(_, left, right) => long_text(left).or(long_text(right)),
        Form::Choose(test, _, then, otherwise) => {
            long_text(test).or(long_text(then).or(long_text(otherwise)))
        }
        Form::Fold(_, _, list, body) => long_text(list).or(long_text(body)),
    }
}

#[cycle(long)]
fn long_text_among(arguments: &[Expr]) -> Option<Place>
    ensures { result ≡ long_text_among (to_exprs (map expr_view arguments.now)) }
{
    for argument in arguments {
        if let Some(at) = long_text(argument) {
            return Some(at);
        }
    }
    None
}
