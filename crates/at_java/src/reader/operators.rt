//! Operators with two operands, and `instanceof`.

ghost use Rattle.std.specs.Prelude.{◌≡◌, None, Some, MatchOption, option_map};
ghost use Rattle.at_text.specs.Symbols.{placed};
ghost use Rattle.at_text.specs.Rows.{left};
ghost use Rattle.at_jrag.specs.View.{operator_view};
ghost use Rattle.at_java.specs.Operators.{operator_of, rank, link_of, link_next};
ghost use Rattle.at_java.specs.OperatorView.{link_view};

use super::Reader;
use at_jrag::{Operator, OperatorWord};
use at_text::cursor::is_word;
use at_text::place::Place;
use at_text::placed::Placed;
use at_text::token::TokenKind;

/// The rank of `<` and its like, which is that of `instanceof`.
const RELATIONAL: usize = 3;

/// What follows a left operand.
#[derive(Clone, Copy)]
pub enum Link {
    Operator(OperatorWord),
    InstanceOf(Place),
}

/// The operator that the sign is.
fn operator_of(sign: &str) -> Option<Operator>
    ensures { option_map operator_view result ≡ operator_of sign.now }
{
    match sign.as_bytes() {
        [b'|', b'|'] => Some(Operator::Or),
        [b'&', b'&'] => Some(Operator::And),
        [b'=', b'='] => Some(Operator::Same),
        [b'!', b'='] => Some(Operator::Differs),
        [b'<'] => Some(Operator::Below),
        [b'<', b'='] => Some(Operator::AtMost),
        [b'>'] => Some(Operator::Above),
        [b'>', b'='] => Some(Operator::AtLeast),
        [b'+'] => Some(Operator::Add),
        [b'-'] => Some(Operator::Subtract),
        [b'*'] => Some(Operator::Multiply),
        [b'/'] => Some(Operator::Divide),
        [b'%'] => Some(Operator::Remainder),
        _ => None,
    }
}

/// How strongly the operator holds its operands together: from 1, the strongest, to 6.
fn rank(operator: Operator) -> usize
    ensures { result ≡ rank (operator_view operator) }
{
    match operator {
        Operator::Or => 6,
        Operator::And => 5,
        Operator::Same | Operator::Differs => 4,
        Operator::Below | Operator::AtMost | Operator::Above | Operator::AtLeast => RELATIONAL,
        Operator::Add | Operator::Subtract => 2,
        Operator::Multiply | Operator::Divide | Operator::Remainder => 1,
    }
}

/// What the token is behind a left operand of this rank.
fn link_of(token: &Placed<'_>, at_rank: usize) -> Option<Link>
    ensures { option_map link_view result ≡ link_of at_rank (placed token.now) }
{
    if token.kind == TokenKind::Sign {
        return match operator_of(token.text) {
            Some(operator) if rank(operator) == at_rank => Some(Link::Operator(OperatorWord {
                operator,
                at: token.at,
            })),
            _ => None,
        };
    }
    if at_rank == RELATIONAL && is_word(token, "instanceof") {
        return Some(Link::InstanceOf(token.at));
    }
    None
}

impl<'a> Reader<'a> {
    /// Steps over what goes on behind a left operand of this rank, if that is next.
    #[tactic(auto, unfolding(crate::specs::Operators::link_next))]
    pub fn link(&mut self, at_rank: usize) -> Option<Link>
        ensures { MatchOption result
            ((self.new.cursor ≡ self.old.cursor) × (link_next at_rank (left self.old.cursor.rest.now) ≡ None))
            (λ l. link_next at_rank (left self.old.cursor.rest.now) ≡ Some (link_view l, left self.new.cursor.rest.now)) }
    {
        let [token, rest @ ..] = self.cursor.rest else {
            return None;
        };
        let Some(link) = link_of(token, at_rank) else {
            return None;
        };
        self.cursor.rest = rest;
        Some(link)
    }
}
