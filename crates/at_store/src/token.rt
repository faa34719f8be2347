//! The values of tokens, where they stand.

use at_tree::token::TokVal;
use std::alloc::Global;

/// The value of a token of a node: a text where it stands, and the allocator that copies of it take their memory from; a number or a
/// truth value.
#[derive(Clone, Copy)]
pub enum Token<'a> {
    Str(&'a str, Global),
    Int(i32),
    Bool(bool),
}

impl<'a> Token<'a> {
    ghost use Rattle.std.specs.Prelude.{◌≡◌};
    ghost use Rattle.at_tree.specs.Token.{token_view};
    ghost use Rattle.at_store.specs.Tokens.{lent_view};

    /// The value, lent.
    pub(crate) fn of(value: &'a TokVal) -> Token<'a>
        ensures { lent_view result ≡ token_view value.now }
    {
        match value {
            TokVal::Str(text) => Token::Str(text.as_str(), *text.allocator()),
            TokVal::Short(text, alloc) => Token::Str(text.as_str(), *alloc),
            TokVal::Int(n) => Token::Int(*n),
            TokVal::Bool(b) => Token::Bool(*b),
        }
    }
}
