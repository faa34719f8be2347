//! A cursor over tokens, on which readers stand.

ghost use Rattle.std.specs.Prelude.{◌≡◌, [], ◌∷◌, length, MatchOption, true, false};
ghost use Rattle.at_model.specs.Names.{is_name};
ghost use Rattle.at_text.specs.Symbols.{PlacedToken, placed};
ghost use Rattle.at_text.specs.Rows.{Row, left, sign, word, is_sign, is_word, is_name_token, next_is};

use crate::names::is_name;
use crate::place::Place;
use crate::placed::Placed;
use crate::token::TokenKind;

/// Whether the token is this sign.
pub fn is_sign(token: &Placed<'_>, text: &str) -> bool
    ensures value { result ≡ is_sign text.now (placed token.now) }
    ensures same { result ≡ true → placed token.now ≡ sign text.now token.now.at }
{
    token.kind == TokenKind::Sign && token.text == text
}

/// Whether the token is this word.
pub fn is_word(token: &Placed<'_>, text: &str) -> bool
    ensures value { result ≡ is_word text.now (placed token.now) }
    ensures same { result ≡ true → placed token.now ≡ word text.now token.now.at }
{
    token.kind == TokenKind::Word && token.text == text
}

/// Whether the token is a name.
pub fn is_name_token(token: &Placed<'_>) -> bool
    ensures value { result ≡ is_name_token (placed token.now) }
    ensures same { result ≡ true → (placed token.now ≡ word token.now.text.now token.now.at) × (is_name token.now.text.now ≡ true) }
{
    token.kind == TokenKind::Word && is_name(token.text)
}

/// A cursor over tokens. It stands before those that are left.
#[derive(Drop)]
pub struct Cursor<'a> {
    pub rest: &'a [Placed<'a>],
}

impl<'a> Cursor<'a> {
    /// A cursor before the first token.
    pub fn new(tokens: &'a [Placed<'a>]) -> Cursor<'a>
        ensures { result.rest.now ≡ tokens.now }
    {
        Cursor { rest: tokens }
    }

    /// How many tokens are left.
    pub fn count_left(&self) -> usize
        ensures { result ≡ length self.now.rest.now }
    {
        self.rest.len()
    }

    /// The next token.
    pub fn peek(&self) -> Option<&'a Placed<'a>>
        ensures { MatchOption result (left self.now.rest.now ≡ []) (λ t. (rest : Row) × (left self.now.rest.now ≡ placed t.now ∷ rest)) }
    {
        match self.rest {
            [token, ..] => Some(token),
            [] => None,
        }
    }

    /// Steps over the next token, if there is one.
    pub fn advance(&mut self)
        ensures { (t : PlacedToken) (ts : Row) → left self.old.rest.now ≡ t ∷ ts → left self.new.rest.now ≡ ts }
    {
        if let [_, rest @ ..] = self.rest {
            self.rest = rest;
        }
    }

    /// Whether the sign is next.
    pub fn is_before_sign(&self, text: &str) -> bool
        ensures { result ≡ next_is (is_sign text.now) (left self.now.rest.now) }
    {
        match self.rest {
            [token, ..] => is_sign(token, text),
            [] => false,
        }
    }

    /// Whether the word is next.
    pub fn is_before_word(&self, text: &str) -> bool
        ensures { result ≡ next_is (is_word text.now) (left self.now.rest.now) }
    {
        match self.rest {
            [token, ..] => is_word(token, text),
            [] => false,
        }
    }

    /// Steps over the sign, if it is next, and answers its place.
    pub fn takes_sign(&mut self, text: &str) -> Option<Place>
        ensures { MatchOption result
            ((self.new ≡ self.old) × (next_is (is_sign text.now) (left self.old.rest.now) ≡ false))
            (λ at. left self.old.rest.now ≡ sign text.now at ∷ left self.new.rest.now) }
    {
        match self.rest {
            [token, rest @ ..] if is_sign(token, text) => {
                self.rest = rest;
                Some(token.at)
            }
            _ => None,
        }
    }

    /// Steps over the word, if it is next, and answers its place.
    pub fn takes_word(&mut self, text: &str) -> Option<Place>
        ensures { MatchOption result
            ((self.new ≡ self.old) × (next_is (is_word text.now) (left self.old.rest.now) ≡ false))
            (λ at. left self.old.rest.now ≡ word text.now at ∷ left self.new.rest.now) }
    {
        match self.rest {
            [token, rest @ ..] if is_word(token, text) => {
                self.rest = rest;
                Some(token.at)
            }
            _ => None,
        }
    }

    /// Steps over a name, if one is next.
    pub fn takes_name(&mut self) -> Option<&'a Placed<'a>>
        ensures { MatchOption result
            ((self.new ≡ self.old) × (next_is is_name_token (left self.old.rest.now) ≡ false))
            (λ t. (left self.old.rest.now ≡ word t.now.text.now t.now.at ∷ left self.new.rest.now)
            × (is_name t.now.text.now ≡ true)) }
    {
        match self.rest {
            [token, rest @ ..] if is_name_token(token) => {
                self.rest = rest;
                Some(token)
            }
            _ => None,
        }
    }
}
