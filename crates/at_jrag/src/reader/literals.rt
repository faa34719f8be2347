//! Literals, and what they are read from.

ghost use Rattle.std.specs.Prelude.{◌≡◌, ◌∷◌, List, IfOk, IfErr, IfNone, MatchOption, true, false};
ghost use Rattle.at_jrag.specs.Syntax as syntax;
ghost use Rattle.at_jrag.specs.View.{expr_view};
ghost use Rattle.at_text.specs.Rows.{Row, left, word, next_is};
ghost use Rattle.at_jrag.specs.Grammar.{number, quotation};
ghost use Rattle.at_jrag.specs.Table.{is_decimal_within, is_quoted};
ghost use Rattle.at_jrag.specs.Runs.{NoText, NoLiteral, NoNegative, TakesNegative};
ghost use Rattle.at_text.specs.declared.fault.Failure.TheVariants as failure;
ghost use Rattle.at_jrag.specs.declared.JragCode.TheVariants as code;
ghost use Rattle.at_jrag.specs.Read.{IsNumber, greatest, opens_negative, is_constant, is_literal, Reads};

use super::forms::{Measured, leaf};
use super::{ReadFault, Reader};
use crate::JragCode;
use crate::syntax::Form;
use at_text::cursor::is_sign;
use at_text::decimal::read_number;
use at_text::place::Place;
use at_text::quoted::{QuoteFault, read_text};
use at_text::token::TokenKind;

/// The number that the digits spell, with a minus before them or without.
pub fn number(digits: &str, is_negative: bool) -> Option<i32>
    ensures value { MatchOption result (Unit {0}) (IsNumber is_negative digits.now) }
    ensures none { IfNone result (is_decimal_within (greatest is_negative) digits.now ≡ false) }
{
    let Some(value) = read_number(digits) else {
        return None;
    };
    match i32::try_from(value) {
        Ok(value) => Some(if is_negative { -value } else { value }),
        Err(_) if is_negative && value == 2147483648 => Some(i32::MIN),
        Err(_) => None,
    }
}

/// The literal that the reserved word is.
fn constant(at: Place, text: &str) -> Option<Measured>
    ensures { MatchOption result (is_constant text.now ≡ false)
        (λ m. ((rest : Row) → Reads 8 m (word text.now at ∷ rest) rest) × (m.depth ≡ 1) × (is_constant text.now ≡ true)) }
{
    if text == "true" {
        Some(leaf(at, Form::Truth(true)))
    } else if text == "false" {
        Some(leaf(at, Form::Truth(false)))
    } else if text == "null" {
        Some(leaf(at, Form::Null))
    } else if text == "this" {
        Some(leaf(at, Form::This))
    } else {
        None
    }
}

impl<'a> Reader<'a> {
    /// A number that has a `-` before it, where both are next.
    pub fn negative(&mut self) -> Result<Option<Measured>, ReadFault>
        ensures found { IfOk result (λ o. MatchOption o
            ((self.new.cursor ≡ self.old.cursor) × (opens_negative (left self.old.cursor.rest.now) ≡ false))
            (λ m. Reads 8 m (left self.old.cursor.rest.now) (left self.new.cursor.rest.now) × (m.depth ≡ 1))) }
        ensures taken { IfOk result (λ o. MatchOption o (Unit {0}) (λ m. TakesNegative (left self.old.cursor.rest.now) (left self.new.cursor.rest.now))) }
        ensures refused { IfErr result (λ e. NoNegative e (left self.old.cursor.rest.now) (left self.new.cursor.rest.now)) }
    {
        match self.cursor.rest {
            [minus, digits, rest @ ..] if is_sign(minus, "-") && digits.kind == TokenKind::Number =>
                {
                    self.cursor.advance();
                    let Some(value) = number(digits.text, true) else {
                        return Err(ReadFault::For(JragCode::Syntax));
                    };
                    self.cursor.rest = rest;
                    Ok(Some(leaf(minus.at, Form::Number(value))))
                }
            _ => Ok(None),
        }
    }

    /// A literal, if one is next: a number, a text, or a reserved word that is one.
    pub fn literal(&mut self) -> Result<Option<Measured>, ReadFault>
        ensures found { IfOk result (λ o. MatchOption o
            ((self.new.cursor ≡ self.old.cursor) × (next_is is_literal (left self.old.cursor.rest.now) ≡ false))
            (λ m. Reads 8 m (left self.old.cursor.rest.now) (left self.new.cursor.rest.now) × (m.depth ≡ 1)
            × (next_is is_literal (left self.old.cursor.rest.now) ≡ true))) }
        ensures refused { IfErr result (λ e. NoLiteral e (left self.old.cursor.rest.now) (left self.new.cursor.rest.now)) }
    {
        let Some(token) = self.cursor.peek() else {
            return Ok(None);
        };
        match token.kind {
            TokenKind::Number => {
                let number = self.digits(token.at, token.text)?;
                self.cursor.advance();
                Ok(Some(number))
            }
            TokenKind::Text => {
                let text = self.text(token.at, token.text)?;
                self.cursor.advance();
                Ok(Some(text))
            }
            TokenKind::Word => match constant(token.at, token.text) {
                Some(constant) => {
                    self.cursor.advance();
                    Ok(Some(constant))
                }
                None => Ok(None),
            },
            TokenKind::Sign => Ok(None),
        }
    }

    /// The number that these digits are.
    fn digits(&self, at: Place, digits: &str) -> Result<Measured, ReadFault>
        ensures found { IfOk result (λ m. ((rest : Row) → Reads 8 m (number digits.now at ∷ rest) rest) × (m.depth ≡ 1)) }
        ensures refused { IfErr result (λ e. (e ≡ failure.For code.Syntax) × (is_decimal_within 2147483647 digits.now ≡ false)) }
    {
        match number(digits, false) {
            Some(value) => Ok(leaf(at, Form::Number(value))),
            None => Err(ReadFault::For(JragCode::Syntax)),
        }
    }

    /// The text of this spelling.
    pub fn text(&self, at: Place, spelling: &str) -> Result<Measured, ReadFault>
        ensures found { IfOk result (λ m. ((rest : Row) → Reads 8 m (quotation spelling.now at ∷ rest) rest) × (m.depth ≡ 1)) }
        ensures spelled { IfOk result (λ m. is_quoted spelling.now ≡ true) }
        ensures refused { IfErr result (NoText spelling.now) }
    {
        match read_text(self.alloc, spelling) {
            Ok(value) => Ok(leaf(at, Form::Text(value))),
            Err(QuoteFault::Form) => Err(ReadFault::For(JragCode::Syntax)),
            Err(QuoteFault::Memory) => Err(ReadFault::Memory),
        }
    }
}
