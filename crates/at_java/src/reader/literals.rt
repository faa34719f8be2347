//! Literals, and what is told by single tokens.

ghost use Rattle.std.specs.Prelude.{◌≡◌, ◌||◌, None, Some, IfOk, IfErr, IfNone, MatchOption, true, false, string_bytes};
ghost use Rattle.std.specs.Str.Parse.{digits_value};
ghost use Rattle.at_text.specs.Symbols.{placed};
ghost use Rattle.at_text.specs.declared.quoted.QuoteFault.TheVariants as fault;
ghost use Rattle.at_text.specs.Rows.{left, is_name_token, next_is};
ghost use Rattle.at_jrag.specs.Grammar.{is_number, is_text, follows_cast, is_opening};
ghost use Rattle.at_jrag.specs.Read.{IsNumber, greatest, signed, opens_cast};
ghost use Rattle.at_jrag.specs.Table.{is_decimal_within, is_number_within, is_quotation, begins_fold};
ghost use Rattle.at_jrag.specs.View.{expr_view, form_view, fold_view, word_view};
ghost use Rattle.at_java.specs.Read.{got, Fails};
ghost use Rattle.at_model.specs.Trees.{Int};
ghost use Rattle.at_tree.specs.Token.{token_view};
ghost use Rattle.at_java.specs.Constants.{integer, quotation, begins_operand, operand_code, ends_argument};
ghost use Rattle.at_java.specs.Operands.{number, text, unquoted, constant, constant_next, called, opens_fold, fold_form, fold_next, sign_next, is_left_out};

use super::forms::leaf;
use super::{Breach, ReadFault, Reader};
use crate::JavaCode;
use at_jrag::{Expr, FoldForm, Form, Word};
use at_text::cursor::{is_name_token, is_sign, is_word};
use at_text::decimal::read_number;
use at_text::names::is_name;
use at_text::place::Place;
use at_text::placed::Placed;
use at_text::quoted::{QuoteFault, read_text};
use at_text::token::TokenKind;
use at_tree::token::TokVal;
use std::alloc::Global;

/// The number that the digits spell, with a minus before them or without.
fn number_of(digits: &str, is_negative: bool) -> Option<i32>
    ensures value { MatchOption result (Unit {0}) (IsNumber is_negative digits.now) }
    ensures none { IfNone result (is_decimal_within (greatest is_negative) digits.now ≡ false) }
{
    let Some(value) = read_number(digits) else {
        return None;
    };
    match i32::try_from(value) {
        Ok(value) => Some(if is_negative { -value } else { value }),
        Err(_) if is_negative && value == 2147483648 => Some(i32::MIN),
        Err(_) => None,
    }
}

/// A number as a token's value.
fn whole(value: i32) -> TokVal
    ensures { token_view result ≡ Int value }
{
    TokVal::Int(value)
}

/// Whether the token is a number.
fn is_number(token: &Placed<'_>) -> bool
    ensures { result ≡ is_number (placed token.now) }
{
    match token.kind {
        TokenKind::Number => true,
        TokenKind::Word => false,
        TokenKind::Text => false,
        TokenKind::Sign => false,
    }
}

/// The number that the token is, with a minus before it or without.
fn number_in(token: &Placed<'_>, is_negative: bool) -> Option<i32>
    ensures { MatchOption result (is_number_within (greatest is_negative) (placed token.now) ≡ false)
        (λ n. (is_number_within (greatest is_negative) (placed token.now) ≡ true) × (n ≡ signed is_negative (digits_value 10 (placed token.now).text))) }
{
    if is_number(token) {
        number_of(token.text, is_negative)
    } else {
        None
    }
}

/// Whether the token is between quotes.
fn is_text(token: &Placed<'_>) -> bool
    ensures { result ≡ is_text (placed token.now) }
{
    match token.kind {
        TokenKind::Text => true,
        TokenKind::Word => false,
        TokenKind::Number => false,
        TokenKind::Sign => false,
    }
}

/// The text that the token quotes.
fn text_in(alloc: Global, token: &Placed<'_>) -> Result<String, QuoteFault>
    ensures found { IfOk result (λ s. (is_quotation (placed token.now) ≡ true) × (string_bytes s ≡ unquoted (placed token.now).text)) }
    ensures refused { IfErr result (λ e. e ≡ fault.Form → is_quotation (placed token.now) ≡ false) }
{
    if is_text(token) {
        read_text(alloc, token.text)
    } else {
        Err(QuoteFault::Form)
    }
}

/// The value that the word is.
fn constant_of(token: &Placed<'_>) -> Option<Form>
    ensures { MatchOption result (constant (placed token.now) ≡ None)
        (λ f. constant (placed token.now) ≡ Some (form_view f token.now.at)) }
{
    if is_word(token, "true") {
        Some(Form::Truth(true))
    } else if is_word(token, "false") {
        Some(Form::Truth(false))
    } else if is_word(token, "null") {
        Some(Form::Null)
    } else if is_word(token, "this") {
        Some(Form::This)
    } else {
        None
    }
}

/// The fold whose word the token is.
fn fold_of(token: &Placed<'_>) -> Option<FoldForm>
    ensures { MatchOption result (begins_fold (placed token.now) ≡ false)
        (λ f. (fold_view f ≡ fold_form (placed token.now)) × (begins_fold (placed token.now) ≡ true)) }
{
    if is_word(token, "exists") {
        Some(FoldForm::Exists)
    } else if is_word(token, "first") {
        Some(FoldForm::First)
    } else if is_word(token, "sum") {
        Some(FoldForm::Sum)
    } else {
        None
    }
}

/// Whether the token may name what is called.
fn may_be_called(token: &Placed<'_>) -> bool
    ensures { result ≡ (is_name_token (placed token.now) || begins_fold (placed token.now)) }
{
    is_name_token(token)
        || is_word(token, "exists")
        || is_word(token, "first")
        || is_word(token, "sum")
}

/// Whether `( NAME :` is next.
fn opens_fold(rest: &[Placed<'_>]) -> bool
    ensures { result ≡ opens_fold (left rest.now) }
{
    match rest {
        [open, name, colon, ..] => {
            is_sign(open, "(") && is_name_token(name) && is_sign(colon, ":")
        }
        _ => false,
    }
}

/// Whether the token is a word with which an operand begins that is left out.
fn is_left_out(token: &Placed<'_>) -> bool
    ensures { result ≡ is_left_out (placed token.now) }
{
    is_word(token, "new") || is_word(token, "super") || is_word(token, "switch")
}

/// Whether an operand begins with the token.
fn begins_operand(token: &Placed<'_>) -> bool
    ensures { result ≡ begins_operand (placed token.now) }
{
    token.kind != TokenKind::Sign
        || is_sign(token, "-")
        || is_sign(token, "!")
        || is_sign(token, "(")
}

/// Whether the token makes a cast of the parentheses with a name that stand before it.
fn follows_cast(token: &Placed<'_>) -> bool
    ensures { result ≡ follows_cast (placed token.now) }
{
    match token.kind {
        TokenKind::Word => is_name(token.text) || is_opening(token.text),
        TokenKind::Sign => token.text == "(",
        TokenKind::Number | TokenKind::Text => false,
    }
}

/// Whether the reserved word may stand behind a cast.
fn is_opening(word: &str) -> bool
    ensures { result ≡ is_opening word.now }
{
    word == "this" || word == "null" || word == "exists" || word == "first" || word == "sum"
}

impl<'a> Reader<'a> {
    /// Steps over the sign, if it is next, and answers its place.
    pub fn takes(&mut self, sign: &str) -> Option<Place>
        ensures { MatchOption result
            ((self.new.cursor ≡ self.old.cursor) × (sign_next sign.now (left self.old.cursor.rest.now) ≡ None))
            (λ at. sign_next sign.now (left self.old.cursor.rest.now) ≡ Some (at, left self.new.cursor.rest.now)) }
    {
        match self.cursor.rest {
            [token, rest @ ..] if is_sign(token, sign) => {
                self.cursor.rest = rest;
                Some(token.at)
            }
            _ => None,
        }
    }

    /// Digits, with a `-` before them or not; the place is that of the first token.
    #[tactic(auto, unfolding(crate::specs::Operands::number))]
    pub fn number(&mut self, is_negative: bool, at: Place) -> Result<Expr, ReadFault>
        ensures found { IfOk result (λ e. number is_negative at (left self.old.cursor.rest.now) ≡ got (expr_view e) (left self.new.cursor.rest.now)) }
        ensures fault { IfErr result (λ e. Fails e (left self.new.cursor.rest.now) (number is_negative at (left self.old.cursor.rest.now))) }
    {
        let [token, rest @ ..] = self.cursor.rest else {
            return Err(ReadFault::For(Breach::Here(JavaCode::Syntax)));
        };
        let Some(value) = number_in(token, is_negative) else {
            return Err(ReadFault::For(Breach::Here(JavaCode::Syntax)));
        };
        self.cursor.rest = rest;
        Ok(leaf(at, Form::Number(value)))
    }

    /// A text between quotes.
    #[tactic(auto, unfolding(crate::specs::Operands::text))]
    pub fn text(&mut self) -> Result<Expr, ReadFault>
        ensures found { IfOk result (λ e. text (left self.old.cursor.rest.now) ≡ got (expr_view e) (left self.new.cursor.rest.now)) }
        ensures fault { IfErr result (λ e. Fails e (left self.new.cursor.rest.now) (text (left self.old.cursor.rest.now))) }
    {
        let [token, rest @ ..] = self.cursor.rest else {
            return Err(ReadFault::For(Breach::Here(JavaCode::Syntax)));
        };
        match text_in(self.alloc, token) {
            Ok(value) => {
                self.cursor.rest = rest;
                Ok(leaf(token.at, Form::Text(value)))
            }
            Err(QuoteFault::Form) => Err(ReadFault::For(Breach::Here(JavaCode::Syntax))),
            Err(QuoteFault::Memory) => Err(ReadFault::Memory),
        }
    }

    /// Digits as a token's value, with a `-` before them or not.
    #[tactic(auto, unfolding(crate::specs::Constants::integer))]
    pub fn integer(&mut self, is_negative: bool) -> Result<TokVal, ReadFault>
        ensures found { IfOk result (λ v. integer is_negative (left self.old.cursor.rest.now) ≡ got (token_view v) (left self.new.cursor.rest.now)) }
        ensures fault { IfErr result (λ e. Fails e (left self.new.cursor.rest.now) (integer is_negative (left self.old.cursor.rest.now))) }
    {
        let [token, rest @ ..] = self.cursor.rest else {
            return Err(ReadFault::For(Breach::Here(JavaCode::Syntax)));
        };
        let Some(value) = number_in(token, is_negative) else {
            return Err(ReadFault::For(Breach::Here(JavaCode::Syntax)));
        };
        self.cursor.rest = rest;
        Ok(whole(value))
    }

    /// A text between quotes as a token's value.
    #[tactic(auto, unfolding(crate::specs::Constants::quotation))]
    pub fn quotation(&mut self) -> Result<TokVal, ReadFault>
        ensures found { IfOk result (λ v. quotation (left self.old.cursor.rest.now) ≡ got (token_view v) (left self.new.cursor.rest.now)) }
        ensures fault { IfErr result (λ e. Fails e (left self.new.cursor.rest.now) (quotation (left self.old.cursor.rest.now))) }
    {
        let [token, rest @ ..] = self.cursor.rest else {
            return Err(ReadFault::For(Breach::Here(JavaCode::Syntax)));
        };
        match text_in(self.alloc, token) {
            Ok(value) => {
                self.cursor.rest = rest;
                Ok(TokVal::of_text(self.alloc, value))
            }
            Err(QuoteFault::Form) => Err(ReadFault::For(Breach::Here(JavaCode::Syntax))),
            Err(QuoteFault::Memory) => Err(ReadFault::Memory),
        }
    }

    /// Steps over a reserved word that is a value, if one is next.
    #[tactic(auto, unfolding(crate::specs::Operands::constant_next))]
    pub fn constant(&mut self) -> Option<Expr>
        ensures { MatchOption result
            ((self.new.cursor ≡ self.old.cursor) × (constant_next (left self.old.cursor.rest.now) ≡ None))
            (λ e. constant_next (left self.old.cursor.rest.now) ≡ Some (expr_view e, left self.new.cursor.rest.now)) }
    {
        let [token, rest @ ..] = self.cursor.rest else {
            return None;
        };
        let Some(form) = constant_of(token) else {
            return None;
        };
        self.cursor.rest = rest;
        Some(leaf(token.at, form))
    }

    /// Steps over the word of a fold, if one is next, and behind it `( NAME :`.
    #[tactic(auto, unfolding(crate::specs::Operands::fold_next))]
    pub fn fold_word(&mut self) -> Option<(Place, FoldForm)>
        ensures { MatchOption result
            ((self.new.cursor ≡ self.old.cursor) × (fold_next (left self.old.cursor.rest.now) ≡ None))
            (λ f. fold_next (left self.old.cursor.rest.now) ≡ Some (f.0, fold_view f.1, left self.new.cursor.rest.now)) }
    {
        let [token, rest @ ..] = self.cursor.rest else {
            return None;
        };
        let Some(form) = fold_of(token) else {
            return None;
        };
        if !opens_fold(rest) {
            return None;
        }
        self.cursor.rest = rest;
        Some((token.at, form))
    }

    /// The name of what is called: a name, or a word of a fold.
    #[tactic(auto, unfolding(crate::specs::Operands::called))]
    pub fn called(&mut self) -> Result<Word, ReadFault>
        ensures found { IfOk result (λ w. called (left self.old.cursor.rest.now) ≡ got (word_view w) (left self.new.cursor.rest.now)) }
        ensures fault { IfErr result (λ e. Fails e (left self.new.cursor.rest.now) (called (left self.old.cursor.rest.now))) }
    {
        match self.cursor.rest {
            [token, rest @ ..] if may_be_called(token) => {
                let text = String::from_str(self.alloc, token.text)?;
                self.cursor.rest = rest;
                Ok(Word { text, at: token.at })
            }
            _ => Err(ReadFault::For(Breach::Here(JavaCode::Syntax))),
        }
    }

    /// Whether a word is next with which an operand begins that is left out.
    pub fn is_before_left_out(&self) -> bool
        ensures { result ≡ next_is is_left_out (left self.now.cursor.rest.now) }
    {
        match self.cursor.rest {
            [token, ..] => is_left_out(token),
            [] => false,
        }
    }

    /// Whether a number is next.
    pub fn is_before_number(&self) -> bool
        ensures { result ≡ next_is is_number (left self.now.cursor.rest.now) }
    {
        match self.cursor.rest {
            [token, ..] => is_number(token),
            [] => false,
        }
    }

    /// Whether a text between quotes is next.
    pub fn is_before_text(&self) -> bool
        ensures { result ≡ next_is is_text (left self.now.cursor.rest.now) }
    {
        match self.cursor.rest {
            [token, ..] => is_text(token),
            [] => false,
        }
    }

    /// Whether what ends an argument is next.
    pub fn ends_argument(&self) -> bool
        ensures { result ≡ next_is ends_argument (left self.now.cursor.rest.now) }
    {
        self.cursor.is_before_sign(",") || self.cursor.is_before_sign(")")
    }

    /// The code where nothing stands that is read here: another operand is left out.
    pub fn operand_code(&self) -> JavaCode
        ensures { result ≡ operand_code (left self.now.cursor.rest.now) }
    {
        match self.cursor.rest {
            [token, ..] if begins_operand(token) => JavaCode::LeftOut,
            _ => JavaCode::Syntax,
        }
    }

    /// Whether `( NAME )` is next, and behind it what makes it a cast.
    pub fn is_at_cast(&self) -> bool
        ensures { result ≡ opens_cast (left self.now.cursor.rest.now) }
    {
        match self.cursor.rest {
            [open, name, close, next, ..] => {
                is_sign(open, "(")
                    && is_name_token(name)
                    && is_sign(close, ")")
                    && follows_cast(next)
            }
            _ => false,
        }
    }
}
