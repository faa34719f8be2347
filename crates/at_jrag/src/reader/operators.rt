//! What stands between, before and behind the parts of an expression.

ghost use Rattle.std.specs.Prelude.{◌≡◌, ◌∷◌, ◌<◌, ◌≤◌, ◌+◌, ◌||◌, IfOk, IfErr, IfNone, MatchOption, true, false, cond, ◌⊎◌};
ghost use Rattle.at_model.specs.Names.{is_name};
ghost use Rattle.at_text.specs.Reading.{first};
ghost use Rattle.at_jrag.specs.Table.{next_rank, link_rank, sign_rank, begins_fold, opens_unary};
ghost use Rattle.at_text.specs.declared.fault.Failure.TheVariants as failure;
ghost use Rattle.at_jrag.specs.declared.JragCode.TheVariants as code;
ghost use lib.Chars.{codes};
ghost use Rattle.at_text.specs.Symbols.{placed};
ghost use Rattle.at_jrag.specs.View.{operator_view, fold_view};
ghost use Rattle.at_text.specs.Rows.{Row, left, sign, word, is_sign, is_word, next_is};
ghost use Rattle.at_jrag.specs.Grammar.{is_text, operator_text, operator_level, fold_text, follows_cast, is_opening, begins_other};
ghost use Rattle.at_jrag.specs.Read.{LinkIs, LinksTo, opens_negative, opens_cast, is_constant, StandsBefore, NestsWithin};

use super::literals::number;
use super::{ReadFault, Reader};
use crate::JragCode;
use crate::syntax::{FoldForm, Operator, OperatorWord, Word};
use at_text::cursor::{is_name_token, is_sign, is_word};
use at_text::names::is_name;
use at_text::place::Place;
use at_text::placed::Placed;
use at_text::token::TokenKind;

/// The level of `<` and its like, which is that of `instanceof`.
const RELATIONAL: usize = 4;

/// The level of what holds its parts together more than any operator between two.
pub const UNARY: usize = 7;

/// What follows a left operand.
#[derive(Clone, Copy)]
pub enum Link {
    Operator(OperatorWord),
    InstanceOf(Place),
}

/// What stands before its operand.
#[derive(Drop)]
pub enum Prefix {
    Not,
    Minus,
    Cast(Word),
}

/// The operator that the sign is, and its level.
fn operator_of(sign: &str) -> Option<(Operator, usize)>
    ensures { MatchOption result (sign_rank sign.now ≡ 0) (λ o. (sign.now ≡ operator_text (operator_view o.0)) × (o.1 ≡ operator_level (operator_view o.0))
        × (sign_rank sign.now + o.1 ≡ 7)) }
{
    match sign.as_bytes() {
        [b'|', b'|'] => Some((Operator::Or, 1)),
        [b'&', b'&'] => Some((Operator::And, 2)),
        [b'=', b'='] => Some((Operator::Same, 3)),
        [b'!', b'='] => Some((Operator::Differs, 3)),
        [b'<'] => Some((Operator::Below, RELATIONAL)),
        [b'<', b'='] => Some((Operator::AtMost, RELATIONAL)),
        [b'>'] => Some((Operator::Above, RELATIONAL)),
        [b'>', b'='] => Some((Operator::AtLeast, RELATIONAL)),
        [b'+'] => Some((Operator::Add, 5)),
        [b'-'] => Some((Operator::Subtract, 5)),
        [b'*'] => Some((Operator::Multiply, 6)),
        [b'/'] => Some((Operator::Divide, 6)),
        [b'%'] => Some((Operator::Remainder, 6)),
        _ => None,
    }
}

/// What the token is behind a left operand of this level.
fn link_of(token: &Placed<'_>, level: usize) -> Option<Link>
    requires { level < 7 }
    ensures { MatchOption result (link_rank (placed token.now) + level ≡ 7 → ⊥) (λ l. LinkIs level l (placed token.now)
        × (link_rank (placed token.now) + level ≡ 7)) }
{
    if level == RELATIONAL && is_word(token, "instanceof") {
        return Some(Link::InstanceOf(token.at));
    }
    if token.kind != TokenKind::Sign {
        return None;
    }
    match operator_of(token.text) {
        Some((operator, its)) if its == level => Some(Link::Operator(OperatorWord {
            operator,
            at: token.at,
        })),
        _ => None,
    }
}

/// The level of what stands behind an operator of this level: operators of one level lean left.
pub fn right_level(level: usize) -> usize
    requires { level < 7 }
    ensures { result ≡ level + 1 }
{
    level + 1
}

/// The fold that the token begins.
fn fold_of(token: &Placed<'_>) -> Option<FoldForm>
    ensures { MatchOption result (begins_fold (placed token.now) ≡ false) (λ f. (placed token.now ≡ word (fold_text (fold_view f)) token.now.at)
        × (begins_fold (placed token.now) ≡ true)) }
{
    if is_word(token, "exists") {
        Some(FoldForm::Exists)
    } else if is_word(token, "first") {
        Some(FoldForm::First)
    } else if is_word(token, "sum") {
        Some(FoldForm::Sum)
    } else {
        None
    }
}

/// Whether the language has expressions that begin with the token, which is no text.
fn opens_expression(token: &Placed<'_>) -> bool
    requires { is_text (placed token.now) ≡ false }
    ensures { result ≡ opens_unary (placed token.now) }
{
    match token.kind {
        TokenKind::Number => number(token.text, false).is_some(),
        TokenKind::Text => false,
        TokenKind::Sign => token.text == "(" || token.text == "-" || token.text == "!",
        TokenKind::Word => opens_with_word(token.text),
    }
}

/// Whether the language has expressions that begin with the word.
fn opens_with_word(word: &str) -> bool
    ensures { result ≡ (is_name word.now || is_constant word.now || is_opening word.now) }
{
    is_name(word) || word == "true" || word == "false" || is_opening(word)
}

/// Whether the reserved word may stand behind a cast.
fn is_opening(word: &str) -> bool
    ensures { result ≡ is_opening word.now }
{
    word == "this" || word == "null" || word == "exists" || word == "first" || word == "sum"
}

/// Whether the token makes a cast of the parentheses with a name that stand before it.
fn follows_cast(token: &Placed<'_>) -> bool
    ensures { result ≡ follows_cast (placed token.now) }
{
    match token.kind {
        TokenKind::Word => is_name(token.text) || is_opening(token.text),
        TokenKind::Sign => token.text == "(",
        TokenKind::Number | TokenKind::Text => false,
    }
}

/// Whether an expression that is neither `true` nor `false` may begin with the token.
pub fn begins_other(token: &Placed<'_>) -> bool
    ensures { result ≡ begins_other (placed token.now) }
{
    match token.kind {
        TokenKind::Number | TokenKind::Text => true,
        TokenKind::Sign => token.text == "-" || token.text == "!" || token.text == "(",
        TokenKind::Word => is_name(token.text) || is_opening(token.text),
    }
}

impl<'a> Reader<'a> {
    /// Steps over the sign, if it is next, where a part of this depth may stand in a form of this nesting.
    pub fn takes_within(
        &mut self,
        text: &str,
        depth: usize,
        budget: usize,
    ) -> Result<Option<Place>, ReadFault>
        ensures found { IfOk result (λ o. MatchOption o
            ((self.new.cursor ≡ self.old.cursor) × (next_is (is_sign text.now) (left self.old.cursor.rest.now) ≡ false))
            (λ at. (left self.old.cursor.rest.now ≡ sign text.now at ∷ left self.new.cursor.rest.now) × (depth < budget))) }
        ensures refused { IfErr result (λ e. (e ≡ failure.For code.Nesting) × (self.new.cursor ≡ self.old.cursor)
            × (next_is (is_sign text.now) (left self.old.cursor.rest.now) ≡ true) × (budget ≤ depth)) }
    {
        if self.cursor.is_before_sign(text) && budget <= depth {
            return Err(ReadFault::For(JragCode::Nesting));
        }
        Ok(self.cursor.takes_sign(text))
    }

    /// Steps over what goes on behind a left operand of this level and depth, if that is next.
    pub fn link(
        &mut self,
        level: usize,
        depth: usize,
        budget: usize,
    ) -> Result<Option<Link>, ReadFault>
        requires level { level < 7 }
        ensures found { IfOk result (λ o. MatchOption o (self.new.cursor ≡ self.old.cursor)
            (λ l. (depth < budget) × LinksTo level l (left self.old.cursor.rest.now) (left self.new.cursor.rest.now))) }
        ensures none { IfOk result (λ o. IfNone o (next_rank (first (left self.old.cursor.rest.now)) + level ≡ 7 → ⊥)) }
        ensures refused { IfErr result (λ e. (e ≡ failure.For code.Nesting) × (self.new.cursor ≡ self.old.cursor) × (budget ≤ depth)
            × (next_rank (first (left self.old.cursor.rest.now)) + level ≡ 7)) }
    {
        let link = match self.cursor.rest {
            [token, ..] => link_of(token, level),
            [] => None,
        };
        if link.is_none() {
            return Ok(None);
        }
        if budget <= depth {
            return Err(ReadFault::For(JragCode::Nesting));
        }
        self.cursor.advance();
        Ok(link)
    }

    /// The fault where no expression may nest any more.
    pub fn too_deep(&self) -> ReadFault
        ensures { (result ≡ failure.Memory)
            ⊎ (result ≡ cond (next_is opens_unary (left self.now.cursor.rest.now)) (failure.For code.Nesting) (failure.For code.Syntax)) }
    {
        let [token, ..] = self.cursor.rest else {
            return ReadFault::For(JragCode::Syntax);
        };
        if token.kind == TokenKind::Text {
            return match self.text(token.at, token.text) {
                Ok(_) => ReadFault::For(JragCode::Nesting),
                Err(e) => e,
            };
        }
        if opens_expression(token) {
            ReadFault::For(JragCode::Nesting)
        } else {
            ReadFault::For(JragCode::Syntax)
        }
    }

    /// Steps over the word that begins a fold, if one is next.
    pub fn fold_word(&mut self, budget: usize) -> Result<Option<(Place, FoldForm)>, ReadFault>
        ensures found { IfOk result (λ o. MatchOption o (self.new.cursor ≡ self.old.cursor)
            (λ f. (1 < budget) × (left self.old.cursor.rest.now ≡ word (fold_text (fold_view f.1)) f.0 ∷ left self.new.cursor.rest.now))) }
        ensures none { IfOk result (λ o. IfNone o (next_is begins_fold (left self.old.cursor.rest.now) ≡ false)) }
        ensures refused { IfErr result (λ e. (e ≡ failure.For code.Nesting) × (self.new.cursor ≡ self.old.cursor) × (budget ≤ 1)
            × (next_is begins_fold (left self.old.cursor.rest.now) ≡ true)) }
    {
        let [token, ..] = self.cursor.rest else {
            return Ok(None);
        };
        let Some(form) = fold_of(token) else {
            return Ok(None);
        };
        if budget <= 1 {
            return Err(ReadFault::For(JragCode::Nesting));
        }
        self.cursor.advance();
        Ok(Some((token.at, form)))
    }

    /// Whether `( NAME )` is next, and behind it what makes it a cast.
    fn is_at_cast(&self) -> bool
        ensures { result ≡ opens_cast (left self.now.cursor.rest.now) }
    {
        match self.cursor.rest {
            [open, name, close, next, ..] => {
                is_sign(open, "(")
                    && is_name_token(name)
                    && is_sign(close, ")")
                    && follows_cast(next)
            }
            _ => false,
        }
    }

    /// `( NAME )`
    fn cast(&mut self) -> Result<(Place, Prefix), ReadFault>
        requires { opens_cast (left self.now.cursor.rest.now) ≡ true }
        ensures found { IfOk result (λ p. StandsBefore p.1 p.0 (left self.old.cursor.rest.now) (left self.new.cursor.rest.now)) }
        ensures refused { IfErr result (λ e. e ≡ failure.Memory) }
    {
        let at = self.expects("(")?;
        let class = self.name()?;
        self.expects(")")?;
        Ok((at, Prefix::Cast(class)))
    }

    /// What stands before an operand, if that is next: `!`, `-`, or the class of a cast.
    pub fn prefix(&mut self, budget: usize) -> Result<Option<(Place, Prefix)>, ReadFault>
        requires { opens_negative (left self.now.cursor.rest.now) ≡ false }
        ensures found { IfOk result (λ o. MatchOption o
            ((self.new.cursor ≡ self.old.cursor) × (next_is (is_sign (codes "-")) (left self.old.cursor.rest.now) ≡ false))
            (λ p. StandsBefore p.1 p.0 (left self.old.cursor.rest.now) (left self.new.cursor.rest.now))) }
        ensures within { IfOk result (λ o. MatchOption o (Unit {0}) (λ p. NestsWithin p.1 budget)) }
        ensures none { IfOk result (λ o. IfNone o ((next_is (is_sign (codes "!")) (left self.old.cursor.rest.now) ≡ false)
            × (opens_cast (left self.old.cursor.rest.now) ≡ false))) }
        ensures refused { IfErr result (λ e. (e ≡ failure.Memory) ⊎ ((e ≡ failure.For code.Nesting) × (self.new.cursor ≡ self.old.cursor) × (budget ≤ 1)
            × ((next_is (is_sign (codes "!")) (left self.old.cursor.rest.now) ≡ true) ⊎ (opens_cast (left self.old.cursor.rest.now) ≡ true)))) }
    {
        if let Some(at) = self.cursor.takes_sign("-") {
            return Ok(Some((at, Prefix::Minus)));
        }
        if let Some(at) = self.takes_within("!", 1, budget)? {
            return Ok(Some((at, Prefix::Not)));
        }
        if !self.is_at_cast() {
            return Ok(None);
        }
        if budget <= 1 {
            return Err(ReadFault::For(JragCode::Nesting));
        }
        Ok(Some(self.cast()?))
    }
}
