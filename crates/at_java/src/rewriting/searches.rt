//! Loops that search, `for (K name : list) if (test) return value;`: told apart, and as expressions.

ghost use Rattle.std.specs.Prelude.{◌≡◌, IfOk, option_map};
ghost use Rattle.at_jrag.specs.Syntax.{Fold, Binary};
ghost use Rattle.at_jrag.specs.View.{expr_view, form_view, fold_view, operator_view, word_view};
ghost use Rattle.at_java.specs.Refusals.{boxed_view};
ghost use Rattle.at_java.specs.Rewriting.{alone, value_of, search_of, is_empty, is_nothing, leaf_of, Named, whether, found, sought};
ghost use Rattle.at_java.specs.Searching.{search_view, leaf_view, loop_view};
ghost use Rattle.at_java.specs.View.{statement_view};

use super::copying::{copied, plain, with_name};
use crate::written::Statement;
use at_jrag::{Expr, FoldForm, Form, Operator, OperatorWord, Word};
use at_text::place::Place;
use std::alloc::{AllocError, Global};

/// The statement, out of the blocks in which it stands alone.
pub fn alone(statement: &Statement) -> &Statement
    ensures { statement_view result.now ≡ alone (statement_view statement.now) }
{
    match statement {
        Statement::Block(statements) => match statements.as_slice() {
            [only] => alone(only),
            _ => statement,
        },
        _ => statement,
    }
}

/// The value of `return value;`.
pub fn value_of(statement: &Statement) -> Option<&Expr>
    ensures { option_map (λ e. expr_view e.now) result ≡ value_of (statement_view statement.now) }
{
    match statement {
        Statement::Return(_, value) => Some(value),
        _ => None,
    }
}

fn is_empty(statement: &Statement) -> bool
    ensures { result ≡ is_empty (statement_view statement.now) }
{
    match statement {
        Statement::Empty => true,
        _ => false,
    }
}

/// The test and the value of `if (test) return value;`.
#[derive(Clone, Copy)]
pub struct Search<'a> {
    pub test: &'a Expr,
    pub value: &'a Expr,
}

/// The search that the body of a loop is, perhaps in blocks.
pub fn search_of(statement: &Statement) -> Option<Search>
    ensures { option_map search_view result ≡ search_of (alone (statement_view statement.now)) }
{
    let Statement::If(_, test, then, other) = alone(statement) else {
        return None;
    };
    if !is_empty(other) {
        return None;
    }
    let value = value_of(alone(then))?;
    Some(Search { test, value })
}

/// A literal or a name by which loops are told apart, or another expression.
#[derive(Clone, Copy)]
pub enum Leaf<'a> {
    Truth(bool),
    Null,
    Name(&'a str),
    Other,
}

fn leaf_of(expr: &Expr) -> Leaf
    ensures { leaf_view result ≡ leaf_of (expr_view expr.now) }
{
    match &expr.form {
        Form::Truth(truth) => Leaf::Truth(*truth),
        Form::Null => Leaf::Null,
        Form::Name(name) => Leaf::Name(name.as_str()),
        _ => Leaf::Other,
    }
}

fn is_null(expr: &Expr) -> bool
    ensures { result ≡ is_nothing (leaf_of (expr_view expr.now)) }
{
    match leaf_of(expr) {
        Leaf::Null => true,
        _ => false,
    }
}

/// A loop that searches. All that is made of it stands at its place.
#[derive(Clone, Copy)]
pub struct Loop<'a> {
    pub alloc: Global,
    pub at: Place,
    pub name: &'a Word,
    pub list: &'a Expr,
    pub test: &'a Expr,
}

impl Loop<'_> {
    /// A form at the place of the loop.
    fn boxed(&self, form: Form) -> Result<Box<Expr>, AllocError>
        ensures { IfOk result (λ b. boxed_view b ≡ form_view form self.now.at) }
    {
        let at = self.at;
        Ok(Box::new(self.alloc, Expr { at, form })?)
    }

    /// What is asked of the list.
    fn fold(&self, form: FoldForm) -> Result<Box<Expr>, AllocError>
        ensures { IfOk result (λ b. boxed_view b
            ≡ Fold self.now.at (fold_view form) (word_view self.now.name.now) (expr_view self.now.list.now) (expr_view self.now.test.now)) }
    {
        let name = plain(self.alloc).word(self.name)?;
        let list = copied(self.alloc, self.list)?;
        let test = copied(self.alloc, self.test)?;
        self.boxed(Form::Fold(form, name, list, test))
    }

    /// `left OPERATOR right`
    fn joined(
        &self,
        left: Box<Expr>,
        operator: Operator,
        right: Box<Expr>,
    ) -> Result<Box<Expr>, AllocError>
        ensures { IfOk result (λ b. boxed_view b ≡ Binary self.now.at (operator_view operator) self.now.at (boxed_view left) (boxed_view right)) }
    {
        let word = OperatorWord {
            operator,
            at: self.at,
        };
        self.boxed(Form::Binary(word, left, right))
    }

    /// Where the value is `true` or `false`.
    fn whether(&self, truth: bool, rest: Box<Expr>) -> Result<Box<Expr>, AllocError>
        ensures { IfOk result (λ b. boxed_view b ≡ whether (loop_view self.now) truth (boxed_view rest)) }
    {
        let some = self.fold(FoldForm::Exists)?;
        if truth {
            return self.joined(some, Operator::Or, rest);
        }
        let none = self.boxed(Form::Not(some))?;
        self.joined(none, Operator::And, rest)
    }

    /// Where the value is another.
    fn found(&self, value: &Expr, rest: Box<Expr>) -> Result<Box<Expr>, AllocError>
        ensures { IfOk result (λ b. boxed_view b ≡ found (loop_view self.now) (expr_view value.now) (boxed_view rest)) }
    {
        let some = self.fold(FoldForm::Exists)?;
        let first = self.fold(FoldForm::First)?;
        let value = with_name(self.alloc, self.name.text.as_str(), &first, value)?;
        self.boxed(Form::Choose(some, self.at, value, rest))
    }

    /// Where the value is a name.
    fn named(&self, name: &str, value: &Expr, rest: Box<Expr>) -> Result<Box<Expr>, AllocError>
        ensures { IfOk result (λ b. boxed_view b ≡ sought (loop_view self.now) (Named name.now) (expr_view value.now) (boxed_view rest)) }
    {
        if name != self.name.text.as_str() {
            return self.found(value, rest);
        }
        if !is_null(&rest) {
            return self.found(value, rest);
        }
        self.fold(FoldForm::First)
    }

    /// The loop in front of the rest.
    pub fn sought(&self, value: &Expr, rest: Box<Expr>) -> Result<Box<Expr>, AllocError>
        ensures { IfOk result (λ b. boxed_view b ≡ sought (loop_view self.now) (leaf_of (expr_view value.now)) (expr_view value.now) (boxed_view rest)) }
    {
        match leaf_of(value) {
            Leaf::Truth(truth) => self.whether(truth, rest),
            Leaf::Name(name) => self.named(name, value, rest),
            Leaf::Null => self.found(value, rest),
            Leaf::Other => self.found(value, rest),
        }
    }
}
