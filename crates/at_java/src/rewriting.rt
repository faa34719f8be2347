//! Bodies of statements, rewritten to the expressions that they mean (Java Language Specification 14.9, 14.14, 14.17).

ghost use Rattle.std.specs.Prelude.{◌≡◌, ◌||◌, map, IfOk, IfErr};
ghost use Rattle.at_jrag.specs.View.{expr_view, word_view};
ghost use Rattle.at_java.specs.Refusals.{Tells};
ghost use Rattle.at_java.specs.Rests.{rest_view, rest_meant};
ghost use Rattle.at_java.specs.Rewriting.{IsRefusal, Means, any_returns, if_meant, loop, meaning, meaning_all, returns, rewritten, search_of, searched, alone, within};
ghost use Rattle.at_java.specs.Searching.{loop_view};
ghost use Rattle.at_java.specs.View.{statement_view};
ghost use Rattle.at_java.specs.Written.{to_statements};

mod copying;
mod counting;
mod rests;
mod searches;

use crate::JavaCode;
use crate::reader::ReadFault;
use crate::written::Statement;
use at_jrag::{Expr, Word};
use at_text::place::Place;
use copying::copied;
pub use copying::copy_of;
use counting::has_fold;
use rests::{Rest, chosen, refused, within};
use searches::{Loop, alone, search_of, value_of};
use std::alloc::{AllocError, Global};

/// The expression that the body means, whose closing brace is at `end`. `if` and loops that search become `?:`, `||`, `&&` and
/// folds, in front of what the statements behind them mean.
///
/// # Errors
///
/// The statements are gone through from the last to the first, of an `if` what is behind `else` before what is in front of it;
/// the first fault on that way is told. `LeftOut` at an `if` in which no `return` stands, and at a loop that isn't
/// `for (K y : L) if (c) return e;`, or whose `e` has a fold. `Limit` at the statement where the expression comes to have more
/// than 4,096 forms. `NoValue` at `end` where that can be reached. Or want of memory.
pub fn rewritten(alloc: Global, statements: &[Statement], end: Place) -> Result<Expr, ReadFault>
    ensures found { IfOk result (λ e. rewritten end (to_statements (map statement_view statements.now)) ≡ Means (expr_view e)) }
    ensures fault { IfErr result (λ e. IsRefusal e (rewritten end (to_statements (map statement_view statements.now)))) }
{
    let rewriter = Rewriter { alloc };
    rewriter.statements(statements, Rest::end())?.closed(end)
}

/// Whether a `return` stands in the statement.
#[cycle(returns)]
fn returns(statement: &Statement) -> bool
    ensures { result ≡ returns (statement_view statement.now) }
{
    match statement {
        Statement::Return(_, _) => true,
        Statement::If(_, _, then, other) => returns(then) || returns(other),
        Statement::Each(_, _, _, _, body) => returns(body),
        Statement::Block(statements) => any_returns(statements),
        Statement::Empty => false,
    }
}

#[cycle(returns)]
fn any_returns(statements: &[Statement]) -> bool
    ensures { result ≡ any_returns (to_statements (map statement_view statements.now)) }
{
    for statement in statements {
        if returns(statement) {
            return true;
        }
    }
    false
}

/// Whether a `return` stands in one of the ways of an `if`.
fn has_return(then: &Statement, other: &Statement) -> bool
    ensures { result ≡ (returns (statement_view then.now) || returns (statement_view other.now)) }
{
    returns(then) || returns(other)
}

/// What goes through statements.
#[derive(Clone, Copy)]
struct Rewriter {
    alloc: Global,
}

impl Rewriter {
    /// What the statements mean, in front of the rest.
    #[cycle(meaning)]
    fn statements(self, statements: &[Statement], rest: Rest) -> Result<Rest, ReadFault>
        ensures { Tells rest_meant (meaning_all (to_statements (map statement_view statements.now)) (rest_view rest)) result }
    {
        let mut rest = rest;
        let mut left = statements.len();
        while left > 0 {
            left -= 1;
            rest = self.statement(&statements[left], rest)?;
        }
        Ok(rest)
    }

    /// What the statement means, in front of the rest.
    #[cycle(meaning)]
    fn statement(self, statement: &Statement, rest: Rest) -> Result<Rest, ReadFault>
        ensures { Tells rest_meant (meaning (statement_view statement.now) (rest_view rest)) result }
    {
        match statement {
            Statement::Return(at, value) => self.value(*at, value),
            Statement::If(at, condition, then, other) => {
                self.ways(*at, condition, then, other, rest)
            }
            Statement::Each(at, _, name, list, body) => self.each(*at, name, list, body, rest),
            Statement::Block(statements) => self.statements(statements, rest),
            Statement::Empty => Ok(rest),
        }
    }

    /// What an `if` means, in front of the rest.
    #[cycle(meaning)]
    fn ways(
        self,
        at: Place,
        condition: &Expr,
        then: &Statement,
        other: &Statement,
        rest: Rest,
    ) -> Result<Rest, ReadFault>
        ensures { Tells rest_meant (if_meant at (expr_view condition.now)
            (returns (statement_view then.now) || returns (statement_view other.now))
            (meaning (statement_view then.now) (rest_view rest)) (meaning (statement_view other.now) (rest_view rest))) result }
    {
        if !has_return(then, other) {
            return Err(refused(JavaCode::LeftOut, at));
        }
        let copy = self.rest_for(then, &rest)?;
        let other = self.statement(other, rest)?;
        let then = self.statement(then, copy)?;
        chosen(self.alloc, at, condition, then, other)
    }

    /// The rest that the statement is put in front of; none where it is a `return`, so that a chain of `if` copies nothing.
    fn rest_for(self, statement: &Statement, rest: &Rest) -> Result<Rest, AllocError>
        ensures { IfOk result (λ r. meaning (statement_view statement.now) (rest_view r) ≡ meaning (statement_view statement.now) (rest_view rest.now)) }
    {
        if let Some(_) = value_of(alone(statement)) {
            return Ok(Rest::end());
        }
        rest.copied(self.alloc)
    }

    /// What `return value;` means.
    fn value(self, at: Place, value: &Expr) -> Result<Rest, ReadFault>
        ensures { Tells rest_meant (within at (expr_view value.now)) result }
    {
        within(at, copied(self.alloc, value)?)
    }

    /// What a loop means, in front of the rest.
    fn each(
        self,
        at: Place,
        name: &Word,
        list: &Expr,
        body: &Statement,
        rest: Rest,
    ) -> Result<Rest, ReadFault>
        ensures { Tells rest_meant (loop at (word_view name.now) (expr_view list.now) (search_of (alone (statement_view body.now))) (rest_view rest)) result }
    {
        let Some(search) = search_of(body) else {
            return Err(refused(JavaCode::LeftOut, at));
        };
        let it = Loop {
            alloc: self.alloc,
            at,
            name,
            list,
            test: search.test,
        };
        searched(&it, search.value, rest)
    }
}

/// What a loop that searches means, in front of the rest.
fn searched(it: &Loop, value: &Expr, rest: Rest) -> Result<Rest, ReadFault>
    ensures { Tells rest_meant (searched (loop_view it.now) (expr_view value.now) (rest_view rest)) result }
{
    if has_fold(value) {
        return Err(refused(JavaCode::LeftOut, it.at));
    }
    let Some(rest) = rest.into_expr() else {
        return Ok(Rest::end());
    };
    within(it.at, it.sought(value, rest)?)
}
