//! Statements. Each method is told how deep statements may nest in what it reads.

ghost use Rattle.std.specs.Prelude.{◌≡◌, IfOk, IfErr, map};
ghost use Rattle.at_text.specs.Rows.{left};
ghost use Rattle.at_jrag.specs.View.{expr_view, param_view};
ghost use Rattle.at_java.specs.Read.{got, Fails, at_place};
ghost use Rattle.at_java.specs.Next.{other_code, or_fails};
ghost use Rattle.at_java.specs.View.{statement_view};
ghost use Rattle.at_java.specs.Seen.{block_view};
ghost use Rattle.at_java.specs.Written.{Return, If, Each, Empty, Block as Nested, to_statements};
ghost use Rattle.at_java.specs.Statements.{returned, condition, conditional, otherwise, element, loop, block, formed, statement};
ghost use Rattle.at_java.specs.declared.JavaCode.TheVariants.{LeftOut};

use super::{Breach, ReadFault, Reader};
use crate::JavaCode;
use crate::written::Statement;
use at_jrag::{Expr, Param};
use at_text::fault::Failure;
use at_text::place::Place;
use at_text::token::TokenKind;
use std::alloc::{AllocError, Global};

/// How many statements a block may have.
const MOST_STATEMENTS: usize = 4096;

/// How deep statements may nest.
pub const MAX_NESTING: usize = 64;

/// Statements in front of a closing brace, and its place.
pub struct Block {
    pub items: Vec<Statement>,
    pub end: Place,
}

/// One call, where each exit that lets it go would else have one for each field.
impl Drop for Block {
    fn drop(self) {
        let Block { items: _, end: _ } = self;
    }
}

impl Block {
    /// The statements as one.
    fn nested(self) -> Statement
        ensures { statement_view result ≡ Nested (to_statements (map statement_view self.items.items)) }
    {
        let Block { items, end: _ } = self;
        Statement::Block(items)
    }
}

/// `return E;`
fn returned(at: Place, e: Expr) -> Statement
    ensures { statement_view result ≡ Return at (expr_view e) }
{
    Statement::Return(at, e)
}

/// `if (E) S else S`
fn conditional(
    alloc: Global,
    at: Place,
    condition: Expr,
    then: Statement,
    other: Statement,
) -> Result<Statement, AllocError>
    ensures { IfOk result (λ s. statement_view s ≡ If at (expr_view condition) (statement_view then) (statement_view other)) }
{
    let then = Box::new(alloc, then)?;
    let other = Box::new(alloc, other)?;
    Ok(Statement::If(at, condition, then, other))
}

/// `for (KIND NAME : E) S`
fn each(
    alloc: Global,
    at: Place,
    element: Param,
    list: Expr,
    body: Statement,
) -> Result<Statement, AllocError>
    ensures { IfOk result (λ s. statement_view s ≡ Each at (param_view element).kind (param_view element).name (expr_view list) (statement_view body)) }
{
    let Param { kind, name } = element;
    let body = Box::new(alloc, body)?;
    Ok(Statement::Each(at, kind, name, list, body))
}

impl<'a> Reader<'a> {
    /// The code where none of the forms begins that are read: a word begins another one.
    pub fn other_code(&self) -> JavaCode
        ensures { result ≡ other_code (left self.now.cursor.rest.now) }
    {
        match self.cursor.rest {
            [token, ..] if token.kind == TokenKind::Word => JavaCode::LeftOut,
            _ => JavaCode::Syntax,
        }
    }

    /// A statement, nested at most so deep.
    #[cycle(statement)]
    fn statement(&mut self, depth: usize) -> Result<Statement, ReadFault>
        ensures found { IfOk result (λ s. statement depth (left self.old.cursor.rest.now) ≡ got (statement_view s) (left self.new.cursor.rest.now)) }
        ensures fault { IfErr result (λ e. Fails e (left self.new.cursor.rest.now) (statement depth (left self.old.cursor.rest.now))) }
    {
        if depth == 0 {
            return Err(ReadFault::For(Breach::Here(JavaCode::Limit)));
        }
        self.formed(depth - 1)
    }

    /// A statement, where those in it are nested at most so deep.
    #[cycle(statement)]
    fn formed(&mut self, depth: usize) -> Result<Statement, ReadFault>
        ensures found { IfOk result (λ s. formed (statement depth) (left self.old.cursor.rest.now)
            ≡ got (statement_view s) (left self.new.cursor.rest.now)) }
        ensures fault { IfErr result (λ e. Fails e (left self.new.cursor.rest.now) (formed (statement depth) (left self.old.cursor.rest.now))) }
    {
        if let Some(at) = self.cursor.takes_word("return") {
            return self.returned(at);
        }
        if let Some(at) = self.cursor.takes_word("if") {
            return self.conditional(at, depth);
        }
        if let Some(at) = self.cursor.takes_word("for") {
            return self.each(at, depth);
        }
        if self.skips("{") {
            return Ok(self.block(depth)?.nested());
        }
        if self.skips(";") {
            return Ok(Statement::Empty);
        }
        Err(ReadFault::For(Breach::Here(self.other_code())))
    }

    /// `E ";"`, behind the `return` at this place.
    fn returned(&mut self, at: Place) -> Result<Statement, ReadFault>
        ensures found { IfOk result (λ s. returned at (left self.old.cursor.rest.now) ≡ got (statement_view s) (left self.new.cursor.rest.now)) }
        ensures fault { IfErr result (λ e. Fails e (left self.new.cursor.rest.now) (returned at (left self.old.cursor.rest.now))) }
    {
        let value = self.expression()?;
        self.expects(";")?;
        Ok(returned(at, value))
    }

    /// `"(" E ")"`
    fn condition(&mut self) -> Result<Expr, ReadFault>
        ensures found { IfOk result (λ e. condition (left self.old.cursor.rest.now) ≡ got (expr_view e) (left self.new.cursor.rest.now)) }
        ensures fault { IfErr result (λ e. Fails e (left self.new.cursor.rest.now) (condition (left self.old.cursor.rest.now))) }
    {
        self.expects("(")?;
        let condition = self.expression()?;
        self.expects(")")?;
        Ok(condition)
    }

    /// `"(" E ")" S ["else" S]`, behind the `if` at this place.
    #[cycle(statement)]
    fn conditional(&mut self, at: Place, depth: usize) -> Result<Statement, ReadFault>
        ensures found { IfOk result (λ s. conditional (statement depth) at (left self.old.cursor.rest.now)
            ≡ got (statement_view s) (left self.new.cursor.rest.now)) }
        ensures fault { IfErr result (λ e. Fails e (left self.new.cursor.rest.now) (conditional (statement depth) at (left self.old.cursor.rest.now))) }
    {
        let condition = self.condition()?;
        let then = self.statement(depth)?;
        self.otherwise(at, condition, then, depth)
    }

    /// `["else" S]`, behind what stands in front of it.
    #[cycle(statement)]
    fn otherwise(
        &mut self,
        at: Place,
        condition: Expr,
        then: Statement,
        depth: usize,
    ) -> Result<Statement, ReadFault>
        ensures found { IfOk result (λ s. otherwise (statement depth) at (expr_view condition) (statement_view then) (left self.old.cursor.rest.now)
            ≡ got (statement_view s) (left self.new.cursor.rest.now)) }
        ensures fault { IfErr result (λ e. Fails e (left self.new.cursor.rest.now)
            (otherwise (statement depth) at (expr_view condition) (statement_view then) (left self.old.cursor.rest.now))) }
    {
        if self.cursor.takes_word("else").is_none() {
            return Ok(conditional(self.alloc, at, condition, then, Statement::Empty)?);
        }
        let other = self.statement(depth)?;
        Ok(conditional(self.alloc, at, condition, then, other)?)
    }

    /// `"(" ["final"] kind name ":"`
    fn element(&mut self) -> Result<Param, ReadFault>
        ensures found { IfOk result (λ p. element (left self.old.cursor.rest.now) ≡ got (param_view p) (left self.new.cursor.rest.now)) }
        ensures fault { IfErr result (λ e. Fails e (left self.new.cursor.rest.now) (element (left self.old.cursor.rest.now))) }
    {
        self.expects("(")?;
        let element = self.variable()?;
        self.expects(":")?;
        Ok(element)
    }

    /// The same, behind the `for` at this place: another loop is left out there.
    fn element_of(&mut self, at: Place) -> Result<Param, ReadFault>
        ensures found { IfOk result (λ p. or_fails (at_place LeftOut at) (element (left self.old.cursor.rest.now))
            ≡ got (param_view p) (left self.new.cursor.rest.now)) }
        ensures fault { IfErr result (λ e. Fails e (left self.new.cursor.rest.now)
            (or_fails (at_place LeftOut at) (element (left self.old.cursor.rest.now)))) }
    {
        match self.element() {
            Ok(element) => Ok(element),
            Err(Failure::For(_)) => Err(ReadFault::For(Breach::At(JavaCode::LeftOut, at))),
            Err(Failure::Memory) => Err(ReadFault::Memory),
        }
    }

    /// An element, `E ")" S`, behind the `for` at this place.
    #[cycle(statement)]
    fn each(&mut self, at: Place, depth: usize) -> Result<Statement, ReadFault>
        ensures found { IfOk result (λ s. loop (statement depth) at (left self.old.cursor.rest.now)
            ≡ got (statement_view s) (left self.new.cursor.rest.now)) }
        ensures fault { IfErr result (λ e. Fails e (left self.new.cursor.rest.now) (loop (statement depth) at (left self.old.cursor.rest.now))) }
    {
        let element = self.element_of(at)?;
        let list = self.expression()?;
        self.expects(")")?;
        let body = self.statement(depth)?;
        Ok(each(self.alloc, at, element, list, body)?)
    }

    /// Statements up to the closing brace, at most 4,096.
    #[cycle(statement)]
    pub fn block(&mut self, depth: usize) -> Result<Block, ReadFault>
        ensures found { IfOk result (λ b. block (statement depth) (left self.old.cursor.rest.now) ≡ got (block_view b) (left self.new.cursor.rest.now)) }
        ensures fault { IfErr result (λ e. Fails e (left self.new.cursor.rest.now) (block (statement depth) (left self.old.cursor.rest.now))) }
    {
        let mut items = Vec::new(self.alloc);
        let mut room = MOST_STATEMENTS;
        loop {
            if let Some(end) = self.cursor.takes_sign("}") {
                return Ok(Block { items, end });
            }
            if room == 0 {
                return Err(ReadFault::For(Breach::Here(JavaCode::Limit)));
            }
            let item = self.statement(depth)?;
            items.push(item)?;
            room -= 1;
        }
    }
}
