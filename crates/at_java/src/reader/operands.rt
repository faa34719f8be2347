//! Operands: what operators stand between. A method is told how much deeper what stands in its form may nest.

ghost use Rattle.std.specs.Prelude.{◌≡◌, IfOk, IfErr, map};
ghost use Rattle.at_text.specs.Rows.{left};
ghost use Rattle.at_jrag.specs.View.{expr_view, fold_view};
ghost use Rattle.at_java.specs.Read.{got, Fails};
ghost use Rattle.at_java.specs.Expressions.{readers};
ghost use Rattle.at_java.specs.Operands.{unary, negative, cast, postfix, calls, max_calls, call_of, arguments, items, max_arguments, primary, parenthesized, worded, named, fold};

use super::forms::{call, call_of, cast, fold, inverted, leaf, negated, parenthesized};
use super::{Breach, ReadFault, Reader};
use crate::JavaCode;
use at_jrag::{Expr, FoldForm, Form};
use at_text::names::is_name;
use at_text::place::Place;
use at_text::token::TokenKind;

/// How many calls may stand behind an operand.
const MAX_CALLS: usize = 64;

/// How many arguments a call may have.
const MAX_ARGUMENTS: usize = 255;

impl<'a> Reader<'a> {
    /// `("!" | "-") unary | cast | post`, which nests so deep at most.
    #[cycle(expression)]
    pub fn unary_within(&mut self, budget: usize) -> Result<Expr, ReadFault>
        ensures found { IfOk result (λ e. (readers budget).unary (left self.old.cursor.rest.now) ≡ got (expr_view e) (left self.new.cursor.rest.now)) }
        ensures fault { IfErr result (λ e. Fails e (left self.new.cursor.rest.now) ((readers budget).unary (left self.old.cursor.rest.now))) }
    {
        if budget == 0 {
            return Err(ReadFault::For(Breach::Here(JavaCode::Limit)));
        }
        self.unary(budget - 1)
    }

    /// The same; this much deeper may nest what stands in it.
    #[tactic(auto, unfolding(crate::specs::Operands::unary))]
    #[cycle(expression)]
    pub fn unary(&mut self, depth: usize) -> Result<Expr, ReadFault>
        ensures found { IfOk result (λ e. unary (readers depth) (left self.old.cursor.rest.now) ≡ got (expr_view e) (left self.new.cursor.rest.now)) }
        ensures fault { IfErr result (λ e. Fails e (left self.new.cursor.rest.now) (unary (readers depth) (left self.old.cursor.rest.now))) }
    {
        if let Some(at) = self.takes("-") {
            return self.negative(at, depth);
        }
        if let Some(at) = self.takes("!") {
            let operand = self.unary_within(depth)?;
            return Ok(inverted(self.alloc, at, operand)?);
        }
        if self.is_at_cast() {
            return self.cast(depth);
        }
        self.postfix(depth)
    }

    /// What stands behind a `-`, which belongs to a number right behind it.
    #[tactic(auto, unfolding(crate::specs::Operands::negative))]
    #[cycle(expression)]
    fn negative(&mut self, at: Place, depth: usize) -> Result<Expr, ReadFault>
        ensures found { IfOk result (λ e. negative (readers depth) at (left self.old.cursor.rest.now) ≡ got (expr_view e) (left self.new.cursor.rest.now)) }
        ensures fault { IfErr result (λ e. Fails e (left self.new.cursor.rest.now) (negative (readers depth) at (left self.old.cursor.rest.now))) }
    {
        if self.is_before_number() {
            let number = self.number(true, at)?;
            return self.calls(number, depth);
        }
        let operand = self.unary_within(depth)?;
        Ok(negated(self.alloc, at, operand)?)
    }

    /// `"(" name ")" unary`
    #[tactic(auto, unfolding(crate::specs::Operands::cast))]
    #[cycle(expression)]
    fn cast(&mut self, depth: usize) -> Result<Expr, ReadFault>
        ensures found { IfOk result (λ e. cast (readers depth) (left self.old.cursor.rest.now) ≡ got (expr_view e) (left self.new.cursor.rest.now)) }
        ensures fault { IfErr result (λ e. Fails e (left self.new.cursor.rest.now) (cast (readers depth) (left self.old.cursor.rest.now))) }
    {
        let at = self.expects("(")?;
        let class = self.name()?;
        self.expects(")")?;
        let operand = self.unary_within(depth)?;
        Ok(cast(self.alloc, at, class, operand)?)
    }

    /// `primary { "." name "(" [args] ")" }`, which nests so deep at most.
    #[cycle(expression)]
    fn postfix_within(&mut self, budget: usize) -> Result<Expr, ReadFault>
        ensures found { IfOk result (λ e. (readers budget).postfix (left self.old.cursor.rest.now) ≡ got (expr_view e) (left self.new.cursor.rest.now)) }
        ensures fault { IfErr result (λ e. Fails e (left self.new.cursor.rest.now) ((readers budget).postfix (left self.old.cursor.rest.now))) }
    {
        if budget == 0 {
            return Err(ReadFault::For(Breach::Here(JavaCode::Limit)));
        }
        self.postfix(budget - 1)
    }

    /// The same; this much deeper may nest what stands in it.
    #[tactic(auto, unfolding(crate::specs::Operands::postfix))]
    #[cycle(expression)]
    fn postfix(&mut self, depth: usize) -> Result<Expr, ReadFault>
        ensures found { IfOk result (λ e. postfix (readers depth) (left self.old.cursor.rest.now) ≡ got (expr_view e) (left self.new.cursor.rest.now)) }
        ensures fault { IfErr result (λ e. Fails e (left self.new.cursor.rest.now) (postfix (readers depth) (left self.old.cursor.rest.now))) }
    {
        let first = self.primary(depth)?;
        self.calls(first, depth)
    }

    /// `{ "." name "(" [args] ")" }` behind a first receiver.
    #[cycle(expression)]
    fn calls(&mut self, first: Expr, depth: usize) -> Result<Expr, ReadFault>
        ensures found { IfOk result (λ e. calls (readers depth) max_calls (expr_view first) (left self.old.cursor.rest.now)
            ≡ got (expr_view e) (left self.new.cursor.rest.now)) }
        ensures fault { IfErr result (λ e. Fails e (left self.new.cursor.rest.now) (calls (readers depth) max_calls (expr_view first)
            (left self.old.cursor.rest.now))) }
    {
        let mut receiver = first;
        let mut more = MAX_CALLS;
        while let Some(_) = self.takes(".") {
            if more == 0 {
                return Err(ReadFault::For(Breach::Here(JavaCode::Limit)));
            }
            receiver = self.call_of(receiver, depth)?;
            more -= 1;
        }
        Ok(receiver)
    }

    /// `name "(" [args] ")"` behind a receiver and its `.`.
    #[tactic(auto, unfolding(crate::specs::Operands::call_of))]
    #[cycle(expression)]
    fn call_of(&mut self, receiver: Expr, depth: usize) -> Result<Expr, ReadFault>
        ensures found { IfOk result (λ e. call_of (readers depth) (expr_view receiver) (left self.old.cursor.rest.now)
            ≡ got (expr_view e) (left self.new.cursor.rest.now)) }
        ensures fault { IfErr result (λ e. Fails e (left self.new.cursor.rest.now) (call_of (readers depth) (expr_view receiver)
            (left self.old.cursor.rest.now))) }
    {
        let name = self.called()?;
        let arguments = self.arguments(depth)?;
        Ok(call_of(self.alloc, receiver, name, arguments)?)
    }

    /// `"(" [expr { "," expr }] ")"`
    #[tactic(auto, unfolding(crate::specs::Operands::arguments))]
    #[cycle(expression)]
    fn arguments(&mut self, depth: usize) -> Result<Vec<Expr>, ReadFault>
        ensures found { IfOk result (λ v. arguments (readers depth) (left self.old.cursor.rest.now) ≡ got (map expr_view v.items)
            (left self.new.cursor.rest.now)) }
        ensures fault { IfErr result (λ e. Fails e (left self.new.cursor.rest.now) (arguments (readers depth) (left self.old.cursor.rest.now))) }
    {
        self.expects("(")?;
        if let Some(_) = self.takes(")") {
            return Ok(Vec::new(self.alloc));
        }
        self.items(depth)
    }

    /// `expr { "," expr } ")"`
    #[cycle(expression)]
    fn items(&mut self, depth: usize) -> Result<Vec<Expr>, ReadFault>
        ensures found { IfOk result (λ v. items (readers depth).expression max_arguments (left self.old.cursor.rest.now)
            ≡ got (map expr_view v.items) (left self.new.cursor.rest.now)) }
        ensures fault { IfErr result (λ e. Fails e (left self.new.cursor.rest.now) (items (readers depth).expression max_arguments
            (left self.old.cursor.rest.now))) }
    {
        let mut items = Vec::new(self.alloc);
        let mut more = MAX_ARGUMENTS;
        while more > 0 {
            let next = self.expression_within(depth)?;
            items.push(next)?;
            if let Some(_) = self.takes(")") {
                return Ok(items);
            }
            self.expects(",")?;
            more -= 1;
        }
        Err(ReadFault::For(Breach::Here(JavaCode::Limit)))
    }

    /// `number | text | "(" expr ")" | constant | fold | name | name "(" [args] ")"`
    #[tactic(auto, unfolding(crate::specs::Operands::primary))]
    #[cycle(expression)]
    fn primary(&mut self, depth: usize) -> Result<Expr, ReadFault>
        ensures found { IfOk result (λ e. primary (readers depth) (left self.old.cursor.rest.now) ≡ got (expr_view e) (left self.new.cursor.rest.now)) }
        ensures fault { IfErr result (λ e. Fails e (left self.new.cursor.rest.now) (primary (readers depth) (left self.old.cursor.rest.now))) }
    {
        let Some(token) = self.cursor.peek() else {
            return Err(ReadFault::For(Breach::Here(JavaCode::Syntax)));
        };
        match token.kind {
            TokenKind::Number => self.number(false, token.at),
            TokenKind::Text => self.text(),
            TokenKind::Sign => self.parenthesized(depth),
            TokenKind::Word => self.worded(depth),
        }
    }

    /// `"(" expr ")"`
    #[tactic(auto, unfolding(crate::specs::Operands::parenthesized))]
    #[cycle(expression)]
    fn parenthesized(&mut self, depth: usize) -> Result<Expr, ReadFault>
        ensures found { IfOk result (λ e. parenthesized (readers depth) (left self.old.cursor.rest.now) ≡ got (expr_view e) (left self.new.cursor.rest.now)) }
        ensures fault { IfErr result (λ e. Fails e (left self.new.cursor.rest.now) (parenthesized (readers depth) (left self.old.cursor.rest.now))) }
    {
        let at = self.expects("(")?;
        let inner = self.expression_within(depth)?;
        self.expects(")")?;
        Ok(parenthesized(self.alloc, at, inner)?)
    }

    /// `"true" | "false" | "null" | "this" | fold | name | name "(" [args] ")"`
    #[tactic(auto, unfolding(crate::specs::Operands::worded))]
    #[cycle(expression)]
    fn worded(&mut self, depth: usize) -> Result<Expr, ReadFault>
        ensures found { IfOk result (λ e. worded (readers depth) (left self.old.cursor.rest.now) ≡ got (expr_view e) (left self.new.cursor.rest.now)) }
        ensures fault { IfErr result (λ e. Fails e (left self.new.cursor.rest.now) (worded (readers depth) (left self.old.cursor.rest.now))) }
    {
        if self.is_before_left_out() {
            return Err(ReadFault::For(Breach::Here(JavaCode::LeftOut)));
        }
        if let Some(constant) = self.constant() {
            return Ok(constant);
        }
        match self.fold_word() {
            Some((at, form)) => self.fold(at, form, depth),
            None => self.named(depth),
        }
    }

    /// `name | name "(" [args] ")"`
    #[tactic(auto, unfolding(crate::specs::Operands::named))]
    #[cycle(expression)]
    fn named(&mut self, depth: usize) -> Result<Expr, ReadFault>
        ensures found { IfOk result (λ e. named (readers depth) (left self.old.cursor.rest.now) ≡ got (expr_view e) (left self.new.cursor.rest.now)) }
        ensures fault { IfErr result (λ e. Fails e (left self.new.cursor.rest.now) (named (readers depth) (left self.old.cursor.rest.now))) }
    {
        let name = self.called()?;
        if self.cursor.is_before_sign("(") {
            let arguments = self.arguments(depth)?;
            return Ok(call(name, arguments));
        }
        if is_name(name.text.as_str()) {
            return Ok(leaf(name.at, Form::Name(name.text)));
        }
        Err(ReadFault::For(Breach::Here(JavaCode::Syntax)))
    }

    /// `"(" name ":" post ")" "{" expr "}"`, behind the word of a fold.
    #[tactic(auto, unfolding(crate::specs::Operands::fold))]
    #[cycle(expression)]
    fn fold(&mut self, at: Place, form: FoldForm, depth: usize) -> Result<Expr, ReadFault>
        ensures found { IfOk result (λ e. fold (readers depth) at (fold_view form) (left self.old.cursor.rest.now) ≡ got (expr_view e)
            (left self.new.cursor.rest.now)) }
        ensures fault { IfErr result (λ e. Fails e (left self.new.cursor.rest.now) (fold (readers depth) at (fold_view form) (left self.old.cursor.rest.now))) }
    {
        self.expects("(")?;
        let name = self.name()?;
        self.expects(":")?;
        let list = self.postfix_within(depth)?;
        self.expects(")")?;
        self.expects("{")?;
        let body = self.expression_within(depth)?;
        self.expects("}")?;
        Ok(fold(self.alloc, at, form, name, list, body)?)
    }
}
