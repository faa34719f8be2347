//! Expressions: a method for each form, which is told how deep expressions may nest in what it reads.

ghost use Rattle.std.specs.Prelude.{◌≡◌, [], ◌∷◌, ◌≤◌, ◌<◌, ◌-◌, IfOk, IfErr, false, map};
ghost use Rattle.std.specs.Str.{bytes_eq};
ghost use lib.Chars.{codes};
ghost use Rattle.at_jrag.specs.Syntax.{to_exprs};
ghost use Rattle.at_jrag.specs.View.{expr_view, fold_view};
ghost use Rattle.at_text.specs.Rows.{Row, left, word, is_sign, next_is};
ghost use Rattle.at_jrag.specs.Grammar.{fold_text};
ghost use Rattle.at_jrag.specs.Read.{Reads, LinksTo, HasArguments};
ghost use Rattle.at_jrag.specs.Wants as want;
ghost use Rattle.at_jrag.specs.Runs.{Goes, Moves, Halts, Stays, IsOther, reason_of};

use super::forms::{
    Arguments, Measured, call, call_of, choice, fold, instance_of, leaf, operation, parenthesized,
    prefixed,
};
use super::operators::{Link, UNARY, right_level};
use super::{ReadFault, Reader};
use crate::syntax::{FoldForm, Form};
use at_text::place::Place;

impl<'a> Reader<'a> {
    /// `or ["?" expr ":" expr]`
    #[cycle(expression)]
    pub fn expression(&mut self, budget: usize) -> Result<Measured, ReadFault>
        requires limit { budget ≤ 64 }
        ensures depth { IfOk result (λ m. m.depth ≤ budget) }
        ensures found { IfOk result (λ m. Reads 0 m (left self.old.cursor.rest.now) (left self.new.cursor.rest.now)) }
        ensures goes { IfOk result (λ m. Goes want.Expression (λ b. []) m.depth (left self.old.cursor.rest.now) (left self.new.cursor.rest.now)) }
        ensures halts { IfErr result (λ e. Halts (want.Expression budget) (reason_of e) (left self.old.cursor.rest.now) (left self.new.cursor.rest.now)) }
    {
        let condition = self.binary(1, budget)?;
        let Some(behind) = self.takes_within("?", condition.depth, budget)? else {
            return Ok(condition);
        };
        let then = self.expression(budget - 1)?;
        self.expects(":")?;
        let other = self.expression(budget - 1)?;
        Ok(choice(self.alloc, condition, behind, then, other)?)
    }

    /// Operands of this level and what stands between them, which leans left.
    #[cycle(expression)]
    fn binary(&mut self, level: usize, budget: usize) -> Result<Measured, ReadFault>
        requires limit { budget ≤ 64 }
        requires level { level ≤ 7 }
        ensures depth { IfOk result (λ m. m.depth ≤ budget) }
        ensures found { IfOk result (λ m. Reads level m (left self.old.cursor.rest.now) (left self.new.cursor.rest.now)) }
        ensures goes { IfOk result (λ m. Goes (want.Binary (7 - level)) (λ b. []) m.depth (left self.old.cursor.rest.now) (left self.new.cursor.rest.now)) }
        ensures halts { IfErr result
            (λ e. Halts (want.Binary (7 - level) budget) (reason_of e) (left self.old.cursor.rest.now) (left self.new.cursor.rest.now)) }
    {
        if level >= UNARY {
            return self.unary(budget);
        }
        let mut operand = self.binary(level + 1, budget)?;
        while let Some(link) = self.link(level, operand.depth, budget)? {
            operand = self.linked(level, operand, link, budget)?;
        }
        Ok(operand)
    }

    /// A left operand with what stands behind it.
    #[cycle(expression)]
    fn linked(
        &mut self,
        level: usize,
        operand: Measured,
        link: Link,
        budget: usize,
    ) -> Result<Measured, ReadFault>
        requires limit { budget ≤ 64 }
        requires level { level < 7 }
        requires operand { operand.depth < budget }
        ensures depth { IfOk result (λ m. m.depth ≤ budget) }
        ensures deeper { IfOk result (λ m. operand.depth < m.depth) }
        ensures found { IfOk result (λ m. (old rest : Row) → Reads level operand old rest → LinksTo level link rest (left self.old.cursor.rest.now)
            → Reads level m old (left self.new.cursor.rest.now)) }
        ensures goes { IfOk result (λ m. (start : Row) → LinksTo level link start (left self.old.cursor.rest.now)
            → Moves (λ b. want.Links (6 - level) b ∷ []) (λ b. want.Links (6 - level) b ∷ []) operand.depth m.depth start (left self.new.cursor.rest.now)) }
        ensures halts { IfErr result (λ e. (start : Row) → LinksTo level link start (left self.old.cursor.rest.now)
            → Stays (want.Links (6 - level) budget ∷ []) operand.depth (reason_of e) start (left self.new.cursor.rest.now)) }
    {
        match link {
            Link::Operator(operator) => {
                let right = self.binary(right_level(level), budget - 1)?;
                Ok(operation(self.alloc, operand, operator, right)?)
            }
            Link::InstanceOf(behind) => {
                let class = self.name()?;
                Ok(instance_of(self.alloc, operand, behind, class)?)
            }
        }
    }

    /// `("!" | "-") unary | "(" name ")" cast | post`
    #[cycle(expression)]
    fn unary(&mut self, budget: usize) -> Result<Measured, ReadFault>
        requires limit { budget ≤ 64 }
        ensures depth { IfOk result (λ m. m.depth ≤ budget) }
        ensures found { IfOk result (λ m. Reads 7 m (left self.old.cursor.rest.now) (left self.new.cursor.rest.now)) }
        ensures goes { IfOk result (λ m. Goes want.Unary (λ b. []) m.depth (left self.old.cursor.rest.now) (left self.new.cursor.rest.now)) }
        ensures halts { IfErr result (λ e. Halts (want.Unary budget) (reason_of e) (left self.old.cursor.rest.now) (left self.new.cursor.rest.now)) }
    {
        if budget == 0 {
            return Err(self.too_deep());
        }
        if let Some(number) = self.negative()? {
            return self.calls(number, budget);
        }
        if let Some((at, prefix)) = self.prefix(budget)? {
            let inner = self.unary(budget - 1)?;
            return Ok(prefixed(self.alloc, at, prefix, inner)?);
        }
        let first = self.primary(budget)?;
        self.calls(first, budget)
    }

    /// `{ "." name "(" [args] ")" }` behind a first receiver.
    #[cycle(expression)]
    fn calls(&mut self, first: Measured, budget: usize) -> Result<Measured, ReadFault>
        requires limit { budget ≤ 64 }
        requires first { first.depth ≤ budget }
        ensures depth { IfOk result (λ m. m.depth ≤ budget) }
        ensures deeper { IfOk result (λ m. first.depth ≤ m.depth) }
        ensures found { IfOk result (λ m. (old : Row) → Reads 8 first old (left self.old.cursor.rest.now) → Reads 8 m old (left self.new.cursor.rest.now)) }
        ensures goes { IfOk result
            (λ m. Moves (λ b. want.Calls b ∷ []) (λ b. []) first.depth m.depth (left self.old.cursor.rest.now) (left self.new.cursor.rest.now)) }
        ensures halts { IfErr result
            (λ e. Stays (want.Calls budget ∷ []) first.depth (reason_of e) (left self.old.cursor.rest.now) (left self.new.cursor.rest.now)) }
    {
        let mut receiver = first;
        while let Some(_) = self.takes_within(".", receiver.depth, budget)? {
            let name = self.name()?;
            let arguments = self.arguments(name.text.as_str(), budget - 1)?;
            receiver = call_of(self.alloc, receiver, name, arguments)?;
        }
        Ok(receiver)
    }

    /// `"(" [expr { "," expr }] ")"`, behind this name.
    #[cycle(expression)]
    fn arguments(&mut self, name: &str, budget: usize) -> Result<Arguments, ReadFault>
        requires limit { budget ≤ 64 }
        ensures depth { IfOk result (λ a. a.depth ≤ budget) }
        ensures found { IfOk result (λ a. HasArguments name.now a (left self.old.cursor.rest.now) (left self.new.cursor.rest.now)) }
        ensures goes { IfOk result (λ m. Goes (want.Arguments (bytes_eq name.now (codes "getChild"))) (λ b. []) m.depth
            (left self.old.cursor.rest.now) (left self.new.cursor.rest.now)) }
        ensures halts { IfErr result (λ e. Halts (want.Arguments (bytes_eq name.now (codes "getChild")) budget) (reason_of e)
            (left self.old.cursor.rest.now) (left self.new.cursor.rest.now)) }
    {
        self.opens(name)?;
        let mut items = Vec::new(self.alloc);
        let mut depth = 0;
        if self.skips(")") {
            return Ok(Arguments { items, depth });
        }
        loop {
            let next = self.expression(budget)?;
            depth = depth.max(next.depth);
            items.push(next.into_expr())?;
            if self.skips(")") {
                return Ok(Arguments { items, depth });
            }
            self.expects(",")?;
        }
    }

    /// `number | text | "true" | "false" | "null" | "this" | "(" expr ")" | fold | name | name "(" [args] ")"`
    #[cycle(expression)]
    fn primary(&mut self, budget: usize) -> Result<Measured, ReadFault>
        requires some { 0 < budget }
        requires limit { budget ≤ 64 }
        ensures depth { IfOk result (λ m. m.depth ≤ budget) }
        ensures found { IfOk result (λ m. Reads 8 m (left self.old.cursor.rest.now) (left self.new.cursor.rest.now)) }
        ensures plain { IfOk result (λ m. next_is (is_sign (codes "-")) (left self.old.cursor.rest.now) ≡ false) }
        ensures goes { IfOk result (λ m. Goes want.Primary (λ b. []) m.depth (left self.old.cursor.rest.now) (left self.new.cursor.rest.now)) }
        ensures halts { IfErr result (λ e. Halts (want.Primary budget) (reason_of e) (left self.old.cursor.rest.now) (left self.new.cursor.rest.now)) }
    {
        if let Some(literal) = self.literal()? {
            return Ok(literal);
        }
        if let Some(at) = self.takes_within("(", 1, budget)? {
            let inner = self.expression(budget - 1)?;
            self.expects(")")?;
            return Ok(parenthesized(self.alloc, at, inner)?);
        }
        if let Some((at, form)) = self.fold_word(budget)? {
            return self.fold(at, form, budget);
        }
        self.named(budget)
    }

    /// `name | name "(" [args] ")"`
    #[cycle(expression)]
    fn named(&mut self, budget: usize) -> Result<Measured, ReadFault>
        requires some { 0 < budget }
        requires limit { budget ≤ 64 }
        ensures depth { IfOk result (λ m. m.depth ≤ budget) }
        ensures found { IfOk result (λ m. Reads 8 m (left self.old.cursor.rest.now) (left self.new.cursor.rest.now)) }
        ensures plain { IfOk result (λ m. next_is (is_sign (codes "-")) (left self.old.cursor.rest.now) ≡ false) }
        ensures goes { IfOk result (λ m. Goes want.Primary (λ b. []) m.depth (left self.old.cursor.rest.now) (left self.new.cursor.rest.now)) }
        ensures halts { IfErr result (λ e. IsOther (left self.old.cursor.rest.now)
            → Halts (want.Primary budget) (reason_of e) (left self.old.cursor.rest.now) (left self.new.cursor.rest.now)) }
    {
        let name = self.name()?;
        if !self.cursor.is_before_sign("(") {
            return Ok(leaf(name.at, Form::Name(name.text)));
        }
        let arguments = self.arguments(name.text.as_str(), budget - 1)?;
        Ok(call(name, arguments))
    }

    /// `"(" name ":" post ")" "{" expr "}"`, behind the word of a fold.
    #[cycle(expression)]
    fn fold(&mut self, at: Place, form: FoldForm, budget: usize) -> Result<Measured, ReadFault>
        requires some { 1 < budget }
        requires limit { budget ≤ 64 }
        ensures depth { IfOk result (λ m. m.depth ≤ budget) }
        ensures found { IfOk result (λ m. (old : Row) → old ≡ word (fold_text (fold_view form)) at ∷ left self.old.cursor.rest.now
            → Reads 8 m old (left self.new.cursor.rest.now)) }
        ensures goes { IfOk result (λ m. (old : Row) → old ≡ word (fold_text (fold_view form)) at ∷ left self.old.cursor.rest.now
            → Goes want.Primary (λ b. []) m.depth old (left self.new.cursor.rest.now)) }
        ensures halts { IfErr result (λ e. (old : Row) → old ≡ word (fold_text (fold_view form)) at ∷ left self.old.cursor.rest.now
            → Halts (want.Primary budget) (reason_of e) old (left self.new.cursor.rest.now)) }
    {
        self.expects("(")?;
        let name = self.name()?;
        self.expects(":")?;
        let list = self.primary(budget - 1)?;
        let list = self.calls(list, budget - 1)?;
        self.expects(")")?;
        self.expects("{")?;
        let body = self.expression(budget - 1)?;
        self.expects("}")?;
        Ok(fold(self.alloc, at, form, name, list, body)?)
    }
}
