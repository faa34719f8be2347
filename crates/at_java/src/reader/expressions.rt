//! Expressions, by recursive descent. A method is told how much deeper what stands in its form may nest.

ghost use Rattle.std.specs.Prelude.{◌≡◌, ◌≤◌, ◌<◌, ◌-◌, IfOk, IfErr};
ghost use Rattle.at_text.specs.Rows.{left};
ghost use Rattle.at_jrag.specs.View.{expr_view};
ghost use Rattle.at_java.specs.Read.{got, Fails};
ghost use Rattle.at_java.specs.Operators.{operands, links, linked, max_links};
ghost use Rattle.at_java.specs.OperatorView.{link_view};
ghost use Rattle.at_java.specs.Expressions.{expression, readers, choice, chosen};

use super::forms::{choice, instance_of, operation};
use super::operators::Link;
use super::{Breach, ReadFault, Reader};
use crate::JavaCode;
use at_jrag::Expr;
use at_text::place::Place;

/// How deep expressions may nest.
const MAX_NESTING: usize = 64;

/// The rank of the weakest operators.
const WEAKEST: usize = 6;

/// How many operators of one rank may stand in a row.
const MAX_LINKS: usize = 64;

impl<'a> Reader<'a> {
    /// An expression (Java Language Specification 15), which may nest 64 deep; the fault is where it can't go on, `Limit` where it
    /// nests deeper, or has more links, calls or arguments in a row than may stand there.
    pub fn expression(&mut self) -> Result<Expr, ReadFault>
        ensures found { IfOk result (λ e. expression (left self.old.cursor.rest.now) ≡ got (expr_view e) (left self.new.cursor.rest.now)) }
        ensures fault { IfErr result (λ e. Fails e (left self.new.cursor.rest.now) (expression (left self.old.cursor.rest.now))) }
    {
        self.expression_within(MAX_NESTING)
    }

    /// `or ["?" expr ":" expr]`, which nests so deep at most.
    #[cycle(expression)]
    pub fn expression_within(&mut self, budget: usize) -> Result<Expr, ReadFault>
        ensures found { IfOk result (λ e. (readers budget).expression (left self.old.cursor.rest.now) ≡ got (expr_view e) (left self.new.cursor.rest.now)) }
        ensures fault { IfErr result (λ e. Fails e (left self.new.cursor.rest.now) ((readers budget).expression (left self.old.cursor.rest.now))) }
    {
        if budget == 0 {
            return Err(ReadFault::For(Breach::Here(JavaCode::Limit)));
        }
        self.choice(budget - 1)
    }

    /// The same; this much deeper may nest what stands in it.
    #[tactic(auto, unfolding(crate::specs::Expressions::choice))]
    #[cycle(expression)]
    fn choice(&mut self, depth: usize) -> Result<Expr, ReadFault>
        ensures found { IfOk result (λ e. choice (readers depth) (left self.old.cursor.rest.now) ≡ got (expr_view e) (left self.new.cursor.rest.now)) }
        ensures fault { IfErr result (λ e. Fails e (left self.new.cursor.rest.now) (choice (readers depth) (left self.old.cursor.rest.now))) }
    {
        let condition = self.operands(WEAKEST, depth)?;
        match self.takes("?") {
            Some(behind) => self.chosen(condition, behind, depth),
            None => Ok(condition),
        }
    }

    /// `expr ":" expr` behind a condition and its `?`.
    #[tactic(auto, unfolding(crate::specs::Expressions::chosen))]
    #[cycle(expression)]
    fn chosen(&mut self, condition: Expr, behind: Place, depth: usize) -> Result<Expr, ReadFault>
        ensures found { IfOk result (λ e. chosen (readers depth) (expr_view condition) behind (left self.old.cursor.rest.now)
            ≡ got (expr_view e) (left self.new.cursor.rest.now)) }
        ensures fault { IfErr result (λ e. Fails e (left self.new.cursor.rest.now) (chosen (readers depth) (expr_view condition) behind
            (left self.old.cursor.rest.now))) }
    {
        let then = self.expression_within(depth)?;
        self.expects(":")?;
        let other = self.expression_within(depth)?;
        Ok(choice(self.alloc, condition, behind, then, other)?)
    }

    /// Operands with operators of this rank at most between them, which lean left.
    #[cycle(expression)]
    fn operands(&mut self, rank: usize, depth: usize) -> Result<Expr, ReadFault>
        requires rank { rank ≤ 6 }
        ensures found { IfOk result (λ e. operands (readers depth) rank (left self.old.cursor.rest.now) ≡ got (expr_view e) (left self.new.cursor.rest.now)) }
        ensures fault { IfErr result (λ e. Fails e (left self.new.cursor.rest.now) (operands (readers depth) rank (left self.old.cursor.rest.now))) }
    {
        if rank == 0 {
            return self.unary(depth);
        }
        let first = self.operands(rank - 1, depth)?;
        self.links(rank, first, depth)
    }

    /// What goes on behind a left operand, with operators of this rank.
    #[cycle(expression)]
    fn links(&mut self, rank: usize, first: Expr, depth: usize) -> Result<Expr, ReadFault>
        requires some { 0 < rank }
        requires rank { rank ≤ 6 }
        ensures found { IfOk result (λ e. links (operands (readers depth) (rank - 1)) rank max_links (expr_view first)
            (left self.old.cursor.rest.now) ≡ got (expr_view e) (left self.new.cursor.rest.now)) }
        ensures fault { IfErr result (λ e. Fails e
            (left self.new.cursor.rest.now) (links (operands (readers depth) (rank - 1)) rank max_links (expr_view first) (left self.old.cursor.rest.now))) }
    {
        let mut operand = first;
        let mut more = MAX_LINKS;
        while let Some(link) = self.link(rank) {
            if more == 0 {
                return Err(ReadFault::For(Breach::Here(JavaCode::Limit)));
            }
            operand = self.linked(rank - 1, operand, link, depth)?;
            more -= 1;
        }
        Ok(operand)
    }

    /// A left operand with what stands behind it.
    #[cycle(expression)]
    fn linked(
        &mut self,
        below: usize,
        operand: Expr,
        link: Link,
        depth: usize,
    ) -> Result<Expr, ReadFault>
        requires rank { below < 6 }
        ensures found { IfOk result (λ e. linked (operands (readers depth) below) (expr_view operand) (link_view link)
            (left self.old.cursor.rest.now) ≡ got (expr_view e) (left self.new.cursor.rest.now)) }
        ensures fault { IfErr result (λ e. Fails e
            (left self.new.cursor.rest.now) (linked (operands (readers depth) below) (expr_view operand) (link_view link) (left self.old.cursor.rest.now))) }
    {
        match link {
            Link::Operator(operator) => {
                let right = self.operands(below, depth)?;
                Ok(operation(self.alloc, operand, operator, right)?)
            }
            Link::InstanceOf(behind) => {
                let class = self.name()?;
                Ok(instance_of(self.alloc, operand, behind, class)?)
            }
        }
    }
}
