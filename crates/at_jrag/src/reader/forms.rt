//! Expressions made of their parts. Each nests one deeper than its deepest part.

ghost use Rattle.std.specs.Prelude.{◌≡◌, ◌+◌, ◌<◌, ℕ, max, IfOk, map, string_bytes};
ghost use Rattle.at_jrag.specs.Syntax as syntax;
ghost use Rattle.at_jrag.specs.Syntax.{place, to_exprs};
ghost use Rattle.at_jrag.specs.View.{expr_view, form_view, operator_view, fold_view, word_view};
ghost use Rattle.at_jrag.specs.Read.{prefix_view};

use super::operators::Prefix;
use crate::syntax::{Expr, FoldForm, Form, OperatorWord, Word};
use at_text::place::Place;
use std::alloc::{AllocError, Global};

/// An expression, and how deep expressions nest in it: a literal, a name or a call without parts once.
pub struct Measured {
    pub expr: Expr,
    pub depth: usize,
}

/// One call, where each exit that lets an expression go would else have a case for each form.
impl Drop for Measured {
    fn drop(self) {
        let Measured { expr: _, depth: _ } = self;
    }
}

impl Measured {
    /// The expression alone.
    pub fn into_expr(self) -> Expr
        ensures { result ≡ self.expr }
    {
        let Measured { expr, depth: _ } = self;
        expr
    }

    /// The expression alone, in a box.
    fn boxed(self, alloc: Global) -> Result<Box<Expr>, AllocError>
        ensures { IfOk result (λ b. b.value ≡ self.expr) }
    {
        Ok(Box::new(alloc, self.into_expr())?)
    }
}

/// The arguments of a call, and the nesting of the deepest; 0 where there are none.
#[derive(Drop)]
pub struct Arguments {
    pub items: Vec<Expr>,
    pub depth: usize,
}

/// A form without parts.
pub fn leaf(at: Place, form: Form) -> Measured
    ensures depth { result.depth ≡ 1 }
    ensures made { expr_view result.expr ≡ form_view form at }
{
    Measured {
        expr: Expr { at, form },
        depth: 1,
    }
}

/// `(E)`
pub fn parenthesized(alloc: Global, at: Place, inner: Measured) -> Result<Measured, AllocError>
    requires { inner.depth < 64 }
    ensures depth { IfOk result (λ m. m.depth ≡ 1 + inner.depth) }
    ensures made { IfOk result (λ m. expr_view m.expr ≡ syntax.Paren at (expr_view inner.expr)) }
{
    let depth = 1 + inner.depth;
    let inner = inner.boxed(alloc)?;
    Ok(Measured {
        expr: Expr {
            at,
            form: Form::Paren(inner),
        },
        depth,
    })
}

/// An operand behind what stands before it.
pub fn prefixed(
    alloc: Global,
    at: Place,
    prefix: Prefix,
    inner: Measured,
) -> Result<Measured, AllocError>
    requires { inner.depth < 64 }
    ensures depth { IfOk result (λ m. m.depth ≡ 1 + inner.depth) }
    ensures made { IfOk result (λ m. expr_view m.expr ≡ prefix_view prefix at (expr_view inner.expr)) }
{
    let depth = 1 + inner.depth;
    let inner = inner.boxed(alloc)?;
    let form = match prefix {
        Prefix::Not => Form::Not(inner),
        Prefix::Minus => Form::Negate(inner),
        Prefix::Cast(class) => Form::Cast(class, inner),
    };
    Ok(Measured {
        expr: Expr { at, form },
        depth,
    })
}

/// `left OPERATOR right`
pub fn operation(
    alloc: Global,
    left: Measured,
    operator: OperatorWord,
    right: Measured,
) -> Result<Measured, AllocError>
    requires left { left.depth < 64 }
    requires right { right.depth < 64 }
    ensures depth { IfOk result (λ m. m.depth ≡ 1 + max left.depth right.depth) }
    ensures made { IfOk result (λ m. expr_view m.expr
        ≡ syntax.Binary (place (expr_view left.expr)) (operator_view operator.operator) operator.at (expr_view left.expr) (expr_view right.expr)) }
{
    let at = left.expr.at;
    let depth = 1 + left.depth.max(right.depth);
    let left = left.boxed(alloc)?;
    let right = right.boxed(alloc)?;
    Ok(Measured {
        expr: Expr {
            at,
            form: Form::Binary(operator, left, right),
        },
        depth,
    })
}

/// `operand instanceof CLASS`
pub fn instance_of(
    alloc: Global,
    operand: Measured,
    behind: Place,
    class: Word,
) -> Result<Measured, AllocError>
    requires { operand.depth < 64 }
    ensures depth { IfOk result (λ m. m.depth ≡ 1 + operand.depth) }
    ensures made { IfOk result (λ m. expr_view m.expr
        ≡ syntax.InstanceOf (place (expr_view operand.expr)) (expr_view operand.expr) behind (word_view class)) }
{
    let at = operand.expr.at;
    let depth = 1 + operand.depth;
    let operand = operand.boxed(alloc)?;
    Ok(Measured {
        expr: Expr {
            at,
            form: Form::InstanceOf(operand, behind, class),
        },
        depth,
    })
}

/// `condition ? then : other`
pub fn choice(
    alloc: Global,
    condition: Measured,
    behind: Place,
    then: Measured,
    other: Measured,
) -> Result<Measured, AllocError>
    requires condition { condition.depth < 64 }
    requires then { then.depth < 64 }
    requires other { other.depth < 64 }
    ensures depth { IfOk result (λ m. m.depth ≡ 1 + max condition.depth (max then.depth other.depth)) }
    ensures made { IfOk result (λ m. expr_view m.expr
        ≡ syntax.Choose (place (expr_view condition.expr)) (expr_view condition.expr) behind (expr_view then.expr) (expr_view other.expr)) }
{
    let at = condition.expr.at;
    let depth = 1 + condition.depth.max(then.depth.max(other.depth));
    let condition = condition.boxed(alloc)?;
    let then = then.boxed(alloc)?;
    let other = other.boxed(alloc)?;
    Ok(Measured {
        expr: Expr {
            at,
            form: Form::Choose(condition, behind, then, other),
        },
        depth,
    })
}

/// `NAME(..)`
pub fn call(name: Word, arguments: Arguments) -> Measured
    requires { arguments.depth < 64 }
    ensures depth { result.depth ≡ 1 + arguments.depth }
    ensures made { expr_view result.expr ≡ syntax.Call name.at (string_bytes name.text) (to_exprs (map expr_view arguments.items.items)) }
{
    let depth = 1 + arguments.depth;
    Measured {
        expr: Expr {
            at: name.at,
            form: Form::Call(name.text, arguments.items),
        },
        depth,
    }
}

/// `RECEIVER.NAME(..)`
pub fn call_of(
    alloc: Global,
    receiver: Measured,
    name: Word,
    arguments: Arguments,
) -> Result<Measured, AllocError>
    requires receiver { receiver.depth < 64 }
    requires arguments { arguments.depth < 64 }
    ensures depth { IfOk result (λ m. m.depth ≡ 1 + max receiver.depth arguments.depth) }
    ensures made { IfOk result (λ m. expr_view m.expr
        ≡ syntax.CallOf (place (expr_view receiver.expr)) (expr_view receiver.expr) (string_bytes name.text)
        (to_exprs (map expr_view arguments.items.items))) }
{
    let at = receiver.expr.at;
    let depth = 1 + receiver.depth.max(arguments.depth);
    let receiver = receiver.boxed(alloc)?;
    Ok(Measured {
        expr: Expr {
            at,
            form: Form::CallOf(receiver, name.text, arguments.items),
        },
        depth,
    })
}

/// A fold over a list.
pub fn fold(
    alloc: Global,
    at: Place,
    form: FoldForm,
    name: Word,
    list: Measured,
    body: Measured,
) -> Result<Measured, AllocError>
    requires list { list.depth < 64 }
    requires body { body.depth < 64 }
    ensures depth { IfOk result (λ m. m.depth ≡ 1 + max list.depth body.depth) }
    ensures made { IfOk result (λ m. expr_view m.expr
        ≡ syntax.Fold at (fold_view form) (word_view name) (expr_view list.expr) (expr_view body.expr)) }
{
    let depth = 1 + list.depth.max(body.depth);
    let list = list.boxed(alloc)?;
    let body = body.boxed(alloc)?;
    Ok(Measured {
        expr: Expr {
            at,
            form: Form::Fold(form, name, list, body),
        },
        depth,
    })
}
