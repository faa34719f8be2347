//! Expressions made of their parts.

ghost use Rattle.std.specs.Prelude.{◌≡◌, IfOk, map, string_bytes};
ghost use Rattle.at_jrag.specs.Syntax as syntax;
ghost use Rattle.at_jrag.specs.Syntax.{place, to_exprs};
ghost use Rattle.at_jrag.specs.View.{expr_view, form_view, operator_view, fold_view, word_view};

use at_jrag::{Expr, FoldForm, Form, OperatorWord, Word};
use at_text::place::Place;
use std::alloc::{AllocError, Global};

/// A form without parts.
pub fn leaf(at: Place, form: Form) -> Expr
    ensures { expr_view result ≡ form_view form at }
{
    Expr { at, form }
}

/// `(E)`
pub fn parenthesized(alloc: Global, at: Place, inner: Expr) -> Result<Expr, AllocError>
    ensures { IfOk result (λ e. expr_view e ≡ syntax.Paren at (expr_view inner)) }
{
    let inner = Box::new(alloc, inner)?;
    Ok(Expr {
        at,
        form: Form::Paren(inner),
    })
}

/// `-E`
pub fn negated(alloc: Global, at: Place, operand: Expr) -> Result<Expr, AllocError>
    ensures { IfOk result (λ e. expr_view e ≡ syntax.Negate at (expr_view operand)) }
{
    let operand = Box::new(alloc, operand)?;
    Ok(Expr {
        at,
        form: Form::Negate(operand),
    })
}

/// `!E`
pub fn inverted(alloc: Global, at: Place, operand: Expr) -> Result<Expr, AllocError>
    ensures { IfOk result (λ e. expr_view e ≡ syntax.Not at (expr_view operand)) }
{
    let operand = Box::new(alloc, operand)?;
    Ok(Expr {
        at,
        form: Form::Not(operand),
    })
}

/// `(CLASS) E`
pub fn cast(alloc: Global, at: Place, class: Word, operand: Expr) -> Result<Expr, AllocError>
    ensures { IfOk result (λ e. expr_view e ≡ syntax.Cast at (word_view class) (expr_view operand)) }
{
    let operand = Box::new(alloc, operand)?;
    Ok(Expr {
        at,
        form: Form::Cast(class, operand),
    })
}

/// `LEFT OPERATOR RIGHT`
pub fn operation(
    alloc: Global,
    left: Expr,
    operator: OperatorWord,
    right: Expr,
) -> Result<Expr, AllocError>
    ensures { IfOk result (λ e. expr_view e
        ≡ syntax.Binary (place (expr_view left)) (operator_view operator.operator) operator.at (expr_view left) (expr_view right)) }
{
    let at = left.at;
    let left = Box::new(alloc, left)?;
    let right = Box::new(alloc, right)?;
    Ok(Expr {
        at,
        form: Form::Binary(operator, left, right),
    })
}

/// `OPERAND instanceof CLASS`
pub fn instance_of(
    alloc: Global,
    operand: Expr,
    behind: Place,
    class: Word,
) -> Result<Expr, AllocError>
    ensures { IfOk result (λ e. expr_view e ≡ syntax.InstanceOf (place (expr_view operand)) (expr_view operand) behind (word_view class)) }
{
    let at = operand.at;
    let operand = Box::new(alloc, operand)?;
    Ok(Expr {
        at,
        form: Form::InstanceOf(operand, behind, class),
    })
}

/// `CONDITION ? THEN : OTHER`
pub fn choice(
    alloc: Global,
    condition: Expr,
    behind: Place,
    then: Expr,
    other: Expr,
) -> Result<Expr, AllocError>
    ensures { IfOk result (λ e. expr_view e
        ≡ syntax.Choose (place (expr_view condition)) (expr_view condition) behind (expr_view then) (expr_view other)) }
{
    let at = condition.at;
    let condition = Box::new(alloc, condition)?;
    let then = Box::new(alloc, then)?;
    let other = Box::new(alloc, other)?;
    Ok(Expr {
        at,
        form: Form::Choose(condition, behind, then, other),
    })
}

/// `NAME(..)`
pub fn call(name: Word, arguments: Vec<Expr>) -> Expr
    ensures { expr_view result ≡ syntax.Call name.at (string_bytes name.text) (to_exprs (map expr_view arguments.items)) }
{
    Expr {
        at: name.at,
        form: Form::Call(name.text, arguments),
    }
}

/// `RECEIVER.NAME(..)`
pub fn call_of(
    alloc: Global,
    receiver: Expr,
    name: Word,
    arguments: Vec<Expr>,
) -> Result<Expr, AllocError>
    ensures { IfOk result (λ e. expr_view e
        ≡ syntax.CallOf (place (expr_view receiver)) (expr_view receiver) (string_bytes name.text) (to_exprs (map expr_view arguments.items))) }
{
    let at = receiver.at;
    let receiver = Box::new(alloc, receiver)?;
    Ok(Expr {
        at,
        form: Form::CallOf(receiver, name.text, arguments),
    })
}

/// A fold over a list.
pub fn fold(
    alloc: Global,
    at: Place,
    form: FoldForm,
    name: Word,
    list: Expr,
    body: Expr,
) -> Result<Expr, AllocError>
    ensures { IfOk result (λ e. expr_view e ≡ syntax.Fold at (fold_view form) (word_view name) (expr_view list) (expr_view body)) }
{
    let list = Box::new(alloc, list)?;
    let body = Box::new(alloc, body)?;
    Ok(Expr {
        at,
        form: Form::Fold(form, name, list, body),
    })
}
