//! What statements mean, as it is put together from behind.

ghost use Rattle.std.specs.Prelude.{◌≡◌, IfOk, None};
ghost use Rattle.at_text.specs.declared.fault.Failure.TheVariants.{For};
ghost use Rattle.at_jrag.specs.View.{expr_view};
ghost use Rattle.at_java.specs.Refusals.{Tells, boxed_view};
ghost use Rattle.at_java.specs.Rests.{rest_view, rest_meant};
ghost use Rattle.at_java.specs.declared.reader.Breach.TheVariants.{At};
ghost use Rattle.at_java.specs.Rewriting.{Means, within, chosen, closed};

use super::copying::copied;
use super::counting::forms;
use crate::JavaCode;
use crate::reader::{Breach, ReadFault};
use at_jrag::{Expr, Form};
use at_text::place::Place;
use std::alloc::{AllocError, Global};

/// The most forms of an expression that a body means.
const MOST_FORMS: usize = 4096;

/// What statements mean: an expression, or nothing where their end can be reached.
pub struct Rest {
    pub expr: Option<Box<Expr>>,
}

/// One call, where each exit that lets it go would else have a case for each form.
impl Drop for Rest {
    fn drop(self) {
        let Rest { expr: _ } = self;
    }
}

/// A fault at this place.
pub fn refused(code: JavaCode, at: Place) -> ReadFault
    ensures { result ≡ For (At code at) }
{
    ReadFault::For(Breach::At(code, at))
}

/// The expression that came to be at this statement, unless it has too many forms.
pub fn within(at: Place, expr: Box<Expr>) -> Result<Rest, ReadFault>
    ensures { Tells rest_meant (within at (boxed_view expr)) result }
{
    if forms(&expr) > MOST_FORMS {
        return Err(refused(JavaCode::Limit, at));
    }
    Ok(Rest { expr: Some(expr) })
}

impl Rest {
    /// What the end of statements means.
    pub fn end() -> Rest
        ensures { rest_view result ≡ None }
    {
        Rest { expr: None }
    }

    /// The expression, if there is one.
    pub fn into_expr(self) -> Option<Box<Expr>>
        ensures { result ≡ self.expr }
    {
        let Rest { expr } = self;
        expr
    }

    /// The same once more.
    pub fn copied(&self, alloc: Global) -> Result<Rest, AllocError>
        ensures { IfOk result (λ r. rest_view r ≡ rest_view self.now) }
    {
        match &self.expr {
            None => Ok(Rest::end()),
            Some(expr) => Ok(Rest {
                expr: Some(copied(alloc, expr)?),
            }),
        }
    }

    /// What a body means that ends here.
    pub fn closed(self, end: Place) -> Result<Expr, ReadFault>
        ensures { Tells (λ e. Means (expr_view e)) (closed end (rest_meant self)) result }
    {
        match self.into_expr() {
            None => Err(refused(JavaCode::NoValue, end)),
            Some(expr) => Ok(Box::into_inner(expr)),
        }
    }
}

/// The condition at this place, in front of what its ways mean.
pub fn chosen(
    alloc: Global,
    at: Place,
    condition: &Expr,
    then: Rest,
    other: Rest,
) -> Result<Rest, ReadFault>
    ensures { Tells rest_meant (chosen at (expr_view condition.now) (rest_view then) (rest_view other)) result }
{
    let Some(then) = then.into_expr() else {
        return Ok(Rest::end());
    };
    let Some(other) = other.into_expr() else {
        return Ok(Rest::end());
    };
    let condition = copied(alloc, condition)?;
    let form = Form::Choose(condition, at, then, other);
    within(at, Box::new(alloc, Expr { at, form })?)
}
