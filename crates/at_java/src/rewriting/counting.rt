//! Expressions, counted by their forms.

ghost use Rattle.std.specs.Prelude.{◌≡◌, map, min, not, nat_eq};
ghost use Rattle.at_jrag.specs.Syntax.{to_exprs};
ghost use Rattle.at_jrag.specs.View.{expr_view};
ghost use Rattle.at_java.specs.Naming.{counted, counted_all, forms, folds};

use at_jrag::{Expr, Form};

/// How many forms the expression has, or the greatest number where it has more.
pub fn forms(expr: &Expr) -> usize
    ensures { result ≡ min (forms (expr_view expr.now)) usize.MAX }
{
    let weights = Weights { fold: 1, other: 1 };
    weights.expr(expr)
}

/// Whether a fold stands in the expression.
pub fn has_fold(expr: &Expr) -> bool
    ensures { result ≡ not (nat_eq (folds (expr_view expr.now)) 0) }
{
    let weights = Weights { fold: 1, other: 0 };
    weights.expr(expr) != 0
}

/// How much a form counts: a fold, and any other.
#[derive(Clone, Copy)]
struct Weights {
    fold: usize,
    other: usize,
}

impl Weights {
    /// What the forms of the expression count, or the greatest number where that is more.
    #[cycle(counted)]
    fn expr(self, expr: &Expr) -> usize
        ensures { result ≡ min (counted self.fold self.other (expr_view expr.now)) usize.MAX }
    {
        match &expr.form {
            Form::Number(_) => self.other,
            Form::Text(_) => self.other,
            Form::Truth(_) => self.other,
            Form::Null => self.other,
            Form::This => self.other,
            Form::Name(_) => self.other,
            Form::Call(_, arguments) => self.other.saturating_add(self.list(arguments)),
            Form::CallOf(receiver, _, arguments) => self
                .other
                .saturating_add(self.expr(receiver))
                .saturating_add(self.list(arguments)),
            Form::Paren(inner) => self.other.saturating_add(self.expr(inner)),
            Form::Negate(inner) => self.other.saturating_add(self.expr(inner)),
            Form::Not(inner) => self.other.saturating_add(self.expr(inner)),
            Form::Cast(_, inner) => self.other.saturating_add(self.expr(inner)),
            Form::InstanceOf(inner, _, _) => self.other.saturating_add(self.expr(inner)),
            Form::Binary(_, left, right) => self
                .other
                .saturating_add(self.expr(left))
                .saturating_add(self.expr(right)),
            Form::Choose(test, _, left, right) => self
                .other
                .saturating_add(self.expr(test))
                .saturating_add(self.expr(left))
                .saturating_add(self.expr(right)),
            Form::Fold(_, _, list, body) => self
                .fold
                .saturating_add(self.expr(list))
                .saturating_add(self.expr(body)),
        }
    }

    /// What the forms of the expressions count together, or the greatest number where that is more.
    #[cycle(counted)]
    fn list(self, exprs: &[Expr]) -> usize
        ensures { result ≡ min (counted_all self.fold self.other (to_exprs (map expr_view exprs.now))) usize.MAX }
    {
        let mut count: usize = 0;
        for expr in exprs {
            count = count.saturating_add(self.expr(expr));
        }
        count
    }
}
