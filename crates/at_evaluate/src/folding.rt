//! What a fold does with the value of its expression at an element, in an evaluation in one go.

ghost use Rattle.std.specs.Prelude.{◌≡◌, IfOk, List, cond, false, true, ℕ};
ghost use Rattle.std.specs.Int.{int_wrapping_add, w32};
ghost use Rattle.at_model.specs.Bodies.{Expr, int_of};
ghost use Rattle.at_model.specs.Classes.{Classes};
ghost use Rattle.at_body.specs.Rest.{settled};
ghost use Rattle.at_body.specs.Standing.{Place};
ghost use Rattle.at_body.specs.ValueKinds.{IsInt};
ghost use Rattle.at_body.specs.Values.{value_view};
ghost use Rattle.at_body.specs.declared.todo.Fold.TheVariants.{Sum};
ghost use Rattle.at_evaluate.specs.Parts.{next_of, or_truth};

use crate::applying::{is_int, truth_in};
use crate::stop::Stop;
use at_body::{Fold, Value};
use at_rules::Body;
use at_store::Node;

/// A fold goes on at the next element, or has come to its value.
#[derive(Drop)]
pub enum Next {
    /// With what it has come to so far.
    On(Fold),
    /// With its value.
    End(Value),
}

/// What a fold does with the value of its expression at a node: it ends where a test holds, and sums on. Gives up at a value of another kind.
pub fn settle(fold: Fold, node: Node, value: &Value) -> Result<Next, Stop>
    ensures { (classes : Classes) (e : Expr) (p : Place) (ns : List ℕ)
        → IfOk result (λ next. settled classes fold e p node ns (value_view value.now) ≡ next_of classes e p ns next) }
{
    match fold {
        Fold::Exists => {
            if truth_in(value)? {
                return Ok(Next::End(Value::Bool(true)));
            }
            Ok(Next::On(Fold::Exists))
        }
        Fold::First => {
            if truth_in(value)? {
                return Ok(Next::End(Value::Ref(Some(node))));
            }
            Ok(Next::On(Fold::First))
        }
        Fold::Sum(total) => {
            if is_int(value) {
                return Ok(Next::On(sum(&total, value)));
            }
            Err(Stop::GivesUp)
        }
    }
}

// A sum with one int more; it wraps.
fn sum(total: &i32, value: &Value) -> Fold
    requires { IsInt (value_view value.now) }
    ensures { result ≡ Sum (int_wrapping_add w32 total.now (int_of (value_view value.now))) }
{
    Fold::Sum(total.wrapping_add(value.int()))
}

/// The expression that a truth value chooses: `yes` where it holds, else `no`; none where there is none, and then that truth value is the value.
pub fn chosen<'b>(is: bool, yes: Option<&'b Body>, no: Option<&'b Body>) -> Option<&'b Body>
    ensures { (classes : Classes) (p : Place)
        → or_truth classes p result is ≡ cond is (or_truth classes p yes.entry true) (or_truth classes p no.entry false) }
{
    if is {
        return yes;
    }
    no
}
