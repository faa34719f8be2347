//! A plain recursion over an equation, beside which trials are measured. It has no stack of its own, can't be put aside,
//! and notes no locations. Left out are calls of attributes, parameters, indices, texts, `&&` and `||`, classes, and the
//! folds that stop early.

ghost use Rattle.tries.specs.Worlds.{IsSound};

use crate::files::World;
use crate::refusal::Refusal;
use at_body::{Inst, Value};
use at_rules::{Body, Operator, Order};
use at_store::Node;

/// What the own equation of an instance comes to.
///
/// # Errors
///
/// There is none, it comes to a fault or to a value of another kind than is asked, or it has a form that is left out; or
/// want of memory.
pub fn plain(world: &World, inst: &Inst) -> Result<Value, Refusal>
    requires { IsSound world.now }
{
    let this = inst.node();
    let class = world.store.class(this);
    let Some(body) = world.rules.own_body(class, inst.attribute()) else {
        return Err(Refusal::NoValue);
    };
    let mut bound = Vec::new(world.alloc);
    value_of(body, world, this, &mut bound)
}

/// The value of an expression that stands at a node, below folds whose elements are bound. What a part comes to is passed
/// on as it is, so that no exit has a value to let go.
fn value_of(body: &Body, world: &World, this: Node, bound: &mut Vec<Node>) -> Result<Value, Refusal>
    requires { IsSound world.now }
{
    match body {
        Body::Int(n) => Ok(Value::Int(*n)),
        Body::Truth(b) => Ok(Value::Bool(*b)),
        Body::Null => Ok(Value::Ref(None)),
        Body::This => Ok(Value::Ref(Some(this))),
        Body::Name(position) => Ok(Value::Ref(bound_at(bound, *position))),
        Body::Negate(a) => {
            let number = int_of(value_of(a, world, this, bound))?;
            Ok(Value::Int(number.wrapping_neg()))
        }
        Body::Not(a) => Ok(Value::Bool(!truth_of(value_of(a, world, this, bound))?)),
        Body::Arithmetic(operator, a, b) => {
            let left = int_of(value_of(a, world, this, bound))?;
            computed(*operator, left, int_of(value_of(b, world, this, bound))?)
        }
        Body::Compare(order, a, b) => {
            let left = int_of(value_of(a, world, this, bound))?;
            Ok(holds(*order, left, int_of(value_of(b, world, this, bound))?))
        }
        Body::Choose(test, yes, no) => match truth_of(value_of(test, world, this, bound))? {
            true => value_of(yes, world, this, bound),
            false => value_of(no, world, this, bound),
        },
        Body::Child(a, part) => child(world, node_of(value_of(a, world, this, bound))?, *part),
        Body::TokenOf(a, part) => {
            let node = node_of(value_of(a, world, this, bound))?;
            Ok(Value::of_token(world.store.token(node, *part))?)
        }
        Body::Sum(a, part, b) => {
            let node = node_of(value_of(a, world, this, bound))?;
            let mut total = 0_i32;
            for element in world.store.children(node, *part) {
                bound.push(*element)?;
                total = total.wrapping_add(int_of(value_of(b, world, this, bound))?);
                let _ = bound.pop();
            }
            Ok(Value::Int(total))
        }
        _ => Err(Refusal::NoValue),
    }
}

/// The int that the value is.
#[inline(always)]
fn int_of(value: Result<Value, Refusal>) -> Result<i32, Refusal> {
    match value? {
        Value::Int(number) => Ok(number),
        _ => Err(Refusal::NoValue),
    }
}

/// The truth value that the value is.
#[inline(always)]
fn truth_of(value: Result<Value, Refusal>) -> Result<bool, Refusal> {
    match value? {
        Value::Bool(truth) => Ok(truth),
        _ => Err(Refusal::NoValue),
    }
}

/// The node that the value is.
#[inline(always)]
fn node_of(value: Result<Value, Refusal>) -> Result<Node, Refusal> {
    match value? {
        Value::Ref(Some(node)) => Ok(node),
        _ => Err(Refusal::NoValue),
    }
}

/// The node of a fold's name.
fn bound_at(bound: &[Node], position: usize) -> Option<Node> {
    bound.iter().rev().nth(position).copied()
}

/// What an operator gives.
fn computed(operator: Operator, left: i32, right: i32) -> Result<Value, Refusal> {
    match operator {
        Operator::Multiply => Ok(Value::Int(left.wrapping_mul(right))),
        Operator::Add => Ok(Value::Int(left.wrapping_add(right))),
        Operator::Subtract => Ok(Value::Int(left.wrapping_sub(right))),
        Operator::Divide => match right {
            0 => Err(Refusal::NoValue),
            divisor => Ok(Value::Int(left.wrapping_div(divisor))),
        },
        Operator::Remainder => match right {
            0 => Err(Refusal::NoValue),
            divisor => Ok(Value::Int(left.wrapping_rem(divisor))),
        },
    }
}

/// Whether the comparison holds.
fn holds(order: Order, left: i32, right: i32) -> Value {
    match order {
        Order::Below => Value::Bool(left < right),
        Order::AtMost => Value::Bool(left <= right),
        Order::Above => Value::Bool(right < left),
        Order::AtLeast => Value::Bool(right <= left),
    }
}

/// The child in a component.
fn child(world: &World, node: Node, part: usize) -> Result<Value, Refusal>
    requires { IsSound world.now }
{
    match world.store.child(node, part) {
        Some(child) => Ok(Value::Ref(Some(child))),
        None => Err(Refusal::NoValue),
    }
}
