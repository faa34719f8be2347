//! What is done with values in an evaluation in one go, by section 6 of the manual, and what is looked at for it.

ghost use Rattle.at_store.specs.Shown.{IsIdle};

use crate::rows::holds_at;
use crate::samples::{GRAMMAR, TREE};
use crate::stores::{classes, loaded};
use at_body::{Arguments, Binary, Fold, Reads, Stack, Value};
use at_evaluate::{Here, Next, Stop, asked_of_each, compare, settle, with_two};
use at_rules::{AttrId, Body, Operator};
use at_store::{Loc, Node, Store};
use std::alloc::Global;
use std::process::Abort;

/// Two ints, and what an operator gives for them; nothing where it gives up.
const INTS: &[(Operator, i32, i32, Option<i32>)] = &[
    (Operator::Add, 2147483647, 1, Some(-2147483648)),
    (Operator::Subtract, -2147483648, 1, Some(2147483647)),
    (Operator::Multiply, 65536, 65536, Some(0)),
    (Operator::Divide, -7, 2, Some(-3)),
    (Operator::Remainder, -7, 2, Some(-1)),
    (Operator::Remainder, 7, -2, Some(1)),
    (Operator::Divide, -2147483648, -1, Some(-2147483648)),
    (Operator::Remainder, -2147483648, -1, Some(0)),
    (Operator::Divide, 1, 0, None),
    (Operator::Remainder, 1, 0, None),
];

/// An index of the block's list, and the node there; nothing where it gives up.
const ELEMENTS: &[(i32, Option<u32>)] = &[(0, Some(2)), (1, Some(4)), (2, None), (-1, None)];

/// A node, a text, and whether its token is that text; nothing where the token is no text.
const TOKENS: &[(u32, &str, Option<bool>)] = &[
    (2, "x", Some(true)),
    (6, "x", Some(true)),
    (6, "y", Some(false)),
    (6, "", Some(false)),
    (7, "2", None),
];

/// The names that a call within a fold has for its receiver and for its argument, and whether it asks each element, passed what was passed.
const CALLS: &[(usize, usize, bool)] = &[(0, 1, true), (1, 1, false), (0, 0, false), (0, 2, false)];

/// The block of the calculator's tree.
const BLOCK: u32 = 1;

/// What two values give; nothing where it gives up.
fn given(
    rt: &impl Abort,
    store: &Store,
    reads: &mut Reads,
    binary: Binary,
    left: Value,
    right: &Value,
) -> Option<Value>
    requires { IsIdle store.now }
{
    match with_two(store, reads, binary, left, right) {
        Ok(value) => Some(value),
        Err(Stop::GivesUp) => None,
        Err(Stop::Memory) => panic!(rt; "no memory"),
    }
}

/// Each row of ints gives what it says.
fn look_at_ints(rt: &impl Abort, alloc: Global, store: &Store)
    requires { IsIdle store.now }
{
    let mut reads = Reads::new(alloc);
    for (row, (operator, left, right, wanted)) in INTS.iter().enumerate() {
        let binary = Binary::Arithmetic(*operator);
        let right = Value::Int(*right);
        let value = given(rt, store, &mut reads, binary, Value::Int(*left), &right);
        holds_at(rt, row, value == wanted.map(Value::Int));
    }
}

/// Each row of elements gives the node that it says, and the list alone is looked at for it.
fn look_at_elements(rt: &impl Abort, alloc: Global, store: &Store)
    requires { IsIdle store.now }
{
    let block = Node::new(BLOCK);
    for (row, (index, wanted)) in ELEMENTS.iter().enumerate() {
        let mut reads = Reads::new(alloc);
        let list = Value::Ref(Some(block));
        let at = Value::Int(*index);
        let value = given(rt, store, &mut reads, Binary::Element(0), list, &at);
        let wanted = match wanted {
            Some(number) => Some(Value::Ref(Some(Node::new(*number)))),
            None => None,
        };
        holds_at(rt, row, value == wanted);
        holds_at(
            rt,
            row,
            reads.as_slice() == [Loc::Slot(block, 0)].as_slice(),
        );
    }
}

/// What the first token of a node tells beside a text, and how much was looked at.
fn told(
    rt: &impl Abort,
    alloc: Global,
    store: &Store,
    node: Node,
    text: &str,
) -> (Option<Value>, usize)
    requires { IsIdle store.now }
{
    let here = Here {
        this: node,
        child: None,
        bound: Stack::new(alloc),
        arguments: Arguments::none(),
    };
    let mut reads = Reads::new(alloc);
    let this = Box::new(alloc, Body::This).ok().expect(rt, "memory");
    let token = Body::TokenOf(this, 0);
    let text = Body::Text(String::from_str(alloc, text).expect(rt, "memory"));
    match compare(&here, store, &mut reads, &Binary::Equals, &token, &text) {
        Ok(told) => (told, reads.len()),
        Err(_) => panic!(rt; "gives up"),
    }
}

/// Each row of tokens is compared as it says, and the token alone is looked at for it.
fn look_at_tokens(rt: &impl Abort, alloc: Global, store: &Store)
    requires { IsIdle store.now }
{
    for (row, (node, text, wanted)) in TOKENS.iter().enumerate() {
        let looked = if wanted.is_some() { 1 } else { 0 };
        let (value, reads) = told(rt, alloc, store, Node::new(*node), text);
        holds_at(rt, row, value == wanted.map(Value::Bool) && reads == looked);
    }
}

/// A call of an attribute within a fold, by the names of its receiver and of its argument.
fn call(rt: &impl Abort, alloc: Global, receiver: usize, argument: usize) -> Body {
    let mut passed = Vec::new(alloc);
    passed.push(Body::Name(argument)).ok().expect(rt, "memory");
    let receiver = Box::new(alloc, Body::Name(receiver)).ok();
    Body::Call(receiver.expect(rt, "memory"), AttrId::new(0), passed)
}

/// A place outside of all folds, where one value was passed.
fn passed_one(rt: &impl Abort, alloc: Global) -> Here {
    let mut values = Vec::new(alloc);
    values.push(Value::Bool(true)).ok().expect(rt, "memory");
    Here {
        this: Node::new(BLOCK),
        child: None,
        bound: Stack::new(alloc),
        arguments: Arguments::of(values).ok().expect(rt, "memory"),
    }
}

/// Each row of calls asks each element, or doesn't, as it says.
fn look_at_calls(rt: &impl Abort, alloc: Global) {
    let here = passed_one(rt, alloc);
    for (row, (receiver, argument, wanted)) in CALLS.iter().enumerate() {
        let body = call(rt, alloc, *receiver, *argument);
        holds_at(rt, row, asked_of_each(&here, &body).is_some() == *wanted);
    }
}

#[test]
fn values_are_as_the_rows_tell(rt: HostRuntime) {
    let classes = classes(&rt, rt.alloc(), GRAMMAR);
    let store = loaded(&rt, rt.alloc(), &classes, TREE);
    look_at_ints(&rt, rt.alloc(), &store);
    look_at_elements(&rt, rt.alloc(), &store);
    look_at_tokens(&rt, rt.alloc(), &store);
    look_at_calls(&rt, rt.alloc());
}

#[test]
fn a_fold_ends_where_its_test_holds(rt: HostRuntime) {
    let node = Node::new(BLOCK);
    let first = settle(Fold::First, node, &Value::Bool(true));
    assert!(rt; matches!(first, Ok(Next::End(Value::Ref(Some(it)))) if it == node));
    let exists = settle(Fold::Exists, node, &Value::Bool(false));
    assert!(rt; matches!(exists, Ok(Next::On(Fold::Exists))));
    let sum = settle(Fold::Sum(2147483647), node, &Value::Int(1));
    assert!(rt; matches!(sum, Ok(Next::On(Fold::Sum(-2147483648)))));
    let other = settle(Fold::Exists, node, &Value::Int(1));
    assert!(rt; matches!(other, Err(Stop::GivesUp)));
}
