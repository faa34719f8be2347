//! Expressions whose value is at hand, and elements of a fold whose value needs no evaluation of its own.

ghost use Rattle.std.specs.Prelude.{◌≡◌, ℕ, IfOk, IfSome, IsTrue, OnOk, false, nat_eq};
ghost use Rattle.at_model.specs.Bodies.{Name, This, TokenOf};
ghost use Rattle.at_model.specs.Classes.{Classes};
ghost use Rattle.at_model.specs.Rules.{evaluation, is_inherited};
ghost use Rattle.at_model.specs.Run.{Gives, Text};
ghost use Rattle.at_store.specs.Shown.{IsIdle, contents};
ghost use Rattle.at_rules.specs.Bodies.{body_view};
ghost use Rattle.at_body.specs.Comparing.{IsComparison};
ghost use Rattle.at_body.specs.Rest.{ev};
ghost use Rattle.at_body.specs.Standing.{Place};
ghost use Rattle.at_body.specs.Values.{value_view};
ghost use Rattle.at_evaluate.specs.Looking.{MayHaveLooked};
ghost use Rattle.at_evaluate.specs.Near.{AsksEach, MayHaveEntered, asked, entered, own_place};
ghost use Rattle.at_evaluate.specs.Parts.{two_of};
ghost use Rattle.at_evaluate.specs.Place.{place_at};

use crate::comparing::{argument_text, is_same, near};
use crate::form::{Form, form_of};
use crate::here::{Here, are_names};
use crate::stop::Stop;
use at_body::{Arguments, Binary, Reads, Value, look_at, tells, token_text};
use at_rules::{AttrId, Body, Rules};
use at_store::{Loc, Node, Store};

/// The attribute for which the expression of a fold here asks each element, where it hands on just what was passed here. None of others.
pub fn asked_of_each(here: &Here, body: &Body) -> Option<AttrId>
    ensures { IfSome result (λ attribute. AsksEach (place_at here.now) body.now attribute) }
{
    match form_of(body) {
        Form::Call(receiver, attribute, passed) => {
            if !is_element(receiver) {
                return None;
            }
            let bound = here.bound.len().checked_add(1)?;
            if !are_names(passed, bound, here.arguments.as_slice()) {
                return None;
            }
            Some(attribute)
        }
        _ => None,
    }
}

// Whether the expression is the element of the innermost fold.
fn is_element(body: &Body) -> bool
    ensures { IsTrue result → body_view body.now ≡ Name 0 }
{
    match body {
        Body::Name(position) => *position == 0,
        _ => false,
    }
}

/// The value of an attribute of a node that isn't inherited, passed these arguments, where its equation is a literal, or compares a token of the
/// node with a literal or an argument: then what its evaluation looks at is noted. None of others, and of a token that is no text: then
/// nothing is noted. An error where memory is wanting.
pub fn plain_value(
    rules: &Rules,
    store: &Store,
    reads: &mut Reads,
    arguments: &Arguments,
    node: Node,
    attribute: AttrId,
) -> Result<Option<Value>, Stop>
    requires idle { IsIdle store.now }
    requires own { is_inherited rules.now attribute ≡ false }
    ensures { IfOk result (MayHaveLooked (contents store.now) reads.old reads.new (evaluation rules.now nat_eq (asked node attribute arguments.now))) }
{
    let Some(body) = rules.own_body(store.class(node), attribute) else {
        return Ok(None);
    };
    at_once(store, reads, node, arguments.as_slice(), body)
}

// The value of the body of an equation of the node itself, where that needs no evaluation; the classes that one begins with are noted then.
#[inline(always)]
fn at_once(
    store: &Store,
    reads: &mut Reads,
    node: Node,
    arguments: &[Value],
    body: &Body,
) -> Result<Option<Value>, Stop>
    requires idle { IsIdle store.now }
    ensures { (classes : Classes) → IfOk result (MayHaveEntered (contents store.now) reads.old reads.new node arguments.now
        (ev classes (body_view body.now) (own_place node arguments.now))) }
{
    if let Some(value) = literal(body) {
        enter(reads, node, arguments)?;
        return Ok(Some(value));
    }
    match form_of(body) {
        Form::Compared(comparison, left, right) => {
            compared(store, reads, node, arguments, &comparison, left, right)
        }
        _ => Ok(None),
    }
}

/// The value of `this`, of an element of a fold, and of a literal that is no text. None of other expressions.
#[inline(always)]
pub fn at_hand(here: &Here, body: &Body) -> Option<Value>
    ensures { IfSome result (λ v. (classes : Classes) → ev classes (body_view body.now) (place_at here.now) ≡ Gives (value_view v)) }
{
    match near(here, body) {
        Some(node) => Some(Value::Ref(Some(node))),
        None => literal(body),
    }
}

// The value of an int, a truth value or null that is written there.
#[inline(always)]
fn literal(body: &Body) -> Option<Value>
    ensures { IfSome result (λ v. (classes : Classes) (p : Place) → ev classes (body_view body.now) p ≡ Gives (value_view v)) }
{
    match body {
        Body::Int(n) => Some(Value::Int(*n)),
        Body::Truth(truth) => Some(Value::Bool(*truth)),
        Body::Null => Some(Value::Ref(None)),
        _ => None,
    }
}

// What the comparison of a token of the node with a literal or an argument tells.
fn compared(
    store: &Store,
    reads: &mut Reads,
    node: Node,
    arguments: &[Value],
    comparison: &Binary,
    left: &Body,
    right: &Body,
) -> Result<Option<Value>, Stop>
    requires idle { IsIdle store.now }
    requires comparison { IsComparison comparison.now }
    ensures { (classes : Classes) → IfOk result (MayHaveEntered (contents store.now) reads.old reads.new node arguments.now
        (two_of classes (own_place node arguments.now) comparison.now left.now right.now)) }
{
    let Some(part) = own_token(left) else {
        return Ok(None);
    };
    let Some(text) = lent(arguments, right) else {
        return Ok(None);
    };
    let Some(own) = token_text(store, node, part) else {
        return Ok(None);
    };
    enter(reads, node, arguments)?;
    reads.push(Loc::Tok(node, part))?;
    Ok(Some(Value::Bool(tells(comparison, is_same(own, text)))))
}

// Notes the class of the node, and those of the nodes among the arguments.
#[inline(always)]
pub(crate) fn enter(reads: &mut Reads, node: Node, arguments: &[Value]) -> Result<(), Stop>
    ensures { OnOk result (reads.new ≡ entered reads.old node arguments.now) }
{
    reads.push(Loc::Is(node))?;
    look_at(arguments, reads)?;
    Ok(())
}

// The component of a token of `this`.
pub(crate) fn own_token(body: &Body) -> Option<usize>
    ensures { IfSome result (λ part. body_view body.now ≡ TokenOf This part) }
{
    match body {
        Body::TokenOf(node, part) => token_of_this(node, *part),
        _ => None,
    }
}

// The component, where the node is `this`.
fn token_of_this(node: &Body, part: usize) -> Option<usize>
    ensures { IfSome result (λ p. TokenOf (body_view node.now) part ≡ TokenOf This p) }
{
    match node {
        Body::This => Some(part),
        _ => None,
    }
}

// The text of a literal, or of an argument outside of all folds.
pub(crate) fn lent<'s>(arguments: &'s [Value], body: &'s Body) -> Option<&'s str>
    ensures { IfSome result (λ text. (classes : Classes) (node : ℕ)
        → ev classes (body_view body.now) (own_place node arguments.now) ≡ Gives (Text text.now)) }
{
    match body {
        Body::Text(text) => Some(text.as_str()),
        Body::Name(position) => argument_text(arguments, *position),
        _ => None,
    }
}
