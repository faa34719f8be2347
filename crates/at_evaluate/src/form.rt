//! An expression by its parts, and what is done with their values.

ghost use Rattle.std.specs.Prelude.{◌≡◌};
ghost use Rattle.at_model.specs.Classes.{Classes};
ghost use Rattle.at_rules.specs.Bodies.{body_view};
ghost use Rattle.at_body.specs.Rest.{ev};
ghost use Rattle.at_body.specs.Standing.{Place};
ghost use Rattle.at_evaluate.specs.Forms.{Compares, run_of};

use at_body::{Binary, Fold, Unary};
use at_rules::{AttrId, Body, Lookup};

/// An expression by its parts.
#[derive(Drop)]
pub enum Form<'b> {
    /// What is done with the value of an operand.
    One(Unary, &'b Body),
    /// What is done with the values of two operands.
    Two(Binary, &'b Body, &'b Body),
    /// The comparison of the values of two operands.
    Compared(Binary, &'b Body, &'b Body),
    /// A test, with the expressions of which it chooses one; where there is none, what the test is.
    Either(&'b Body, Option<&'b Body>, Option<&'b Body>),
    /// An attribute of the node that a receiver is, with arguments.
    Call(&'b Body, AttrId, &'b [Body]),
    /// A fold over the elements in a component of the node that an expression is.
    Over(Fold, &'b Body, usize, &'b Body),
    /// A fold over those elements of the node that an expression is that are looked for.
    Under(Fold, &'b Body, &'b Lookup, &'b Body),
    /// It has no parts.
    Plain,
}

/// An expression by its parts.
#[inline(always)]
pub fn form_of(body: &Body) -> Form<'_>
    ensures means { (classes : Classes) (p : Place) → ev classes (body_view body.now) p ≡ run_of classes p body.now result }
    ensures compares { Compares result }
{
    match body {
        Body::Negate(a) => Form::One(Unary::Negate, a),
        Body::Not(a) => Form::One(Unary::Not, a),
        Body::InstanceOf(a, class) => Form::One(Unary::InstanceOf(*class), a),
        Body::CastTo(class, a) => Form::One(Unary::CastTo(*class), a),
        Body::Child(a, part) => Form::One(Unary::Child(*part), a),
        Body::Count(a, part) => Form::One(Unary::Count(*part), a),
        Body::Has(a, part) => Form::One(Unary::Has(*part), a),
        Body::TokenOf(a, part) => Form::One(Unary::Token(*part), a),
        Body::Passed(a) => Form::One(Unary::Passed, a),
        Body::Arithmetic(o, a, b) => Form::Two(Binary::Arithmetic(*o), a, b),
        Body::Compare(o, a, b) => Form::Two(Binary::Compare(*o), a, b),
        Body::Join(a, b) => Form::Two(Binary::Join, a, b),
        Body::JoinInt(a, b) => Form::Two(Binary::JoinInt, a, b),
        Body::Same(a, b) => Form::Compared(Binary::Same, a, b),
        Body::Differ(a, b) => Form::Compared(Binary::Differ, a, b),
        Body::Equals(a, b) => Form::Compared(Binary::Equals, a, b),
        Body::Element(a, part, b) => Form::Two(Binary::Element(*part), a, b),
        Body::And(a, b) => Form::Either(a, Some(b), None),
        Body::Or(a, b) => Form::Either(a, None, Some(b)),
        Body::Choose(a, b, d) => Form::Either(a, Some(b), Some(d)),
        Body::Call(a, attribute, passed) => Form::Call(a, *attribute, passed),
        Body::Exists(a, part, b) => Form::Over(Fold::Exists, a, *part, b),
        Body::First(a, part, b) => Form::Over(Fold::First, a, *part, b),
        Body::Sum(a, part, b) => Form::Over(Fold::Sum(0), a, *part, b),
        Body::SeekAny(a, lookup, b) => Form::Under(Fold::Exists, a, lookup, b),
        Body::SeekFirst(a, lookup, b) => Form::Under(Fold::First, a, lookup, b),
        _ => Form::Plain,
    }
}
