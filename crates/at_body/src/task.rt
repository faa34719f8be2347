//! What is left to do for a formula.

use super::candidates::Candidates;
use super::inst::Inst;
use super::todo::Asking;
use super::value::{FaultKind, Value};
use at_rules::{AttrId, Body, Lookup};
use at_store::Node;

/// What the value of an expression is for, in a place that is positive, or (false) that is not.
#[derive(Drop)]
pub enum Purpose<'a> {
    /// It is the formula, as it is, or turned.
    Formula(bool),
    /// It chooses one of these, whose formula follows.
    Choose(bool, &'a Body, &'a Body),
    /// It is the receiver of a call that is left in the formula; the arguments follow.
    Arguments(AttrId, &'a [Body]),
    /// It is an argument of this call, behind those that are there; others follow.
    Argument(Box<Asking>, &'a [Body]),
    /// It is the node over whose elements in a component it is asked whether there is one.
    Elements(bool, usize, &'a Body),
    /// It is the node over those of whose elements it is asked whether there is one that are looked for.
    Under(bool, &'a Lookup, &'a Body),
}

/// What is left to do with a formula.
#[derive(Drop)]
pub enum Task<'a> {
    /// It is the left side, of both or (false) of either; the right side follows, as it is, or turned.
    Right(bool, bool, &'a Body),
    /// It is the right side, of both or (false) of either.
    Join(bool),
    /// It is that of one element; others follow.
    Element(bool, &'a Body, &'a [Node]),
    /// It is that of one element; others that stand under the mark follow.
    Among(bool, u32, &'a Body, Box<Candidates<'a>>),
}

/// What is done next for a formula.
#[derive(Drop)]
pub enum Doing<'a> {
    /// The formula of the expression, or (false) of its negation.
    Form(bool, &'a Body),
    /// The value of the expression, for that.
    Evaluate(Purpose<'a>, &'a Body),
    /// That with the value.
    Use(Purpose<'a>, Value),
    /// What is left to do with the formula on top.
    Made,
    Fail(FaultKind),
    /// It waits for the value of the instance, for that.
    Wait(Purpose<'a>, Inst),
}
