//! What is left to do.

use super::arguments::Arguments;
use super::candidates::Candidates;
use super::value::{FaultKind, Value};
use at_class::ClassId;
use at_rules::{AttrId, Body, Lookup, Operator, Order};
use at_store::Node;

/// What is done with one value.
#[derive(Clone, Copy)]
pub enum Unary {
    Negate,
    Not,
    InstanceOf(ClassId),
    CastTo(ClassId),
    Child(usize),
    Count(usize),
    Has(usize),
    Token(usize),
    /// It was computed, and is passed.
    Passed,
}

/// What is done with two values, the left one and then the right one.
#[derive(Clone, Copy)]
pub enum Binary {
    Arithmetic(Operator),
    Compare(Order),
    Join,
    JoinInt,
    Same,
    Differ,
    Equals,
    Element(usize),
}

/// A fold under way, and for a sum the sum up to there.
#[derive(Drop)]
pub enum Fold {
    Exists,
    First,
    Sum(i32),
}

/// A fold over those elements alone that are looked for.
#[derive(Clone, Copy)]
pub enum Search {
    Any,
    First,
}

impl Search {
    ghost use Rattle.std.specs.Prelude.{◌≡◌};
    ghost use Rattle.at_body.specs.Seeking.{fold_of};

    /// The fold.
    pub(crate) fn fold(&self) -> Fold
        ensures { result ≡ fold_of self.now }
    {
        match self {
            Search::Any => Fold::Exists,
            Search::First => Fold::First,
        }
    }
}

/// A call of an attribute, with the arguments that are there.
#[derive(Drop)]
pub struct Asking {
    pub(crate) attribute: AttrId,
    pub(crate) node: Option<Node>,
    pub(crate) done: Vec<Value>,
}

/// What is left to do with the value of an expression.
#[derive(Drop)]
pub enum Todo<'a> {
    /// Do this with it.
    Use(Unary),
    /// It is the left value; the right operand follows.
    Right(Binary, &'a Body),
    /// It is the right value.
    Apply(Binary, Value),
    And(&'a Body),
    Or(&'a Body),
    Choose(&'a Body, &'a Body),
    /// It is the receiver; the arguments follow.
    Arguments(AttrId, &'a [Body]),
    /// It is an argument of this call, behind those that are there; others follow.
    Argument(Box<Asking>, &'a [Body]),
    /// It is the node over the elements of which the fold goes.
    Elements(Fold, usize, &'a Body),
    /// It is what the fold's expression gives at this element; others follow.
    Element(Fold, &'a Body, Node, &'a [Node]),
    /// It is the node over those elements of which the search goes that are looked for.
    Under(Search, &'a Lookup, &'a Body),
    /// It is what the search's expression gives at the element that was bound last; others that stand under the mark follow.
    Among(Search, u32, &'a Body, Candidates<'a>),
}

/// What an evaluation does next.
#[derive(Drop)]
pub enum Now<'a> {
    Enter(&'a Body),
    Back(Value),
    Fail(FaultKind),
    /// It demands this attribute of the node, with these arguments.
    Ask(AttrId, Node, Arguments),
}
