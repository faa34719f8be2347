//! The bodies of equations, and the kinds of their values.

use crate::attribute::AttrId;
use at_class::{ClassId, Key};

/// The operators on two ints that give an int.
#[derive(Clone, Copy, Debug, PartialEq, Eq)]
pub enum Operator {
    Multiply,
    Divide,
    Remainder,
    Add,
    Subtract,
}

/// The operators on two ints that give a truth value.
#[derive(Clone, Copy, Debug, PartialEq, Eq)]
pub enum Order {
    Below,
    AtMost,
    Above,
    AtLeast,
}

/// The kinds of values. A class kind has null and the nodes of the class and of every class below.
#[derive(Clone, Copy, Debug, PartialEq, Eq)]
pub enum Kind {
    Int,
    Bool,
    Text,
    Class(ClassId),
}

/// A text that elements are looked for by: a literal, or what a name stands for.
#[derive(Drop)]
pub enum Sought {
    Text(String),
    Name(usize),
}

/// Which elements of a list are looked for: those of the component that stand under the mark of the text.
#[derive(Drop)]
pub struct Lookup {
    pub part: u8,
    pub key: Key,
    pub sought: Sought,
}

/// The body of an equation, all of whose kinds are right. A component, an attribute and a class are
/// positions; so is a name: the innermost fold's is 0, the parameters follow in order.
#[derive(Drop)]
pub enum Body {
    Int(i32),
    Truth(bool),
    Text(String),
    Null,
    This,
    /// The name of a fold or of a parameter.
    Name(usize),
    /// The index name of an inherited equation.
    IndexName,
    Negate(Box<Body>),
    Not(Box<Body>),
    Arithmetic(Operator, Box<Body>, Box<Body>),
    Compare(Order, Box<Body>, Box<Body>),
    /// A text joined with a text.
    Join(Box<Body>, Box<Body>),
    /// A text joined with an int in decimal.
    JoinInt(Box<Body>, Box<Body>),
    /// `==` of two ints, two truth values, or two nodes or null.
    Same(Box<Body>, Box<Body>),
    /// `!=` of those.
    Differ(Box<Body>, Box<Body>),
    And(Box<Body>, Box<Body>),
    Or(Box<Body>, Box<Body>),
    Choose(Box<Body>, Box<Body>, Box<Body>),
    /// `equals` of two texts.
    Equals(Box<Body>, Box<Body>),
    InstanceOf(Box<Body>, ClassId),
    CastTo(ClassId, Box<Body>),
    /// The child in a component with one child, or in an optional.
    Child(Box<Body>, usize),
    /// The child at an index of a list.
    Element(Box<Body>, usize, Box<Body>),
    /// How many children a list has.
    Count(Box<Body>, usize),
    /// Whether an optional is filled.
    Has(Box<Body>, usize),
    TokenOf(Box<Body>, usize),
    /// An attribute of a receiver, with its arguments.
    Call(Box<Body>, AttrId, Vec<Body>),
    /// An argument that is computed, an int or a text: a fault where it is too far from 0, or too long.
    Passed(Box<Body>),
    /// Whether the body is true of an element of a list.
    Exists(Box<Body>, usize, Box<Body>),
    /// The first element of a list of which the body is true, or null.
    First(Box<Body>, usize, Box<Body>),
    /// The sum of what the body is for the elements of a list.
    Sum(Box<Body>, usize, Box<Body>),
    /// Whether the body is true of an element that is looked for.
    SeekAny(Box<Body>, Box<Lookup>, Box<Body>),
    /// The first element that is looked for of which the body is true, or null.
    SeekFirst(Box<Body>, Box<Lookup>, Box<Body>),
}
