//! Abstract grammars as they are read.

use at_text::place::Place;
use std::alloc::Global;

/// What a component holds.
#[derive(Clone, Copy, Debug, PartialEq, Eq)]
pub enum Shape {
    /// A child.
    One,
    /// A list of children.
    Many,
    /// A child that may be absent.
    Maybe,
    /// A token, which is a value and no node.
    Tok,
}

/// A component of a class.
#[derive(Debug, Drop)]
pub struct PartDecl {
    /// Its name; that of its class where none is written.
    pub name: String,
    /// The class of its nodes, or the kind of the token: `String` where none is written.
    pub kind: String,
    pub shape: Shape,
    /// The line and the column of its name, both from 1.
    pub at: Place,
}

/// A class, with its own components in order.
#[derive(Debug, Drop)]
pub struct ClassDecl {
    pub name: String,
    pub is_abstract: bool,
    /// Its superclass.
    pub parent: Option<String>,
    pub parts: Vec<PartDecl>,
    /// The line and the column of its name, both from 1.
    pub at: Place,
}

/// An abstract grammar: its classes, in the order of the text.
#[derive(Debug, Drop)]
pub struct Grammar {
    pub classes: Vec<ClassDecl>,
}
