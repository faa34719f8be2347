//! Syntax trees: a class, and a cell for each of its components.
mod comparing;
mod copying;
mod written;

use crate::part::ClassId;
use crate::token::TokVal;

/// A syntax tree.
#[cycle(tree)]
#[derive(Drop)]
pub struct Tree {
    pub class: ClassId,
    pub cells: Vec<Cell>,
}

/// What a component holds: one tree, a list of trees, none or one where it is optional, or the value of a token.
#[cycle(tree)]
#[derive(Drop)]
pub enum Cell {
    One(Tree),
    Many(Vec<Tree>),
    Empty,
    Filled(Tree),
    Tok(TokVal),
}
