//! Terms: trees as they are written. The words alone, with no class checked.
mod direct;

use at_class::token::TokVal;
pub(crate) use direct::whole_term;

/// A term: a class's name, and a cell for each component.
#[cycle(term)]
#[derive(Drop)]
pub struct Term {
    pub name: String,
    pub cells: Vec<TermCell>,
}

/// What stands in a term's parentheses, between two commas.
#[cycle(term)]
#[derive(Drop)]
pub enum TermCell {
    /// A term: a plain child, or a filled optional.
    One(Term),
    /// A list.
    Many(Vec<Term>),
    /// An empty optional.
    Empty,
    /// The value of a token.
    Holds(TokVal),
}
