//! Bodies as they are written: statements, with their places.

use at_jrag::{Expr, KindWord, Word};
use at_text::place::Place;

/// A statement, with the place of its first token (Java Language Specification 14).
#[cycle(statement)]
#[derive(Drop)]
pub enum Statement {
    /// `return E;`
    Return(Place, Expr),
    /// `if (E) S else S`; where no `else` is written, the last one is empty.
    If(Place, Expr, Box<Statement>, Box<Statement>),
    /// `for (KIND NAME : LIST) S`
    Each(Place, KindWord, Word, Expr, Box<Statement>),
    /// `{ S .. }`
    Block(Vec<Statement>),
    /// `;`, or what isn't there behind an `if`.
    Empty,
}
