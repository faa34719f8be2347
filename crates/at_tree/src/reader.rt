//! The reader of terms: a term as it is read, character by character.
ghost use Rattle.std.specs.Prelude.{◌≡◌, ◌≤◌, ◌<◌, true, map, string_bytes};
ghost use Rattle.at_model.specs.Terms.{Node};
ghost use Rattle.at_tree.specs.Partial.{limit};
ghost use Rattle.at_tree.specs.View.{term_view, cell_view, to_cells};

use crate::term::{Term, TermCell};

/// How many terms may stand in one another.
pub const MAX_DEPTH: usize = 512;

/// A term whose parenthesis is open: its cells, and the terms of its open list, as far as a comma
/// follows each.
struct Level {
    name: String,
    cells: Vec<TermCell>,
    items: Option<Vec<Term>>,
}

/// One call, where each exit that lets a level go would else have a case for each field.
impl Drop for Level {
    fn drop(self) {
        let Level {
            name: _,
            cells: _,
            items: _,
        } = self;
    }
}

impl Level {
    /// The term, whose parenthesis is closed.
    fn closed(self) -> Term
        ensures { term_view result ≡ Node (string_bytes self.name) (to_cells (map cell_view self.cells.items)) }
    {
        let Level {
            name,
            cells,
            items: _,
        } = self;
        Term { name, cells }
    }
}

/// A minus sign or none, and digits.
#[derive(Clone, Copy)]
struct Number {
    minus: bool,
    value: u32,
    ghost in_range: { value ≤ limit minus },
    ghost not_minus_zero: { minus ≡ true → 0 < value },
}

/// What stands right before the next character.
#[derive(Drop)]
enum Place {
    /// A bracket, a comma or nothing.
    Start,
    /// The front of a name, of `true` or of `false`.
    InWord(String),
    Dash,
    Digits(Number),
    /// A quote, and what the characters behind it stand for.
    InText(String),
    /// The same, and a backslash.
    Escape(String),
    Whole(TermCell),
    Item(Term),
    Done(Term),
}

/// What has been read of a term's text: the open terms, from outside in, and the place in the
/// innermost.
struct Partial {
    levels: Vec<Level>,
    place: Place,
}

/// One call, where each exit that lets it go would else have a case for each place.
impl Drop for Partial {
    fn drop(self) {
        let Partial {
            levels: _,
            place: _,
        } = self;
    }
}

mod advance;
mod read;
mod steps;
mod words;

pub use read::read_term;
