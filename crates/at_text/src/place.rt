//! Lines and columns.
ghost use Rattle.std.specs.Prelude.{◌≡◌, ◌++◌, ◌∷◌, [], ℕ, List, chars};
ghost use Rattle.std.specs.Str.{IsCharBoundary};
ghost use Rattle.at_text.specs.Place.{place_after, place_of};

/// A line and a column, both from 1: a line ends at its newline, and a column is a character.
#[derive(Clone, Copy, PartialEq, Eq, Debug)]
pub struct Place {
    pub line: u32,
    pub column: u32,
}

impl Place {
    /// The place where each text begins.
    pub const START: Place = Place { line: 1, column: 1 };

    /// The place of an offset in bytes.
    pub fn of(text: &str, offset: usize) -> Place
        requires { IsCharBoundary text.now offset }
        ensures { result ≡ place_of text.now offset }
    {
        Place::START.behind(&text[..offset])
    }

    /// The place behind a text that begins here.
    pub(crate) fn behind(self, passed: &str) -> Place
        ensures { (front : List ℕ) → self ≡ place_after front → result ≡ place_after (front ++ chars passed.now) }
    {
        let mut at = self;
        for c in passed.chars() {
            at = at.next(c);
        }
        at
    }

    /// The place behind a character that stands here. Line and column stay at the greatest `u32`.
    fn next(self, c: char) -> Place
        ensures { (front : List ℕ) → self ≡ place_after front → result ≡ place_after (front ++ c ∷ []) }
    {
        if c == '\n' {
            return Place {
                line: self.line.saturating_add(1),
                column: 1,
            };
        }
        Place {
            line: self.line,
            column: self.column.saturating_add(1),
        }
    }
}
