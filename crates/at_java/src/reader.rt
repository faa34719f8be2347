//! The reader of tokens: a method for each form.

ghost use Rattle.std.specs.Prelude.{◌≡◌, ◌∷◌, IfOk, IfErr, MatchBool, false};
ghost use Rattle.at_text.specs.Rows.{left, sign, is_sign, next_is};
ghost use Rattle.at_text.specs.declared.place.Place.{Place};
ghost use Rattle.at_java.specs.Read.{got, Fails};
ghost use Rattle.at_java.specs.Tokens.{name, sign_here};
ghost use Rattle.at_jrag.specs.View.{word_view};

mod constants;
mod declarations;
mod expressions;
mod files;
mod forms;
mod headings;
mod kinds;
mod literals;
mod making;
mod operands;
mod operators;
mod outsets;
mod statements;
mod terms;

use crate::JavaCode;
use at_jrag::Word;
use at_text::cursor::Cursor;
use at_text::fault::Failure;
use at_text::place::Place;
use at_text::placed::Placed;
use std::alloc::Global;

/// Where a text is refused, and by which code.
#[derive(Clone, Copy, PartialEq, Eq, Debug)]
pub enum Breach {
    /// At the token before which the reader stands, or at the end of the text.
    Here(JavaCode),
    /// At this place.
    At(JavaCode, Place),
}

/// Why nothing was read: where the text is refused, or want of memory.
pub type ReadFault = Failure<Breach>;

/// A reader of tokens. It stands where its cursor does.
#[derive(Drop)]
pub struct Reader<'a> {
    pub alloc: Global,
    pub cursor: Cursor<'a>,
}

impl<'a> Reader<'a> {
    /// A reader before the first token.
    pub fn new(alloc: Global, tokens: &'a [Placed<'a>]) -> Reader<'a>
        ensures { result.cursor.rest.now ≡ tokens.now }
    {
        Reader {
            alloc,
            cursor: Cursor::new(tokens),
        }
    }

    /// Steps over the sign, if it is next.
    pub fn skips(&mut self, text: &str) -> bool
        ensures { MatchBool result
            ((at : Place) × (left self.old.cursor.rest.now ≡ sign text.now at ∷ left self.new.cursor.rest.now))
            ((self.new.cursor ≡ self.old.cursor) × (next_is (is_sign text.now) (left self.old.cursor.rest.now) ≡ false)) }
    {
        match self.cursor.takes_sign(text) {
            Some(_) => true,
            None => false,
        }
    }

    /// The sign.
    pub fn expects(&mut self, text: &str) -> Result<Place, ReadFault>
        ensures found { IfOk result (λ at. sign_here text.now (left self.old.cursor.rest.now) ≡ got at (left self.new.cursor.rest.now)) }
        ensures fault { IfErr result (λ e. Fails e (left self.new.cursor.rest.now) (sign_here text.now (left self.old.cursor.rest.now))) }
    {
        match self.cursor.takes_sign(text) {
            Some(at) => Ok(at),
            None => Err(ReadFault::For(Breach::Here(JavaCode::Syntax))),
        }
    }

    /// A name.
    pub fn name(&mut self) -> Result<Word, ReadFault>
        ensures found { IfOk result (λ w. name (left self.old.cursor.rest.now) ≡ got (word_view w) (left self.new.cursor.rest.now)) }
        ensures fault { IfErr result (λ e. Fails e (left self.new.cursor.rest.now) (name (left self.old.cursor.rest.now))) }
    {
        match self.cursor.takes_name() {
            Some(token) => Ok(Word {
                text: String::from_str(self.alloc, token.text)?,
                at: token.at,
            }),
            None => Err(ReadFault::For(Breach::Here(JavaCode::Syntax))),
        }
    }
}
