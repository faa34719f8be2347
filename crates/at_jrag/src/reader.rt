//! The reader of tokens: a method for each form of the language.

ghost use Rattle.std.specs.Prelude.{◌≡◌, ◌∷◌, IfOk, IfErr, OnOk, MatchBool, false};
ghost use Rattle.at_text.specs.Rows.{left, sign, is_sign, is_name_token, next_is};
ghost use Rattle.at_text.specs.declared.place.Place.{Place};
ghost use Rattle.at_jrag.specs.View.{word_view};
ghost use Rattle.at_jrag.specs.Grammar.{Name, Opens};
ghost use Rattle.at_jrag.specs.Runs.{Missing, NotOpened};

mod declarations;
mod expressions;
mod forms;
mod literals;
mod operators;
mod starts;

use crate::JragCode;
use crate::syntax::Word;
use at_text::cursor::Cursor;
use at_text::fault::Failure;
use at_text::place::Place;
use at_text::placed::Placed;
use std::alloc::Global;

/// Why nothing was read: what the next token, or the end, breaks, or want of memory.
pub type ReadFault = Failure<JragCode>;

/// A reader of tokens. It stands where its cursor does.
#[derive(Drop)]
pub struct Reader<'a> {
    alloc: Global,
    pub cursor: Cursor<'a>,
}

impl<'a> Reader<'a> {
    /// A reader before the first token.
    pub fn new(alloc: Global, tokens: &'a [Placed<'a>]) -> Reader<'a>
        ensures { result.cursor.rest.now ≡ tokens.now }
    {
        Reader {
            alloc,
            cursor: Cursor::new(tokens),
        }
    }

    /// Steps over the sign, if it is next.
    fn skips(&mut self, text: &str) -> bool
        ensures { MatchBool result
            ((at : Place) × (left self.old.cursor.rest.now ≡ sign text.now at ∷ left self.new.cursor.rest.now))
            ((self.new.cursor ≡ self.old.cursor) × (next_is (is_sign text.now) (left self.old.cursor.rest.now) ≡ false)) }
    {
        match self.cursor.takes_sign(text) {
            Some(_) => true,
            None => false,
        }
    }

    /// The sign.
    fn expects(&mut self, text: &str) -> Result<Place, ReadFault>
        ensures found { IfOk result (λ at. left self.old.cursor.rest.now ≡ sign text.now at ∷ left self.new.cursor.rest.now) }
        ensures missing { IfErr result (λ e. Missing (is_sign text.now) e (left self.old.cursor.rest.now) (left self.new.cursor.rest.now)) }
    {
        match self.cursor.takes_sign(text) {
            Some(at) => Ok(at),
            None => Err(ReadFault::For(JragCode::Syntax)),
        }
    }

    /// `name`
    fn name(&mut self) -> Result<Word, ReadFault>
        ensures found { IfOk result (λ w. Name (word_view w) (left self.old.cursor.rest.now) (left self.new.cursor.rest.now)) }
        ensures missing { IfErr result (λ e. Missing is_name_token e (left self.old.cursor.rest.now) (left self.new.cursor.rest.now)) }
    {
        match self.cursor.takes_name() {
            Some(token) => Ok(Word {
                text: String::from_str(self.alloc, token.text)?,
                at: token.at,
            }),
            None => Err(ReadFault::For(JragCode::Syntax)),
        }
    }

    /// `(` behind the name, where `int` behind the parenthesis of `getChild` is left out.
    fn opens(&mut self, name: &str) -> Result<(), ReadFault>
        ensures found { OnOk result (Opens name.now (left self.old.cursor.rest.now) (left self.new.cursor.rest.now)) }
        ensures missing { IfErr result (λ e. NotOpened name.now e (left self.old.cursor.rest.now) (left self.new.cursor.rest.now)) }
    {
        self.expects("(")?;
        if name == "getChild" && self.cursor.is_before_word("int") {
            return Err(ReadFault::For(JragCode::LeftOut));
        }
        Ok(())
    }
}
