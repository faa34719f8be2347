//! What constants are made of: a tree, or a list of trees.

ghost use Rattle.std.specs.Prelude.{◌≡◌, IfOk, IfErr, map, string_bytes};
ghost use Rattle.at_tree.specs.View.{term_view};
ghost use Rattle.at_text.specs.Rows.{left};
ghost use Rattle.at_java.specs.Read.{got, Fails};
ghost use Rattle.at_java.specs.Seen.{making_view, made_view, local_view};
ghost use Rattle.at_java.specs.Making.{making_equation, making_block, making, block_end, made_end, made_term, new_list, whole_list, local, addition, with_additions};
ghost use Rattle.at_java.specs.Making.{returned_local, filled_local, list_block, made_list};

use super::terms::{MAX_TERMS, MOST_ELEMENTS};
use super::{Breach, ReadFault, Reader};
use crate::JavaCode;
use at_jrag::Word;
use at_text::place::Place;
use at_tree::term::Term;

/// Where the body of a constant begins and its `new` stands; and whether it is a block.
#[derive(Clone, Copy)]
pub struct Making {
    pub at: Place,
    pub made_at: Place,
    pub is_block: bool,
}

/// A list: where its `new` stands, and what is in it.
#[derive(Drop)]
pub struct Made {
    pub at: Place,
    pub items: Vec<Term>,
}

/// A local variable that holds a list: its name, and the `new` of the list.
#[derive(Drop)]
pub struct Local {
    pub name: Word,
    pub at: Place,
}

impl<'a> Reader<'a> {
    /// `"new"`, behind the `=` at this place.
    fn making_equation(&mut self, named: Place, at: Place) -> Result<Making, ReadFault>
        ensures found { IfOk result (λ m. making_equation named at (left self.old.cursor.rest.now) ≡ got (making_view m) (left self.new.cursor.rest.now)) }
        ensures fault { IfErr result (λ e. Fails e (left self.new.cursor.rest.now) (making_equation named at (left self.old.cursor.rest.now))) }
    {
        let made_at = self.word_of(named, "new")?;
        Ok(Making {
            at,
            made_at,
            is_block: false,
        })
    }

    /// `"return" "new"`, behind the `{` at this place.
    fn making_block(&mut self, named: Place, at: Place) -> Result<Making, ReadFault>
        ensures found { IfOk result (λ m. making_block named at (left self.old.cursor.rest.now) ≡ got (making_view m) (left self.new.cursor.rest.now)) }
        ensures fault { IfErr result (λ e. Fails e (left self.new.cursor.rest.now) (making_block named at (left self.old.cursor.rest.now))) }
    {
        self.word_of(named, "return")?;
        let made_at = self.word_of(named, "new")?;
        Ok(Making {
            at,
            made_at,
            is_block: true,
        })
    }

    /// `"=" "new" | "{" "return" "new"`: another body is left out where the declared name stands.
    pub fn making(&mut self, named: Place) -> Result<Making, ReadFault>
        ensures found { IfOk result (λ m. making named (left self.old.cursor.rest.now) ≡ got (making_view m) (left self.new.cursor.rest.now)) }
        ensures fault { IfErr result (λ e. Fails e (left self.new.cursor.rest.now) (making named (left self.old.cursor.rest.now))) }
    {
        if let Some(at) = self.cursor.takes_sign("=") {
            return self.making_equation(named, at);
        }
        let at = self.sign_of(named, "{")?;
        self.making_block(named, at)
    }

    /// `"}"`: another statement is left out.
    fn block_end(&mut self) -> Result<Place, ReadFault>
        ensures found { IfOk result (λ p. block_end (left self.old.cursor.rest.now) ≡ got p (left self.new.cursor.rest.now)) }
        ensures fault { IfErr result (λ e. Fails e (left self.new.cursor.rest.now) (block_end (left self.old.cursor.rest.now))) }
    {
        match self.cursor.takes_sign("}") {
            Some(brace) => Ok(brace),
            None => Err(ReadFault::For(Breach::Here(self.other_code()))),
        }
    }

    /// `";"`, and in a block `"}"`.
    fn made_end(&mut self, making: Making) -> Result<Place, ReadFault>
        ensures found { IfOk result (λ p. made_end (making_view making) (left self.old.cursor.rest.now) ≡ got p (left self.new.cursor.rest.now)) }
        ensures fault { IfErr result (λ e. Fails e (left self.new.cursor.rest.now) (made_end (making_view making) (left self.old.cursor.rest.now))) }
    {
        let end = self.sign_of(making.made_at, ";")?;
        if !making.is_block {
            return Ok(end);
        }
        self.block_end()
    }

    /// What is made, and its end: the tree.
    pub fn made_term(&mut self, making: Making) -> Result<Term, ReadFault>
        ensures found { IfOk result (λ t. made_term (making_view making) (left self.old.cursor.rest.now)
            ≡ got (term_view t) (left self.new.cursor.rest.now)) }
        ensures fault { IfErr result (λ e. Fails e (left self.new.cursor.rest.now) (made_term (making_view making) (left self.old.cursor.rest.now))) }
    {
        let term = self.term(making.made_at, MAX_TERMS)?;
        self.made_end(making)?;
        Ok(term)
    }

    /// What is in the list whose `new` has this place.
    fn new_list(&mut self, at: Place) -> Result<Vec<Term>, ReadFault>
        ensures found { IfOk result (λ v. new_list at (left self.old.cursor.rest.now) ≡ got (map term_view v.items) (left self.new.cursor.rest.now)) }
        ensures fault { IfErr result (λ e. Fails e (left self.new.cursor.rest.now) (new_list at (left self.old.cursor.rest.now))) }
    {
        self.word_of(at, "List")?;
        self.list_items(at, MAX_TERMS)
    }

    /// The list, up to the end of the body.
    fn whole_list(&mut self, making: Making) -> Result<Made, ReadFault>
        ensures found { IfOk result (λ m. whole_list (making_view making) (left self.old.cursor.rest.now)
            ≡ got (made_view m) (left self.new.cursor.rest.now)) }
        ensures fault { IfErr result (λ e. Fails e (left self.new.cursor.rest.now) (whole_list (making_view making) (left self.old.cursor.rest.now))) }
    {
        let items = self.new_list(making.made_at)?;
        self.made_end(making)?;
        Ok(Made {
            at: making.made_at,
            items,
        })
    }

    /// `"<" name ">" name "=" "new"`, behind `List`.
    fn local(&mut self, named: Place) -> Result<Local, ReadFault>
        ensures found { IfOk result (λ l. local named (left self.old.cursor.rest.now) ≡ got (local_view l) (left self.new.cursor.rest.now)) }
        ensures fault { IfErr result (λ e. Fails e (left self.new.cursor.rest.now) (local named (left self.old.cursor.rest.now))) }
    {
        self.element_class(named)?;
        let name = self.name_of(named)?;
        self.sign_of(named, "=")?;
        let at = self.word_of(named, "new")?;
        Ok(Local { name, at })
    }

    /// `"." "add" "(" child ")" ";"`, behind the name of the local at this place.
    fn addition(&mut self, at: Place) -> Result<Term, ReadFault>
        ensures found { IfOk result (λ t. addition at (left self.old.cursor.rest.now) ≡ got (term_view t) (left self.new.cursor.rest.now)) }
        ensures fault { IfErr result (λ e. Fails e (left self.new.cursor.rest.now) (addition at (left self.old.cursor.rest.now))) }
    {
        self.sign_of(at, ".")?;
        let term = self.added(at, MAX_TERMS)?;
        self.sign_of(at, ";")?;
        Ok(term)
    }

    /// What is in the list of the local, and what is added to it: at most 4,096 in all.
    fn with_additions(&mut self, local: &str, terms: Vec<Term>) -> Result<Vec<Term>, ReadFault>
        ensures found { IfOk result (λ v. with_additions local.now (map term_view terms.items) (left self.old.cursor.rest.now)
            ≡ got (map term_view v.items) (left self.new.cursor.rest.now)) }
        ensures fault { IfErr result (λ e. Fails e (left self.new.cursor.rest.now)
            (with_additions local.now (map term_view terms.items) (left self.old.cursor.rest.now))) }
    {
        let mut all = terms;
        let mut room = MOST_ELEMENTS.saturating_sub(all.len());
        while let Some(at) = self.cursor.takes_word(local) {
            if room == 0 {
                return Err(ReadFault::For(Breach::Here(JavaCode::Limit)));
            }
            let term = self.addition(at)?;
            all.push(term)?;
            room -= 1;
        }
        Ok(all)
    }

    /// `"return" local ";" "}"`: another statement is left out.
    fn returned_local(&mut self, local: &str) -> Result<Place, ReadFault>
        ensures found { IfOk result (λ p. returned_local local.now (left self.old.cursor.rest.now) ≡ got p (left self.new.cursor.rest.now)) }
        ensures fault { IfErr result (λ e. Fails e (left self.new.cursor.rest.now) (returned_local local.now (left self.old.cursor.rest.now))) }
    {
        let Some(at) = self.cursor.takes_word("return") else {
            return Err(ReadFault::For(Breach::Here(self.other_code())));
        };
        self.word_of(at, local)?;
        self.sign_of(at, ";")?;
        self.block_end()
    }

    /// The list of the local, behind its `new`: what is added to it, and that it is returned.
    fn filled_local(&mut self, local: &Local) -> Result<Made, ReadFault>
        ensures found { IfOk result (λ m. filled_local (local_view local.now) (left self.old.cursor.rest.now)
            ≡ got (made_view m) (left self.new.cursor.rest.now)) }
        ensures fault { IfErr result (λ e. Fails e (left self.new.cursor.rest.now) (filled_local (local_view local.now) (left self.old.cursor.rest.now))) }
    {
        let first = self.new_list(local.at)?;
        self.sign_of(local.at, ";")?;
        let name = local.name.text.as_str();
        let items = self.with_additions(name, first)?;
        self.returned_local(name)?;
        Ok(Made {
            at: local.at,
            items,
        })
    }

    /// A local that is filled, or `"return" "new"` and a list, behind the `{` at this place.
    fn list_block(&mut self, named: Place, at: Place) -> Result<Made, ReadFault>
        ensures found { IfOk result (λ m. list_block named at (left self.old.cursor.rest.now) ≡ got (made_view m) (left self.new.cursor.rest.now)) }
        ensures fault { IfErr result (λ e. Fails e (left self.new.cursor.rest.now) (list_block named at (left self.old.cursor.rest.now))) }
    {
        if let Some(_) = self.cursor.takes_word("List") {
            let local = self.local(named)?;
            return self.filled_local(&local);
        }
        let making = self.making_block(named, at)?;
        self.whole_list(making)
    }

    /// The body of a constant that is a list, behind its name, which has this place.
    pub fn made_list(&mut self, named: Place) -> Result<Made, ReadFault>
        ensures found { IfOk result (λ m. made_list named (left self.old.cursor.rest.now) ≡ got (made_view m) (left self.new.cursor.rest.now)) }
        ensures fault { IfErr result (λ e. Fails e (left self.new.cursor.rest.now) (made_list named (left self.old.cursor.rest.now))) }
    {
        if let Some(at) = self.cursor.takes_sign("=") {
            let making = self.making_equation(named, at)?;
            return self.whole_list(making);
        }
        let at = self.sign_of(named, "{")?;
        self.list_block(named, at)
    }
}
