//! Trees that are written with `new`. A method is told how much deeper `new` may nest in what it reads.

ghost use Rattle.std.specs.Prelude.{◌≡◌, IfOk, IfErr, map, string_bytes};
ghost use Rattle.at_model.specs.Terms.{Node, One, Many};
ghost use Rattle.at_text.specs.Rows.{left};
ghost use Rattle.at_tree.specs.Token.{token_view};
ghost use Rattle.at_tree.specs.View.{term_view, cell_view, to_cells, to_terms};
ghost use Rattle.at_jrag.specs.View.{word_view};
ghost use Rattle.at_java.specs.Read.{got, Fails};
ghost use Rattle.at_java.specs.Operands.{items, max_arguments};
ghost use Rattle.at_java.specs.Constants.{sign_of, word_of, name_of, below_zero, literal, child, opening, added, elements, most_elements, list_items, list, optional, made, cell, argument, given, is_container, class_of, node, term};

use super::{Breach, ReadFault, Reader};
use crate::JavaCode;
use at_jrag::Word;
use at_text::place::Place;
use at_tree::term::{Term, TermCell};
use at_tree::token::TokVal;

/// How deep `new` may nest.
pub const MAX_TERMS: usize = 64;

/// How many elements a list may have.
pub const MOST_ELEMENTS: usize = 4096;

/// How many arguments may stand behind a class.
const MAX_ARGUMENTS: usize = 255;

/// A node of the class.
fn node(class: Word, cells: Vec<TermCell>) -> Term
    ensures { term_view result ≡ Node (string_bytes class.text) (to_cells (map cell_view cells.items)) }
{
    Term {
        name: class.text,
        cells,
    }
}

/// A child.
pub fn one(term: Term) -> TermCell
    ensures { cell_view result ≡ One (term_view term) }
{
    TermCell::One(term)
}

/// A list.
pub fn many(terms: Vec<Term>) -> TermCell
    ensures { cell_view result ≡ Many (to_terms (map term_view terms.items)) }
{
    TermCell::Many(terms)
}

/// Whether the name is that of lists or of optionals, and of no class.
fn is_container(name: &str) -> bool
    ensures { result ≡ is_container name.now }
{
    name == "List" || name == "Opt"
}

impl<'a> Reader<'a> {
    /// The sign; else what begins at this place is left out.
    pub fn sign_of(&mut self, at: Place, text: &str) -> Result<Place, ReadFault>
        ensures found { IfOk result (λ p. sign_of at text.now (left self.old.cursor.rest.now) ≡ got p (left self.new.cursor.rest.now)) }
        ensures fault { IfErr result (λ e. Fails e (left self.new.cursor.rest.now) (sign_of at text.now (left self.old.cursor.rest.now))) }
    {
        match self.cursor.takes_sign(text) {
            Some(there) => Ok(there),
            None => Err(ReadFault::For(Breach::At(JavaCode::LeftOut, at))),
        }
    }

    /// The word; else what begins at this place is left out.
    pub fn word_of(&mut self, at: Place, text: &str) -> Result<Place, ReadFault>
        ensures found { IfOk result (λ p. word_of at text.now (left self.old.cursor.rest.now) ≡ got p (left self.new.cursor.rest.now)) }
        ensures fault { IfErr result (λ e. Fails e (left self.new.cursor.rest.now) (word_of at text.now (left self.old.cursor.rest.now))) }
    {
        match self.cursor.takes_word(text) {
            Some(there) => Ok(there),
            None => Err(ReadFault::For(Breach::At(JavaCode::LeftOut, at))),
        }
    }

    /// A name; else what begins at this place is left out.
    pub fn name_of(&mut self, at: Place) -> Result<Word, ReadFault>
        ensures found { IfOk result (λ w. name_of at (left self.old.cursor.rest.now) ≡ got (word_view w) (left self.new.cursor.rest.now)) }
        ensures fault { IfErr result (λ e. Fails e (left self.new.cursor.rest.now) (name_of at (left self.old.cursor.rest.now))) }
    {
        match self.cursor.takes_name() {
            Some(token) => Ok(Word {
                text: String::from_str(self.alloc, token.text)?,
                at: token.at,
            }),
            None => Err(ReadFault::For(Breach::At(JavaCode::LeftOut, at))),
        }
    }

    /// The number behind the `-` at this place.
    fn below_zero(&mut self, at: Place) -> Result<TokVal, ReadFault>
        ensures found { IfOk result (λ v. below_zero at (left self.old.cursor.rest.now) ≡ got (token_view v) (left self.new.cursor.rest.now)) }
        ensures fault { IfErr result (λ e. Fails e (left self.new.cursor.rest.now) (below_zero at (left self.old.cursor.rest.now))) }
    {
        if self.is_before_number() {
            return self.integer(true);
        }
        Err(ReadFault::For(Breach::At(JavaCode::LeftOut, at)))
    }

    /// `"true" | "false" | ["-"] number | text`
    fn literal(&mut self) -> Result<TokVal, ReadFault>
        ensures found { IfOk result (λ v. literal (left self.old.cursor.rest.now) ≡ got (token_view v) (left self.new.cursor.rest.now)) }
        ensures fault { IfErr result (λ e. Fails e (left self.new.cursor.rest.now) (literal (left self.old.cursor.rest.now))) }
    {
        if self.cursor.takes_word("true").is_some() {
            return Ok(TokVal::Bool(true));
        }
        if self.cursor.takes_word("false").is_some() {
            return Ok(TokVal::Bool(false));
        }
        if let Some(at) = self.cursor.takes_sign("-") {
            return self.below_zero(at);
        }
        if self.is_before_number() {
            return self.integer(false);
        }
        if self.is_before_text() {
            return self.quotation();
        }
        Err(ReadFault::For(Breach::Here(self.operand_code())))
    }

    /// `["<" name ">"] "("`, behind the `new` at this place and the name of lists or of optionals.
    fn opening(&mut self, at: Place) -> Result<Place, ReadFault>
        ensures found { IfOk result (λ p. opening at (left self.old.cursor.rest.now) ≡ got p (left self.new.cursor.rest.now)) }
        ensures fault { IfErr result (λ e. Fails e (left self.new.cursor.rest.now) (opening at (left self.old.cursor.rest.now))) }
    {
        if self.cursor.takes_sign("<").is_some() {
            self.name_of(at)?;
            self.sign_of(at, ">")?;
            return self.sign_of(at, "(");
        }
        self.sign_of(at, "(")
    }

    /// A class and `"("`, behind the `new` at this place.
    fn class_of(&mut self, at: Place) -> Result<Word, ReadFault>
        ensures found { IfOk result (λ w. class_of at (left self.old.cursor.rest.now) ≡ got (word_view w) (left self.new.cursor.rest.now)) }
        ensures fault { IfErr result (λ e. Fails e (left self.new.cursor.rest.now) (class_of at (left self.old.cursor.rest.now))) }
    {
        let class = self.name_of(at)?;
        if is_container(class.text.as_str()) {
            return Err(ReadFault::For(Breach::At(JavaCode::LeftOut, at)));
        }
        self.sign_of(at, "(")?;
        Ok(class)
    }

    /// A node behind the `new` at this place, of a tree in which `new` nests so deep at most.
    #[cycle(term)]
    pub fn term(&mut self, at: Place, depth: usize) -> Result<Term, ReadFault>
        ensures found { IfOk result (λ t. term depth at (left self.old.cursor.rest.now) ≡ got (term_view t) (left self.new.cursor.rest.now)) }
        ensures fault { IfErr result (λ e. Fails e (left self.new.cursor.rest.now) (term depth at (left self.old.cursor.rest.now))) }
    {
        if depth == 0 {
            return Err(ReadFault::For(Breach::Here(JavaCode::Limit)));
        }
        self.node(at, depth - 1)
    }

    /// A class, and what stands for the components of its node.
    #[cycle(term)]
    fn node(&mut self, at: Place, depth: usize) -> Result<Term, ReadFault>
        ensures found { IfOk result (λ t. node (term depth) at (left self.old.cursor.rest.now) ≡ got (term_view t) (left self.new.cursor.rest.now)) }
        ensures fault { IfErr result (λ e. Fails e (left self.new.cursor.rest.now) (node (term depth) at (left self.old.cursor.rest.now))) }
    {
        let class = self.class_of(at)?;
        let cells = self.given(depth)?;
        Ok(node(class, cells))
    }

    /// `[argument { "," argument }] ")"`
    #[cycle(term)]
    fn given(&mut self, depth: usize) -> Result<Vec<TermCell>, ReadFault>
        ensures found { IfOk result (λ v. given (term depth) (left self.old.cursor.rest.now) ≡ got (map cell_view v.items) (left self.new.cursor.rest.now)) }
        ensures fault { IfErr result (λ e. Fails e (left self.new.cursor.rest.now) (given (term depth) (left self.old.cursor.rest.now))) }
    {
        if self.cursor.takes_sign(")").is_some() {
            return Ok(Vec::new(self.alloc));
        }
        self.cells(depth)
    }

    /// `argument { "," argument } ")"`
    #[cycle(term)]
    fn cells(&mut self, depth: usize) -> Result<Vec<TermCell>, ReadFault>
        ensures found { IfOk result (λ v. items (argument (term depth)) max_arguments (left self.old.cursor.rest.now)
            ≡ got (map cell_view v.items) (left self.new.cursor.rest.now)) }
        ensures fault { IfErr result (λ e. Fails e (left self.new.cursor.rest.now) (items (argument (term depth)) max_arguments
            (left self.old.cursor.rest.now))) }
    {
        let mut items = Vec::new(self.alloc);
        let mut more = MAX_ARGUMENTS;
        while more > 0 {
            let next = self.argument(depth)?;
            items.push(next)?;
            if let Some(_) = self.takes(")") {
                return Ok(items);
            }
            self.expects(",")?;
            more -= 1;
        }
        Err(ReadFault::For(Breach::Here(JavaCode::Limit)))
    }

    /// What stands for a component, where it is the whole argument.
    #[cycle(term)]
    fn argument(&mut self, depth: usize) -> Result<TermCell, ReadFault>
        ensures found { IfOk result (λ c. argument (term depth) (left self.old.cursor.rest.now) ≡ got (cell_view c) (left self.new.cursor.rest.now)) }
        ensures fault { IfErr result (λ e. Fails e (left self.new.cursor.rest.now) (argument (term depth) (left self.old.cursor.rest.now))) }
    {
        let Some(token) = self.cursor.peek() else {
            return Err(ReadFault::For(Breach::Here(JavaCode::Syntax)));
        };
        let at = token.at;
        let cell = self.cell(depth)?;
        if self.ends_argument() {
            return Ok(cell);
        }
        Err(ReadFault::For(Breach::At(JavaCode::LeftOut, at)))
    }

    /// What stands for a component: a list, an optional, a node, or a literal.
    #[cycle(term)]
    fn cell(&mut self, depth: usize) -> Result<TermCell, ReadFault>
        ensures found { IfOk result (λ c. cell (term depth) (left self.old.cursor.rest.now) ≡ got (cell_view c) (left self.new.cursor.rest.now)) }
        ensures fault { IfErr result (λ e. Fails e (left self.new.cursor.rest.now) (cell (term depth) (left self.old.cursor.rest.now))) }
    {
        if let Some(at) = self.cursor.takes_word("new") {
            return self.made(at, depth);
        }
        Ok(TermCell::Holds(self.literal()?))
    }

    /// A list, an optional, or a node, behind the `new` at this place.
    #[cycle(term)]
    fn made(&mut self, at: Place, depth: usize) -> Result<TermCell, ReadFault>
        ensures found { IfOk result (λ c. made (term depth) at (left self.old.cursor.rest.now) ≡ got (cell_view c) (left self.new.cursor.rest.now)) }
        ensures fault { IfErr result (λ e. Fails e (left self.new.cursor.rest.now) (made (term depth) at (left self.old.cursor.rest.now))) }
    {
        if self.cursor.takes_word("List").is_some() {
            return self.list(at, depth);
        }
        if self.cursor.takes_word("Opt").is_some() {
            return self.optional(at, depth);
        }
        Ok(one(self.term(at, depth)?))
    }

    /// `"new"` and a node.
    #[cycle(term)]
    fn child(&mut self, depth: usize) -> Result<Term, ReadFault>
        ensures found { IfOk result (λ t. child (term depth) (left self.old.cursor.rest.now) ≡ got (term_view t) (left self.new.cursor.rest.now)) }
        ensures fault { IfErr result (λ e. Fails e (left self.new.cursor.rest.now) (child (term depth) (left self.old.cursor.rest.now))) }
    {
        match self.cursor.takes_word("new") {
            Some(at) => self.term(at, depth),
            None => Err(ReadFault::For(Breach::Here(self.operand_code()))),
        }
    }

    /// An optional, empty or with a child.
    #[cycle(term)]
    fn optional(&mut self, at: Place, depth: usize) -> Result<TermCell, ReadFault>
        ensures found { IfOk result (λ c. optional (term depth) at (left self.old.cursor.rest.now) ≡ got (cell_view c) (left self.new.cursor.rest.now)) }
        ensures fault { IfErr result (λ e. Fails e (left self.new.cursor.rest.now) (optional (term depth) at (left self.old.cursor.rest.now))) }
    {
        self.opening(at)?;
        if self.cursor.takes_sign(")").is_some() {
            return Ok(TermCell::Empty);
        }
        let term = self.child(depth)?;
        self.sign_of(at, ")")?;
        Ok(one(term))
    }

    /// An empty list, and what is added to it.
    #[cycle(term)]
    fn list(&mut self, at: Place, depth: usize) -> Result<TermCell, ReadFault>
        ensures found { IfOk result (λ c. list (term depth) at (left self.old.cursor.rest.now) ≡ got (cell_view c) (left self.new.cursor.rest.now)) }
        ensures fault { IfErr result (λ e. Fails e (left self.new.cursor.rest.now) (list (term depth) at (left self.old.cursor.rest.now))) }
    {
        let terms = self.list_items(at, depth)?;
        Ok(many(terms))
    }

    /// What is in a list, behind the `new` at this place and `List`.
    #[cycle(term)]
    pub fn list_items(&mut self, at: Place, depth: usize) -> Result<Vec<Term>, ReadFault>
        ensures found { IfOk result (λ v. list_items (term depth) at (left self.old.cursor.rest.now)
            ≡ got (map term_view v.items) (left self.new.cursor.rest.now)) }
        ensures fault { IfErr result (λ e. Fails e (left self.new.cursor.rest.now) (list_items (term depth) at (left self.old.cursor.rest.now))) }
    {
        self.opening(at)?;
        self.sign_of(at, ")")?;
        self.elements(at, depth)
    }

    /// `{ "." "add" "(" child ")" }`, at most 4,096.
    #[cycle(term)]
    fn elements(&mut self, at: Place, depth: usize) -> Result<Vec<Term>, ReadFault>
        ensures found { IfOk result (λ v. elements (term depth) at most_elements (left self.old.cursor.rest.now)
            ≡ got (map term_view v.items) (left self.new.cursor.rest.now)) }
        ensures fault { IfErr result (λ e. Fails e (left self.new.cursor.rest.now) (elements (term depth) at most_elements
            (left self.old.cursor.rest.now))) }
    {
        let mut terms = Vec::new(self.alloc);
        let mut room = MOST_ELEMENTS;
        while let Some(_) = self.cursor.takes_sign(".") {
            if room == 0 {
                return Err(ReadFault::For(Breach::Here(JavaCode::Limit)));
            }
            let term = self.added(at, depth)?;
            terms.push(term)?;
            room -= 1;
        }
        Ok(terms)
    }

    /// `"add" "(" child ")"`, behind the list whose `new` has this place, and a `.`.
    #[cycle(term)]
    pub fn added(&mut self, at: Place, depth: usize) -> Result<Term, ReadFault>
        ensures found { IfOk result (λ t. added (term depth) at (left self.old.cursor.rest.now) ≡ got (term_view t) (left self.new.cursor.rest.now)) }
        ensures fault { IfErr result (λ e. Fails e (left self.new.cursor.rest.now) (added (term depth) at (left self.old.cursor.rest.now))) }
    {
        self.word_of(at, "add")?;
        self.sign_of(at, "(")?;
        let term = self.child(depth)?;
        self.sign_of(at, ")")?;
        Ok(term)
    }
}
