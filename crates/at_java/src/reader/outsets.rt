//! The headings of constants: what is made, and of which component.

ghost use Rattle.std.specs.Prelude.{◌≡◌, Some, None, true, IfOk, IfErr, MatchOption};
ghost use Rattle.at_text.specs.Rows.{left, next_is};
ghost use Rattle.at_tree.specs.View.{cell_view};
ghost use Rattle.at_jrag.specs.View.{word_view};
ghost use Rattle.at_java.specs.Read.{got, Fails};
ghost use Rattle.at_java.specs.Seen.{constant_view, shape_view, component_view, outset_view};
ghost use Rattle.at_java.specs.Declarations.{made_constant};
ghost use Rattle.at_java.specs.Outsets.{is_basic, whole_shape, element_class, opens_list, shape_of, shape, if_any, behind_get, before_list, list_name, tree_component};
ghost use Rattle.at_java.specs.Outsets.{list_component, component, no_params, outset_end, outset};

use super::{Breach, ReadFault, Reader};
use crate::JavaCode;
use crate::constants::Constant;
use at_jrag::Word;
use at_text::place::Place;
use at_tree::term::TermCell;
use std::alloc::{AllocError, Global};

/// The class of a tree, or of the elements of a list; and where the kind stands.
#[derive(Drop)]
pub struct Shape {
    pub class: Word,
    pub is_list: bool,
    pub at: Place,
}

/// A component's name, and whether it is declared by its own accessor.
#[derive(Drop)]
pub struct Component {
    pub name: Word,
    pub is_accessor: bool,
}

/// The component that is filled, by a tree of this kind or by a list of such trees, and the parenthesis behind the declared name.
pub struct Outset {
    pub kind: Word,
    pub is_list: bool,
    pub class: Word,
    pub name: Word,
    pub is_accessor: bool,
    pub end: Place,
}

/// One call, where each exit that lets it go would else have one for each field.
impl Drop for Outset {
    fn drop(self) {
        let Outset {
            kind: _,
            is_list: _,
            class: _,
            name: _,
            is_accessor: _,
            end: _,
        } = self;
    }
}

impl Outset {
    /// The constant for which this is made, with the place of its `new`.
    pub fn into_constant(self, at: Place, cell: TermCell) -> Constant
        ensures { constant_view result ≡ made_constant (outset_view self) at (cell_view cell) }
    {
        let Outset {
            kind,
            is_list: _,
            class,
            name,
            is_accessor: _,
            end: _,
        } = self;
        Constant {
            class,
            name,
            kind,
            cell,
            at,
        }
    }
}

/// The text, if there is anything in it.
fn if_any(text: &str) -> Option<&str>
    ensures { MatchOption result (if_any text.now ≡ None) (λ rest. if_any text.now ≡ Some rest.now) }
{
    if text.is_empty() {
        return None;
    }
    Some(text)
}

/// What stands behind `get`.
fn behind_get(text: &str) -> Option<&str>
    ensures { MatchOption result (behind_get text.now ≡ None) (λ rest. behind_get text.now ≡ Some rest.now) }
{
    match text.strip_prefix("get") {
        Some(rest) => if_any(rest),
        None => None,
    }
}

/// What stands in front of `List`.
fn before_list(text: &str) -> Option<&str>
    ensures { MatchOption result (before_list text.now ≡ None) (λ rest. before_list text.now ≡ Some rest.now) }
{
    match text.strip_suffix("List") {
        Some(rest) => if_any(rest),
        None => None,
    }
}

/// The name of the list whose accessor this is.
fn list_name(text: &str) -> Option<&str>
    ensures { MatchOption result (list_name (behind_get text.now) ≡ None) (λ rest. list_name (behind_get text.now) ≡ Some rest.now) }
{
    match behind_get(text) {
        Some(rest) => before_list(rest),
        None => None,
    }
}

/// The component of that name, of which the accessor is declared at this place.
fn accessed(alloc: Global, name: &str, at: Place) -> Result<Component, AllocError>
    ensures { IfOk result (λ c. component_view c ≡ record { name = record { text = name.now; at = at }; is_accessor = true }) }
{
    Ok(Component {
        name: Word {
            text: String::from_str(alloc, name)?,
            at,
        },
        is_accessor: true,
    })
}

/// The component that a declared name is of.
fn tree_component(alloc: Global, name: Word) -> Result<Component, AllocError>
    ensures { IfOk result (λ c. component_view c ≡ tree_component (word_view name) (behind_get (word_view name).text)) }
{
    if let Some(text) = behind_get(name.text.as_str()) {
        return accessed(alloc, text, name.at);
    }
    Ok(Component {
        name,
        is_accessor: false,
    })
}

impl<'a> Reader<'a> {
    /// Whether a kind is next that is no class.
    fn is_before_basic(&self) -> bool
        ensures { result ≡ next_is is_basic (left self.now.cursor.rest.now) }
    {
        self.cursor.is_before_word("int")
            || self.cursor.is_before_word("boolean")
            || self.cursor.is_before_word("String")
    }

    /// What was read of a kind, where nothing goes on with it.
    fn whole_shape(&self, shape: Shape) -> Result<Shape, ReadFault>
        ensures found { IfOk result (λ s. whole_shape (shape_view shape) (left self.now.cursor.rest.now)
            ≡ got (shape_view s) (left self.now.cursor.rest.now)) }
        ensures fault { IfErr result (λ e. Fails e (left self.now.cursor.rest.now) (whole_shape (shape_view shape) (left self.now.cursor.rest.now))) }
    {
        if self.goes_on() {
            return Err(ReadFault::For(Breach::At(JavaCode::LeftOut, shape.at)));
        }
        Ok(shape)
    }

    /// `"<" name ">"`, behind the `List` at this place.
    pub fn element_class(&mut self, at: Place) -> Result<Word, ReadFault>
        ensures found { IfOk result (λ w. element_class at (left self.old.cursor.rest.now) ≡ got (word_view w) (left self.new.cursor.rest.now)) }
        ensures fault { IfErr result (λ e. Fails e (left self.new.cursor.rest.now) (element_class at (left self.old.cursor.rest.now))) }
    {
        self.sign_of(at, "<")?;
        let class = self.name_of(at)?;
        self.sign_of(at, ">")?;
        Ok(class)
    }

    /// Whether the class of elements follows this word.
    fn opens_list(&self, word: &Word) -> bool
        ensures { result ≡ opens_list (word_view word.now) (left self.now.cursor.rest.now) }
    {
        word.text.as_str() == "List" && self.cursor.is_before_sign("<")
    }

    /// A kind, behind its first name.
    fn shape_of(&mut self, word: Word) -> Result<Shape, ReadFault>
        ensures found { IfOk result (λ s. shape_of (word_view word) (left self.old.cursor.rest.now) ≡ got (shape_view s) (left self.new.cursor.rest.now)) }
        ensures fault { IfErr result (λ e. Fails e (left self.new.cursor.rest.now) (shape_of (word_view word) (left self.old.cursor.rest.now))) }
    {
        let at = word.at;
        if self.opens_list(&word) {
            let class = self.element_class(at)?;
            return self.whole_shape(Shape {
                class,
                is_list: true,
                at,
            });
        }
        self.whole_shape(Shape {
            class: word,
            is_list: false,
            at,
        })
    }

    /// A class, or `List` with the class of its elements: another kind is left out.
    fn shape(&mut self) -> Result<Shape, ReadFault>
        ensures found { IfOk result (λ s. shape (left self.old.cursor.rest.now) ≡ got (shape_view s) (left self.new.cursor.rest.now)) }
        ensures fault { IfErr result (λ e. Fails e (left self.new.cursor.rest.now) (shape (left self.old.cursor.rest.now))) }
    {
        if self.is_before_basic() {
            return Err(ReadFault::For(Breach::Here(JavaCode::LeftOut)));
        }
        let word = self.name()?;
        self.shape_of(word)
    }

    /// The list whose accessor has the name: another name is left out at this place.
    fn list_component(&self, at: Place, name: &Word) -> Result<Component, ReadFault>
        ensures found { IfOk result (λ c.
            list_component at (word_view name.now) (list_name (behind_get (word_view name.now).text)) (left self.now.cursor.rest.now)
            ≡ got (component_view c) (left self.now.cursor.rest.now)) }
        ensures fault { IfErr result (λ e. Fails e (left self.now.cursor.rest.now)
            (list_component at (word_view name.now) (list_name (behind_get (word_view name.now).text)) (left self.now.cursor.rest.now))) }
    {
        match list_name(name.text.as_str()) {
            Some(text) => Ok(accessed(self.alloc, text, name.at)?),
            None => Err(ReadFault::For(Breach::At(JavaCode::LeftOut, at))),
        }
    }

    /// The component that the declared name is of.
    fn component(&self, shape: &Shape, name: Word) -> Result<Component, ReadFault>
        ensures found { IfOk result (λ c. component (shape_view shape.now) (word_view name) (left self.now.cursor.rest.now)
            ≡ got (component_view c) (left self.now.cursor.rest.now)) }
        ensures fault { IfErr result (λ e. Fails e (left self.now.cursor.rest.now)
            (component (shape_view shape.now) (word_view name) (left self.now.cursor.rest.now))) }
    {
        if shape.is_list {
            return self.list_component(shape.at, &name);
        }
        Ok(tree_component(self.alloc, name)?)
    }

    /// `")"`: parameters are left out.
    fn no_params(&mut self) -> Result<Place, ReadFault>
        ensures found { IfOk result (λ p. no_params (left self.old.cursor.rest.now) ≡ got p (left self.new.cursor.rest.now)) }
        ensures fault { IfErr result (λ e. Fails e (left self.new.cursor.rest.now) (no_params (left self.old.cursor.rest.now))) }
    {
        match self.cursor.takes_sign(")") {
            Some(end) => Ok(end),
            None => Err(ReadFault::For(Breach::Here(self.other_code()))),
        }
    }

    /// `"(" ")"`, behind the name of an attribute of the class.
    fn outset_end(
        &mut self,
        shape: Shape,
        class: Word,
        component: Component,
    ) -> Result<Outset, ReadFault>
        ensures found { IfOk result (λ o. outset_end (shape_view shape) (word_view class) (component_view component) (left self.old.cursor.rest.now)
            ≡ got (outset_view o) (left self.new.cursor.rest.now)) }
        ensures fault { IfErr result (λ e. Fails e (left self.new.cursor.rest.now)
            (outset_end (shape_view shape) (word_view class) (component_view component) (left self.old.cursor.rest.now))) }
    {
        self.expects("(")?;
        let end = self.no_params()?;
        let Shape {
            class: kind,
            is_list,
            at: _,
        } = shape;
        let Component { name, is_accessor } = component;
        Ok(Outset {
            kind,
            is_list,
            class,
            name,
            is_accessor,
            end,
        })
    }

    /// `shape name "." name "(" ")"`
    pub fn outset(&mut self) -> Result<Outset, ReadFault>
        ensures found { IfOk result (λ o. outset (left self.old.cursor.rest.now) ≡ got (outset_view o) (left self.new.cursor.rest.now)) }
        ensures fault { IfErr result (λ e. Fails e (left self.new.cursor.rest.now) (outset (left self.old.cursor.rest.now))) }
    {
        let shape = self.shape()?;
        let class = self.name()?;
        self.expects(".")?;
        let name = self.name()?;
        let component = self.component(&shape, name)?;
        self.outset_end(shape, class, component)
    }
}
