//! Declarations of constants.

ghost use Rattle.std.specs.Prelude.{◌≡◌, ◌++◌, IfOk, IfErr, option_map, string_bytes};
ghost use lib.Chars.{codes};
ghost use Rattle.at_text.specs.Rows.{left};
ghost use Rattle.at_jrag.specs.Syntax as syntax;
ghost use Rattle.at_jrag.specs.View.{word_view, kind_word_view, body_view, decl_view};
ghost use Rattle.at_java.specs.Read.{got, Fails};
ghost use Rattle.at_java.specs.Seen.{declared_view, making_view, outset_view};
ghost use Rattle.at_java.specs.Declarations.{accessing, accessing_if, declared_tree, declared_list, declared_constant};

use super::making::{Made, Making};
use super::outsets::Outset;
use super::terms::{many, one};
use super::{ReadFault, Reader};
use crate::constants::Constant;
use at_jrag::{Body, BodyForm, Decl, DeclForm, Ending, Expr, Form, Kind, KindWord, Params, Word};
use at_text::place::Place;
use std::alloc::{AllocError, Global};

/// What stands for a declaration among the aspects, and the constant that it declares.
#[derive(Drop)]
pub struct Declared {
    pub decl: Option<Decl>,
    pub constant: Option<Constant>,
}

/// The word once more.
fn copied(alloc: Global, word: &Word) -> Result<Word, AllocError>
    ensures { IfOk result (λ w. word_view w ≡ word_view word.now) }
{
    Ok(Word {
        text: String::from_str(alloc, word.text.as_str())?,
        at: word.at,
    })
}

/// The class, as a kind.
fn kind_of(alloc: Global, class: &Word) -> Result<KindWord, AllocError>
    ensures { IfOk result (λ k. kind_word_view k ≡ record { kind = syntax.Class (word_view class.now).text; at = class.now.at }) }
{
    let class = copied(alloc, class)?;
    Ok(KindWord {
        kind: Kind::Class(class.text),
        at: class.at,
    })
}

/// What the accessor of a component of that name gives, as a body.
fn accessed(alloc: Global, making: Making, name: &str) -> Result<Body, AllocError>
    ensures { IfOk result (λ b. body_view b
        ≡ record { at = making.at; form = syntax.Equation'; expr = syntax.Call making.made_at (codes "get" ++ name.now) syntax.no_exprs }) }
{
    let accessor = format!(in alloc; "get{name}")?;
    Ok(Body {
        at: making.at,
        form: BodyForm::Equation,
        expr: Expr {
            at: making.made_at,
            form: Form::Call(accessor, Vec::new(alloc)),
        },
    })
}

/// The declaration that stands for the constant among the aspects.
fn accessing(alloc: Global, at: Place, outset: &Outset, making: Making) -> Result<Decl, AllocError>
    ensures { IfOk result (λ d. decl_view d ≡ accessing at (outset_view outset.now) (making_view making)) }
{
    let kind = kind_of(alloc, &outset.kind)?;
    let class = copied(alloc, &outset.class)?;
    let name = copied(alloc, &outset.name)?;
    let body = accessed(alloc, making, outset.name.text.as_str())?;
    let form = DeclForm::Synthesized {
        lazy: None,
        kind,
        class,
        name,
        params: Params {
            items: Vec::new(alloc),
            end: outset.end,
        },
        start: None,
        ending: Ending::Body(body),
    };
    Ok(Decl { at, form })
}

/// The same, unless the constant is declared by the component's own accessor.
fn accessing_if(
    alloc: Global,
    at: Place,
    outset: &Outset,
    making: Making,
) -> Result<Option<Decl>, AllocError>
    ensures { IfOk result (λ d. option_map decl_view d ≡ accessing_if at (outset_view outset.now) (making_view making)) }
{
    if outset.is_accessor {
        return Ok(None);
    }
    Ok(Some(accessing(alloc, at, outset, making)?))
}

impl<'a> Reader<'a> {
    /// A tree, behind the heading of the declaration at this place.
    fn declared_tree(&mut self, at: Place, outset: Outset) -> Result<Declared, ReadFault>
        ensures found { IfOk result (λ d. declared_tree at (outset_view outset) (left self.old.cursor.rest.now)
            ≡ got (declared_view d) (left self.new.cursor.rest.now)) }
        ensures fault { IfErr result (λ e. Fails e (left self.new.cursor.rest.now) (declared_tree at (outset_view outset) (left self.old.cursor.rest.now))) }
    {
        let making = self.making(outset.name.at)?;
        let term = self.made_term(making)?;
        let decl = accessing_if(self.alloc, at, &outset, making)?;
        Ok(Declared {
            decl,
            constant: Some(outset.into_constant(making.made_at, one(term))),
        })
    }

    /// A list, behind the heading.
    fn declared_list(&mut self, outset: Outset) -> Result<Declared, ReadFault>
        ensures found { IfOk result (λ d. declared_list (outset_view outset) (left self.old.cursor.rest.now)
            ≡ got (declared_view d) (left self.new.cursor.rest.now)) }
        ensures fault { IfErr result (λ e. Fails e (left self.new.cursor.rest.now) (declared_list (outset_view outset) (left self.old.cursor.rest.now))) }
    {
        let Made { at, items } = self.made_list(outset.name.at)?;
        Ok(Declared {
            decl: None,
            constant: Some(outset.into_constant(at, many(items))),
        })
    }

    /// A constant, behind `nta`, whose declaration has this place.
    pub fn declared_constant(&mut self, at: Place) -> Result<Declared, ReadFault>
        ensures found { IfOk result (λ d. declared_constant at (left self.old.cursor.rest.now) ≡ got (declared_view d) (left self.new.cursor.rest.now)) }
        ensures fault { IfErr result (λ e. Fails e (left self.new.cursor.rest.now) (declared_constant at (left self.old.cursor.rest.now))) }
    {
        self.laziness();
        let outset = self.outset()?;
        if outset.is_list {
            return self.declared_list(outset);
        }
        self.declared_tree(at, outset)
    }
}
