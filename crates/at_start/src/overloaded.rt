//! Attributes that are overloaded by the number of their parameters.

ghost use Rattle.std.specs.Prelude.{◌≡◌, map, nat_le, option_map, IfOk};
ghost use Rattle.at_jrag.specs.View.{aspect_view, body_view, decl_view, decl_form_view, ending_view, kind_word_view, params_view, word_view};
ghost use Rattle.at_jrag.specs.Syntax.{Equation, Inherited, InheritedEquation, Synthesized};
ghost use Rattle.at_start.specs.Overloading.{apart_among, aspect_apart, decl_apart, ending_apart, files_apart, form_apart, told_apart};
ghost use Rattle.at_start.specs.Pairs.{overloaded_in};

mod calls;
mod pairs;

use crate::everywhere::{copied_kind_word, copied_params};
use at_class::ClassTable;
use at_jrag::{Aspect, Body, Decl, DeclForm, Ending, KindWord, Params, Word};
use at_text::place::Place;
use calls::Apart;
use pairs::{Counted, all_counted, overloaded};
use std::alloc::{AllocError, Global};
use std::mem;

/// How many attributes may be declared.
const MAX_ATTRIBUTES: usize = 2_000;

/// The aspects of all files, where overloaded attributes are told apart; or want of memory.
pub fn told_apart(
    alloc: Global,
    classes: &ClassTable,
    files: Vec<Vec<Aspect>>,
) -> Result<Vec<Vec<Aspect>>, AllocError>
    ensures { IfOk result (λ v. map (λ f. map aspect_view f.items) v.items
        ≡ told_apart classes.now (map (λ f. map aspect_view f.items) files.items)) }
{
    let counted = all_counted(alloc, &files)?;
    if is_few(counted.len()) {
        return apart_among(alloc, classes, &counted, files);
    }
    Ok(files)
}

/// Whether so many attributes may be declared.
fn is_few(count: usize) -> bool
    ensures { result ≡ nat_le count 2000 }
{
    count <= MAX_ATTRIBUTES
}

/// The aspects of the files, where these attributes are declared. Mostly none is overloaded, and they stay as they are.
fn apart_among(
    alloc: Global,
    classes: &ClassTable,
    counted: &[Counted],
    files: Vec<Vec<Aspect>>,
) -> Result<Vec<Vec<Aspect>>, AllocError>
    ensures { IfOk result (λ v. map (λ f. map aspect_view f.items) v.items
        ≡ apart_among classes.now counted.now (map (λ f. map aspect_view f.items) files.items)) }
{
    let pairs = overloaded(alloc, classes, counted)?;
    if pairs.is_empty() {
        return Ok(files);
    }
    let apart = Apart { alloc, pairs };
    apart.files(files)
}

impl Apart<'_> {
    fn files(&self, files: Vec<Vec<Aspect>>) -> Result<Vec<Vec<Aspect>>, AllocError>
        ensures { IfOk result (λ v. map (λ f. map aspect_view f.items) v.items
            ≡ files_apart (overloaded_in self.now.pairs) (map (λ f. map aspect_view f.items) files.items)) }
    {
        let mut all = Vec::new(self.alloc);
        for aspects in files {
            let aspects = self.aspects(aspects)?;
            all.push(aspects)?;
        }
        Ok(all)
    }

    fn aspects(&self, aspects: Vec<Aspect>) -> Result<Vec<Aspect>, AllocError>
        ensures { IfOk result (λ v. map aspect_view v.items ≡ map (aspect_apart (overloaded_in self.now.pairs)) (map aspect_view aspects.items)) }
    {
        let mut all = Vec::new(self.alloc);
        for aspect in aspects {
            let aspect = self.aspect(aspect)?;
            all.push(aspect)?;
        }
        Ok(all)
    }

    fn aspect(&self, mut aspect: Aspect) -> Result<Aspect, AllocError>
        ensures { IfOk result (λ a. aspect_view a ≡ aspect_apart (overloaded_in self.now.pairs) (aspect_view aspect)) }
    {
        let decls = mem::replace(&mut aspect.decls, Vec::new(self.alloc));
        aspect.decls = self.decls(decls)?;
        Ok(aspect)
    }

    fn decls(&self, decls: Vec<Decl>) -> Result<Vec<Decl>, AllocError>
        ensures { IfOk result (λ v. map decl_view v.items ≡ map (decl_apart (overloaded_in self.now.pairs)) (map decl_view decls.items)) }
    {
        let mut all = Vec::new(self.alloc);
        for decl in decls {
            let decl = self.decl(&decl)?;
            all.push(decl)?;
        }
        Ok(all)
    }

    fn decl(&self, decl: &Decl) -> Result<Decl, AllocError>
        ensures { IfOk result (λ d. decl_view d ≡ decl_apart (overloaded_in self.now.pairs) (decl_view decl.now)) }
    {
        Ok(Decl {
            at: decl.at,
            form: self.form(&decl.form)?,
        })
    }

    /// The form, where the attribute that it is of is told apart, and the calls in its body.
    fn form(&self, form: &DeclForm) -> Result<DeclForm, AllocError>
        ensures { IfOk result (λ f. decl_form_view f ≡ form_apart (overloaded_in self.now.pairs) (decl_form_view form.now)) }
    {
        match form {
            DeclForm::Synthesized {
                lazy,
                kind,
                class,
                name,
                params,
                start,
                ending,
            } => self.synthesized(*lazy, kind, class, name, params, *start, ending),
            DeclForm::Inherited {
                lazy,
                kind,
                class,
                name,
                params,
                start,
            } => self.inherited(*lazy, kind, class, name, params, *start),
            DeclForm::Equation {
                class,
                name,
                params,
                body,
            } => self.equation(class, name, params, body),
            DeclForm::InheritedEquation {
                class,
                getter,
                index,
                name,
                params,
                body,
            } => self.inherited_equation(class, getter, index, name, params, body),
        }
    }

    fn synthesized(
        &self,
        lazy: Option<Place>,
        kind: &KindWord,
        class: &Word,
        name: &Word,
        params: &Params,
        start: Option<bool>,
        ending: &Ending,
    ) -> Result<DeclForm, AllocError>
        ensures { IfOk result (λ f. decl_form_view f ≡ form_apart (overloaded_in self.now.pairs) (Synthesized lazy (kind_word_view kind.now)
            (word_view class.now) (word_view name.now) (params_view params.now) start (ending_view ending.now))) }
    {
        Ok(DeclForm::Synthesized {
            lazy,
            kind: copied_kind_word(self.alloc, kind)?,
            class: self.copied(class)?,
            name: self.word(name, params)?,
            params: copied_params(self.alloc, params)?,
            start,
            ending: self.ending(ending)?,
        })
    }

    fn inherited(
        &self,
        lazy: Option<Place>,
        kind: &KindWord,
        class: &Word,
        name: &Word,
        params: &Params,
        start: Option<bool>,
    ) -> Result<DeclForm, AllocError>
        ensures { IfOk result (λ f. decl_form_view f ≡ form_apart (overloaded_in self.now.pairs) (Inherited lazy (kind_word_view kind.now)
            (word_view class.now) (word_view name.now) (params_view params.now) start)) }
    {
        Ok(DeclForm::Inherited {
            lazy,
            kind: copied_kind_word(self.alloc, kind)?,
            class: self.copied(class)?,
            name: self.word(name, params)?,
            params: copied_params(self.alloc, params)?,
            start,
        })
    }

    fn equation(
        &self,
        class: &Word,
        name: &Word,
        params: &Params,
        body: &Body,
    ) -> Result<DeclForm, AllocError>
        ensures { IfOk result (λ f. decl_form_view f ≡ form_apart (overloaded_in self.now.pairs)
            (Equation (word_view class.now) (word_view name.now) (params_view params.now) (body_view body.now))) }
    {
        Ok(DeclForm::Equation {
            class: self.copied(class)?,
            name: self.word(name, params)?,
            params: copied_params(self.alloc, params)?,
            body: self.body(body)?,
        })
    }

    fn inherited_equation(
        &self,
        class: &Word,
        getter: &Word,
        index: &Option<Word>,
        name: &Word,
        params: &Params,
        body: &Body,
    ) -> Result<DeclForm, AllocError>
        ensures { IfOk result (λ f. decl_form_view f ≡ form_apart (overloaded_in self.now.pairs)
            (InheritedEquation (word_view class.now) (word_view getter.now) (option_map word_view index.now) (word_view name.now)
            (params_view params.now) (body_view body.now))) }
    {
        Ok(DeclForm::InheritedEquation {
            class: self.copied(class)?,
            getter: self.copied(getter)?,
            index: self.index(index)?,
            name: self.word(name, params)?,
            params: copied_params(self.alloc, params)?,
            body: self.body(body)?,
        })
    }

    fn index(&self, index: &Option<Word>) -> Result<Option<Word>, AllocError>
        ensures { IfOk result (λ o. option_map word_view o ≡ option_map word_view index.now) }
    {
        match index {
            Some(word) => Ok(Some(self.copied(word)?)),
            None => Ok(None),
        }
    }

    fn ending(&self, ending: &Ending) -> Result<Ending, AllocError>
        ensures { IfOk result (λ e. ending_view e ≡ ending_apart (overloaded_in self.now.pairs) (ending_view ending.now)) }
    {
        match ending {
            Ending::Body(body) => Ok(Ending::Body(self.body(body)?)),
            Ending::Semicolon(at) => Ok(Ending::Semicolon(*at)),
        }
    }
}
