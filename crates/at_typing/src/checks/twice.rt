//! Attributes that are declared twice.

ghost use Rattle.std.specs.Prelude.{◌≡◌, map, option_map, IfOk};
ghost use Rattle.at_jrag.specs.Syntax.{Class};
ghost use Rattle.at_jrag.specs.View.{decl_form_view, kind_view, kind_word_view, param_view};
ghost use Rattle.at_typing.specs.Declaring.{declared_twice, differs, is_compared, has_same_signature, has_same_start, has_same_result, have_same_kinds, is_same_kind};
ghost use Rattle.at_typing.specs.Numbering.{numbered_view, AreNumbered};
ghost use Rattle.at_typing.specs.Twice.{TellsTwice};

use super::bound::binds_twice;
use super::fault_at;
use crate::fault::Breach;
use crate::firsts::note_first;
use crate::located::{is_attribute, is_inherited, params_in, result_in, start_in};
use crate::numbered::{NamedClass, Numbered};
use at_class::ClassTable;
use at_jrag::{DeclForm, Kind, KindWord, Param};
use at_kinds::{Arguments, RuleCode};
use indexmap::{IndexMap, IndexSet};
use std::alloc::{AllocError, Global};

/// The first declaration that declares what one before it declares, or that binds a name that is bound.
pub fn declared_twice(
    alloc: Global,
    classes: &ClassTable,
    arguments: Arguments,
    declared: &[Numbered],
) -> Result<Option<Breach>, AllocError>
    requires { AreNumbered classes.now declared.now }
    ensures { IfOk result (λ fault. fault ≡ declared_twice arguments classes.now (map numbered_view declared.now)) }
{
    let mut before = Before::new(alloc);
    for numbered in declared {
        let is_twice = is_twice(alloc, classes, arguments, &before, numbered)?;
        if is_twice {
            return Ok(Some(fault_at(RuleCode::AttributeTwice, numbered, numbered.decl.at)));
        }
        before.add(classes, arguments, numbered)?;
    }
    Ok(None)
}

/// Whether the declaration declares what one of these declares, or binds a name that is bound.
fn is_twice(
    alloc: Global,
    classes: &ClassTable,
    arguments: Arguments,
    before: &Before,
    numbered: &Numbered,
) -> Result<bool, AllocError>
    ensures { IfOk result (TellsTwice arguments classes.now before.now numbered.now) }
{
    if before.clashes(classes, arguments, numbered) {
        return Ok(true);
    }
    let binds = binds_twice(alloc, &numbered.decl.form)?;
    Ok(binds)
}

/// The attributes that are declared before a declaration.
struct Before<'a> {
    // The first declaration of each name that is compared with others.
    first: IndexMap<usize, &'a DeclForm>,
    // Each class with each name that it declares.
    declared: IndexSet<(NamedClass, usize)>,
    // Each class with each name that it or a class below it declares.
    above: IndexSet<(NamedClass, usize)>,
}

/// One call, where each exit that lets them go would else have a case for each collection.
impl Drop for Before<'_> {
    fn drop(self) {
        let Before {
            first: _,
            declared: _,
            above: _,
        } = self;
    }
}

impl<'a> Before<'a> {
    ghost use Rattle.std.specs.Prelude.{◌≡◌, [], OnOk};
    ghost use Rattle.std.specs.List.{list_any};
    ghost use Rattle.at_jrag.specs.View.{decl_form_view};
    ghost use Rattle.at_model.specs.Classes.{AreSound};
    ghost use Rattle.at_typing.specs.Numbering.{line};
    ghost use Rattle.at_typing.specs.Twice.{differs_from, disagrees_from, first_form, has_key, Adds, AreBefore, TellsClash};

    fn new(alloc: Global) -> Before<'a>
        ensures first { result.first.entries ≡ [] }
        ensures declared { result.declared.keys ≡ [] }
        ensures above { result.above.keys ≡ [] }
    {
        Before {
            first: IndexMap::new(alloc),
            declared: IndexSet::new(alloc),
            above: IndexSet::new(alloc),
        }
    }

    /// Whether the declaration declares an attribute that can't be declared behind these.
    fn clashes(&self, classes: &ClassTable, arguments: Arguments, numbered: &Numbered) -> bool
        ensures { TellsClash arguments classes.now self.now numbered.now result }
    {
        if !is_attribute(&numbered.decl.form) {
            return false;
        }
        if self.disagrees(arguments, numbered) {
            return true;
        }
        if self.above.contains(&(numbered.class, numbered.name)) {
            return true;
        }
        self.is_declared_above(classes, numbered.class, numbered.name)
    }

    /// Whether the declaration is compared with others of its name, and differs from the first of them.
    fn disagrees(&self, arguments: Arguments, numbered: &Numbered) -> bool
        ensures { result ≡ disagrees_from arguments (decl_form_view numbered.now.decl.now.form) (first_form self.now numbered.now.name) }
    {
        if !is_compared(arguments, &numbered.decl.form) {
            return false;
        }
        self.differs(numbered)
    }

    /// Whether the name is synthesized and inherited, or inherited with other kinds or another start.
    fn differs(&self, numbered: &Numbered) -> bool
        ensures { result ≡ differs_from (decl_form_view numbered.now.decl.now.form) (first_form self.now numbered.now.name) }
    {
        match self.first.get(&numbered.name) {
            Some(first) => differ(&numbered.decl.form, first),
            None => false,
        }
    }

    /// Whether the class or one above it declares the name.
    fn is_declared_above(&self, classes: &ClassTable, class: NamedClass, name: usize) -> bool
        ensures declared { result ≡ list_any (has_key self.now.declared.keys name) (line classes.now class) }
        ensures sound { AreSound classes.now }
    {
        let mut next = Some(class);
        for step in 0..classes.len() {
            let Some(class) = next else { return false };
            if self.is_declared(class, name) {
                return true;
            }
            next = class.parent(classes);
        }
        false
    }

    fn is_declared(&self, class: NamedClass, name: usize) -> bool
        ensures { result ≡ has_key self.now.declared.keys name class }
    {
        self.declared.contains(&(class, name))
    }

    /// Adds the attribute that the declaration declares, if it declares one.
    fn add(
        &mut self,
        classes: &ClassTable,
        arguments: Arguments,
        numbered: &Numbered<'a>,
    ) -> Result<(), AllocError>
        ensures { OnOk result (Adds arguments classes.now numbered.now self.old self.new) }
    {
        let form = &numbered.decl.form;
        if !is_attribute(form) {
            return Ok(());
        }
        note_compared(&mut self.first, arguments, numbered.name, form)?;
        insert(&mut self.declared, numbered.class, numbered.name)?;
        insert_line(&mut self.above, classes, numbered.class, numbered.name)?;
        Ok(())
    }
}

ghost use Rattle.std.specs.Prelude.{◌∷◌, [], OnOk};
ghost use Rattle.at_model.specs.Classes.{AreSound};
ghost use Rattle.at_typing.specs.Numbering.{line};
ghost use Rattle.at_typing.specs.Twice.{InsertsKeys, NotesCompared};

/// Notes the declaration as the first of its name, if it is compared with others and none is noted.
fn note_compared<'a>(
    first: &mut IndexMap<usize, &'a DeclForm>,
    arguments: Arguments,
    name: usize,
    form: &'a DeclForm,
) -> Result<(), AllocError>
    ensures { OnOk result (NotesCompared arguments name (decl_form_view form.now) first.old first.new) }
{
    if !is_compared(arguments, form) {
        return Ok(());
    }
    note_first(first, name, form)
}

/// The class with the name is one more.
fn insert(
    keys: &mut IndexSet<(NamedClass, usize)>,
    class: NamedClass,
    name: usize,
) -> Result<(), AllocError>
    ensures { OnOk result (InsertsKeys keys.old.keys keys.new.keys name (class ∷ [])) }
{
    keys.insert((class, name))?;
    Ok(())
}

/// The class and all those above it, with the name, are more.
fn insert_line(
    keys: &mut IndexSet<(NamedClass, usize)>,
    classes: &ClassTable,
    class: NamedClass,
    name: usize,
) -> Result<(), AllocError>
    ensures inserted { OnOk result (InsertsKeys keys.old.keys keys.new.keys name (line classes.now class)) }
    ensures sound { AreSound classes.now }
{
    let mut next = Some(class);
    for step in 0..classes.len() {
        let Some(class) = next else { return Ok(()) };
        insert(keys, class, name)?;
        next = class.parent(classes);
    }
    Ok(())
}

/// Whether the declaration is compared with others of its name: an inherited one, and each one unless what is
/// computed may be an argument.
fn is_compared(arguments: Arguments, form: &DeclForm) -> bool
    ensures { result ≡ is_compared arguments (decl_form_view form.now) }
{
    match arguments {
        Arguments::Given => true,
        Arguments::Computed => is_inherited(form),
    }
}

/// Whether of two attributes of one name one is synthesized and one inherited, or both are inherited with
/// other kinds or another start.
fn differ(form: &DeclForm, other: &DeclForm) -> bool
    ensures { result ≡ differs (decl_form_view form.now) (decl_form_view other.now) }
{
    if !is_inherited(form) {
        return is_inherited(other);
    }
    if !is_inherited(other) {
        return true;
    }
    if !has_same_kinds(form, other) {
        return true;
    }
    !has_same_start(form, other)
}

/// Whether two attributes start from the same value, or neither is circular.
fn has_same_start(form: &DeclForm, other: &DeclForm) -> bool
    ensures { result ≡ has_same_start (decl_form_view form.now) (decl_form_view other.now) }
{
    start_in(form) == start_in(other)
}

/// Whether two attributes have the same result and the same kinds of parameters.
fn has_same_kinds(form: &DeclForm, other: &DeclForm) -> bool
    ensures { result ≡ has_same_signature (decl_form_view form.now) (decl_form_view other.now) }
{
    has_same_result(result_in(form), result_in(other))
        && have_same_kinds(&params_in(form).items, &params_in(other).items)
}

fn has_same_result(kind: Option<&KindWord>, other: Option<&KindWord>) -> bool
    ensures { result ≡ has_same_result (option_map (λ k. kind_word_view k.now) kind.entry) (option_map (λ k. kind_word_view k.now) other.entry) }
{
    let Some(kind) = kind else { return false };
    let Some(other) = other else { return false };
    is_same_kind(&kind.kind, &other.kind)
}

fn have_same_kinds(params: &[Param], others: &[Param]) -> bool
    ensures { result ≡ have_same_kinds (map param_view params.now) (map param_view others.now) }
{
    if params.len() != others.len() {
        return false;
    }
    for (i, param) in params.iter().enumerate() {
        if !is_same_kind(&param.kind.kind, &others[i].kind.kind) {
            return false;
        }
    }
    true
}

/// Whether two kinds are written the same.
fn is_same_kind(kind: &Kind, other: &Kind) -> bool
    ensures { result ≡ is_same_kind (kind_view kind.now) (kind_view other.now) }
{
    match kind {
        Kind::Int => matches!(other, Kind::Int),
        Kind::Bool => matches!(other, Kind::Bool),
        Kind::Text => matches!(other, Kind::Text),
        Kind::Class(name) => names(other, name.as_str()),
    }
}

/// Whether the kind is the class of that name.
fn names(kind: &Kind, class: &str) -> bool
    ensures { result ≡ is_same_kind (Class class.now) (kind_view kind.now) }
{
    match kind {
        Kind::Class(name) => class == name.as_str(),
        Kind::Int | Kind::Bool | Kind::Text => false,
    }
}
