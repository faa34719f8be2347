//! Attributes that are declared for ASTNode.

ghost use Rattle.std.specs.Prelude.{◌≡◌, ◌∷◌, ◌++◌, ◌<◌, [], filter_map, length, map, nat_le, option_map, IfOk, OnOk};
ghost use Rattle.std.specs.List.{flat_map};
ghost use Rattle.at_jrag.specs.Syntax.{With};
ghost use Rattle.at_jrag.specs.View.{aspect_view, body_view, decl_view, decl_form_view, ending_view, kind_view, kind_word_view, param_view, params_view, word_view};
ghost use Rattle.at_model.specs.Classes.{class_of_name, name_of};
ghost use Rattle.at_typing.specs.Declaring.{is_attribute};
ghost use Rattle.at_typing.specs.Located.{class_word, name_word};
ghost use Rattle.at_start.specs.Spreading.{aspect_spread, decl_for, decls_at_root, decls_everywhere, decls_from, ending_if, files_spread, form_for, head_in, head_of, heads, heads_in, is_among, is_among_at_root, is_declared_for, is_everywhere, is_head, is_head_at_root, is_of_root_line, is_on_root_line, is_on_root_line_if, is_sought, is_topmost, is_topmost_below_root, null_form, renamed, spread, spread_as, spread_over, stands_for, without_body};

use crate::null_calls::null_body;
use at_class::{ClassId, ClassTable};
use at_java::copy_of;
use at_jrag::{Aspect, Body, Decl, DeclForm, Ending, Kind, KindWord, Param, Params, Word};
use at_text::place::Place;
use std::alloc::{AllocError, Global};
use std::marker::Model;
use std::mem;

/// How many attributes may be declared.
const MAX_ATTRIBUTES: usize = 2_000;

/// The word for what stands above all classes.
pub const EVERY_NODE: &str = "ASTNode";

/// Of which declarations heads are sought.
#[derive(Clone, Copy)]
enum Sought {
    /// Those of attributes.
    Attributes,
    /// Equations for a class's own nodes.
    Equations,
}

/// Of a declaration: the class that is named, and the attribute.
#[derive(Drop)]
struct Head {
    class: String,
    name: String,
}

impl Model for Head {
    ghost use Rattle.std.specs.Prelude.{string_bytes};
    ghost use Rattle.at_start.specs.Spreading as spec;

    ghost Value = { spec.Head };

    ghost view = { λ h. record { class = string_bytes h.class; name = string_bytes h.name } };
}

/// What classes have themselves.
#[derive(Drop)]
struct Own {
    attributes: Vec<Head>,
    equations: Vec<Head>,
}

/// The aspects of all files, where what is declared for ASTNode is declared for classes; or want of memory.
pub fn spread(
    alloc: Global,
    classes: &ClassTable,
    files: Vec<Vec<Aspect>>,
) -> Result<Vec<Vec<Aspect>>, AllocError>
    ensures { IfOk result (λ v. map (λ f. map aspect_view f.items) v.items ≡ spread classes.now (map (λ f. map aspect_view f.items) files.items)) }
{
    let attributes = heads(alloc, Sought::Attributes, &files)?;
    if is_few(attributes.len()) {
        return spread_over(alloc, classes, attributes, files);
    }
    Ok(files)
}

/// Whether so many attributes may be declared.
fn is_few(count: usize) -> bool
    ensures { result ≡ nat_le count 2000 }
{
    count <= MAX_ATTRIBUTES
}

/// The aspects of the files, where classes declare these attributes.
fn spread_over(
    alloc: Global,
    classes: &ClassTable,
    attributes: Vec<Head>,
    files: Vec<Vec<Aspect>>,
) -> Result<Vec<Vec<Aspect>>, AllocError>
    ensures { IfOk result (λ v. map (λ f. map aspect_view f.items) v.items
        ≡ spread_over classes.now attributes.items (map (λ f. map aspect_view f.items) files.items)) }
{
    let equations = heads(alloc, Sought::Equations, &files)?;
    let own = Own {
        attributes,
        equations,
    };
    spread_files(alloc, classes, &own, files)
}

/// The heads of such declarations of all files.
fn heads(alloc: Global, sought: Sought, files: &[Vec<Aspect>]) -> Result<Vec<Head>, AllocError>
    ensures { IfOk result (λ v. v.items ≡ heads sought (map (λ f. map aspect_view f.items) files.now)) }
{
    let mut all = Vec::new(alloc);
    for aspects in files {
        append_file(alloc, sought, aspects, &mut all)?;
    }
    Ok(all)
}

fn append_file(
    alloc: Global,
    sought: Sought,
    aspects: &[Aspect],
    all: &mut Vec<Head>,
) -> Result<(), AllocError>
    ensures { OnOk result (all.new.items ≡ all.old.items ++ flat_map (heads_in sought) (map aspect_view aspects.now)) }
{
    for aspect in aspects {
        append_decls(alloc, sought, &aspect.decls, all)?;
    }
    Ok(())
}

fn append_decls(
    alloc: Global,
    sought: Sought,
    decls: &[Decl],
    all: &mut Vec<Head>,
) -> Result<(), AllocError>
    ensures { OnOk result (all.new.items ≡ all.old.items ++ filter_map (head_of sought) (map decl_view decls.now)) }
{
    for decl in decls {
        append(alloc, sought, decl, all)?;
    }
    Ok(())
}

/// Adds the declaration's head, if it is such a one.
fn append(alloc: Global, sought: Sought, decl: &Decl, all: &mut Vec<Head>) -> Result<(), AllocError>
    ensures { OnOk result (all.new.items ≡ all.old.items ++ filter_map (head_of sought) (decl_view decl.now ∷ [])) }
{
    if is_sought(sought, &decl.form) {
        all.push(head_in(alloc, &decl.form)?)?;
    }
    Ok(())
}

fn is_sought(sought: Sought, form: &DeclForm) -> bool
    ensures { result ≡ is_sought sought (decl_form_view form.now) }
{
    match sought {
        Sought::Attributes => is_attribute(form),
        Sought::Equations => matches!(form, DeclForm::Equation { .. }),
    }
}

/// Whether the form declares an attribute.
fn is_attribute(form: &DeclForm) -> bool
    ensures { result ≡ is_attribute (decl_form_view form.now) }
{
    matches!(
        form,
        DeclForm::Synthesized { .. } | DeclForm::Inherited { .. }
    )
}

fn head_in(alloc: Global, form: &DeclForm) -> Result<Head, AllocError>
    ensures { IfOk result (λ h. h ≡ head_in (decl_form_view form.now)) }
{
    Ok(Head {
        class: String::from_str(alloc, class_word(form).text.as_str())?,
        name: String::from_str(alloc, name_word(form).text.as_str())?,
    })
}

/// The class that is named.
fn class_word(form: &DeclForm) -> &Word
    ensures { word_view result.now ≡ class_word (decl_form_view form.now) }
{
    match form {
        DeclForm::Synthesized { class, .. } => class,
        DeclForm::Inherited { class, .. } => class,
        DeclForm::Equation { class, .. } => class,
        DeclForm::InheritedEquation { class, .. } => class,
    }
}

/// The attribute's name.
fn name_word(form: &DeclForm) -> &Word
    ensures { word_view result.now ≡ name_word (decl_form_view form.now) }
{
    match form {
        DeclForm::Synthesized { name, .. } => name,
        DeclForm::Inherited { name, .. } => name,
        DeclForm::Equation { name, .. } => name,
        DeclForm::InheritedEquation { name, .. } => name,
    }
}

/// Whether one of them is of that class and that attribute.
fn is_among(heads: &[Head], class: &str, name: &str) -> bool
    ensures { result ≡ is_among heads.now class.now name.now }
{
    for head in heads {
        if head.is_of(class, name) {
            return true;
        }
    }
    false
}

impl Head {
    fn is_of(&self, class: &str, name: &str) -> bool
        ensures { result ≡ is_head class.now name.now self.now }
    {
        if class != self.class.as_str() {
            return false;
        }
        name == self.name.as_str()
    }

    /// Whether it is of that attribute, and of a class on the root's line.
    fn is_at_root(&self, classes: &ClassTable, name: &str) -> bool
        ensures { result ≡ is_head_at_root classes.now name.now self.now }
    {
        if name != self.name.as_str() {
            return false;
        }
        match classes.id_of(self.class.as_str()) {
            Some(class) => is_on_root_line(classes, class),
            None => false,
        }
    }
}

/// The aspects of the files, where classes have these of their own.
fn spread_files(
    alloc: Global,
    classes: &ClassTable,
    own: &Own,
    files: Vec<Vec<Aspect>>,
) -> Result<Vec<Vec<Aspect>>, AllocError>
    ensures { IfOk result (λ v. map (λ f. map aspect_view f.items) v.items
        ≡ files_spread classes.now own.now.attributes.items own.now.equations.items (map (λ f. map aspect_view f.items) files.items)) }
{
    let mut all = Vec::new(alloc);
    for aspects in files {
        let aspects = spread_file(alloc, classes, own, aspects)?;
        all.push(aspects)?;
    }
    Ok(all)
}

fn spread_file(
    alloc: Global,
    classes: &ClassTable,
    own: &Own,
    aspects: Vec<Aspect>,
) -> Result<Vec<Aspect>, AllocError>
    ensures { IfOk result (λ v. map aspect_view v.items
        ≡ map (aspect_spread classes.now own.now.attributes.items own.now.equations.items) (map aspect_view aspects.items)) }
{
    let mut all = Vec::new(alloc);
    for aspect in aspects {
        let aspect = spread_aspect(alloc, classes, own, aspect)?;
        all.push(aspect)?;
    }
    Ok(all)
}

fn spread_aspect(
    alloc: Global,
    classes: &ClassTable,
    own: &Own,
    mut aspect: Aspect,
) -> Result<Aspect, AllocError>
    ensures { IfOk result (λ a. aspect_view a ≡ aspect_spread classes.now own.now.attributes.items own.now.equations.items (aspect_view aspect)) }
{
    let decls = mem::replace(&mut aspect.decls, Vec::new(alloc));
    aspect.decls = spread_decls(alloc, classes, own, decls)?;
    Ok(aspect)
}

fn spread_decls(
    alloc: Global,
    classes: &ClassTable,
    own: &Own,
    decls: Vec<Decl>,
) -> Result<Vec<Decl>, AllocError>
    ensures { IfOk result (λ v. map decl_view v.items
        ≡ flat_map (spread_as classes.now own.now.attributes.items own.now.equations.items) (map decl_view decls.items)) }
{
    let mut all = Vec::new(alloc);
    for decl in decls {
        spread_decl(alloc, classes, own, decl, &mut all)?;
    }
    Ok(all)
}

/// Adds what the declaration is read as.
fn spread_decl(
    alloc: Global,
    classes: &ClassTable,
    own: &Own,
    decl: Decl,
    all: &mut Vec<Decl>,
) -> Result<(), AllocError>
    ensures { OnOk result (map decl_view all.new.items
        ≡ map decl_view all.old.items ++ spread_as classes.now own.now.attributes.items own.now.equations.items (decl_view decl)) }
{
    if is_everywhere(&decl.form) {
        return append_everywhere(alloc, classes, own, &decl, all);
    }
    all.push(decl)?;
    Ok(())
}

/// Whether it declares an attribute for ASTNode.
fn is_everywhere(form: &DeclForm) -> bool
    ensures { result ≡ is_everywhere (decl_form_view form.now) }
{
    if !is_attribute(form) {
        return false;
    }
    class_word(form).text.as_str() == EVERY_NODE
}

/// Adds what is declared for the start class alone, and for each class.
fn append_everywhere(
    alloc: Global,
    classes: &ClassTable,
    own: &Own,
    decl: &Decl,
    all: &mut Vec<Decl>,
) -> Result<(), AllocError>
    ensures { OnOk result (map decl_view all.new.items
        ≡ map decl_view all.old.items ++ decls_everywhere classes.now own.now.attributes.items own.now.equations.items (decl_view decl.now)) }
{
    append_root(alloc, classes, &own.attributes, decl, all)?;
    append_classes(alloc, classes, own, decl, all)
}

/// Adds what the start class declares in place of an inherited attribute, unless a class on its line declares that itself.
fn append_root(
    alloc: Global,
    classes: &ClassTable,
    attributes: &[Head],
    decl: &Decl,
    all: &mut Vec<Decl>,
) -> Result<(), AllocError>
    ensures { OnOk result (map decl_view all.new.items
        ≡ map decl_view all.old.items ++ decls_at_root classes.now attributes.now (decl_view decl.now)) }
{
    if is_among_at_root(classes, attributes, name_word(&decl.form).text.as_str()) {
        return Ok(());
    }
    if let Some(form) = null_form(alloc, classes.name_of(classes.start()), &decl.form)? {
        all.push(Decl { at: decl.at, form })?;
    }
    Ok(())
}

/// Whether one of them is of that attribute, and of the class of the root or one above or below it.
fn is_among_at_root(classes: &ClassTable, heads: &[Head], name: &str) -> bool
    ensures { result ≡ is_among_at_root classes.now heads.now name.now }
{
    for head in heads {
        if head.is_at_root(classes, name) {
            return true;
        }
    }
    false
}

/// The synthesized attribute that the start class, of that name, declares in place of an inherited one.
fn null_form(alloc: Global, root: &str, form: &DeclForm) -> Result<Option<DeclForm>, AllocError>
    ensures { IfOk result (λ o. option_map decl_form_view o ≡ null_form root.now (decl_form_view form.now)) }
{
    match form {
        DeclForm::Inherited {
            lazy,
            kind,
            class: of,
            name,
            params,
            start: _,
        } => Ok(Some(DeclForm::Synthesized {
            lazy: *lazy,
            kind: copied_kind_word(alloc, kind)?,
            class: word_at(alloc, of.at, root)?,
            name: word_at(alloc, name.at, name.text.as_str())?,
            params: copied_params(alloc, params)?,
            start: None,
            ending: Ending::Body(null_body(
                alloc,
                word_at(alloc, of.at, root)?,
                name,
                &params.items,
            )?),
        })),
        _ => Ok(None),
    }
}

/// Adds what is declared for each class.
fn append_classes(
    alloc: Global,
    classes: &ClassTable,
    own: &Own,
    decl: &Decl,
    all: &mut Vec<Decl>,
) -> Result<(), AllocError>
    ensures { OnOk result (map decl_view all.new.items
        ≡ map decl_view all.old.items ++ decls_from classes.now own.now.attributes.items own.now.equations.items (decl_view decl.now) 0 classes.now) }
{
    for class in 0..classes.len() {
        append_class(alloc, classes, own, ClassId::new(class), decl, all)?;
    }
    Ok(())
}

/// Adds what is declared for the class, if something is.
fn append_class(
    alloc: Global,
    classes: &ClassTable,
    own: &Own,
    class: ClassId,
    decl: &Decl,
    all: &mut Vec<Decl>,
) -> Result<(), AllocError>
    requires { class < length classes.now }
    ensures { OnOk result (map decl_view all.new.items
        ≡ map decl_view all.old.items ++ decl_for classes.now own.now.attributes.items own.now.equations.items (decl_view decl.now) class) }
{
    if !is_declared_for(classes, &own.attributes, class, &decl.form) {
        return Ok(());
    }
    if let Some(form) = form_for(alloc, &own.equations, classes.name_of(class), &decl.form)? {
        all.push(Decl { at: decl.at, form })?;
    }
    Ok(())
}

/// Whether an attribute of ASTNode is declared for the class, which doesn't declare it itself.
fn is_declared_for(
    classes: &ClassTable,
    attributes: &[Head],
    class: ClassId,
    form: &DeclForm,
) -> bool
    requires { class < length classes.now }
    ensures { result ≡ is_declared_for classes.now attributes.now class (decl_form_view form.now) }
{
    if !stands_for(classes, class, form) {
        return false;
    }
    !is_among(
        attributes,
        classes.name_of(class),
        name_word(form).text.as_str(),
    )
}

/// Whether it is one of the classes for which such an attribute is declared.
fn stands_for(classes: &ClassTable, class: ClassId, form: &DeclForm) -> bool
    ensures { result ≡ stands_for classes.now class (decl_form_view form.now) }
{
    match form {
        DeclForm::Synthesized { .. } => is_topmost(classes, class),
        DeclForm::Inherited { .. } => is_topmost_below_root(classes, class),
        _ => false,
    }
}

/// Whether no class is above it.
fn is_topmost(classes: &ClassTable, class: ClassId) -> bool
    ensures { result ≡ is_topmost classes.now class }
{
    classes.parent(class).is_none()
}

/// Whether none of its trees is the root, and no class above it is such.
fn is_topmost_below_root(classes: &ClassTable, class: ClassId) -> bool
    ensures { result ≡ is_topmost_below_root classes.now class }
{
    if is_on_root_line(classes, class) {
        return false;
    }
    match classes.parent(class) {
        Some(parent) => is_on_root_line(classes, parent),
        None => true,
    }
}

/// Whether it is the class of the root, or one above or below it.
fn is_on_root_line(classes: &ClassTable, class: ClassId) -> bool
    ensures { result ≡ is_on_root_line classes.now class }
{
    let root = classes.start();
    if classes.is_sub(class, root) {
        return true;
    }
    classes.is_sub(root, class)
}

/// The attribute as it is declared for the class of that name, where classes have these equations.
fn form_for(
    alloc: Global,
    equations: &[Head],
    class: &str,
    form: &DeclForm,
) -> Result<Option<DeclForm>, AllocError>
    ensures { IfOk result (λ o. option_map decl_form_view o ≡ form_for equations.now class.now (decl_form_view form.now)) }
{
    match form {
        DeclForm::Synthesized {
            lazy,
            kind,
            class: of,
            name,
            params,
            start,
            ending,
        } => {
            let has_own = is_among(equations, class, name.text.as_str());
            Ok(Some(DeclForm::Synthesized {
                lazy: *lazy,
                kind: copied_kind_word(alloc, kind)?,
                class: word_at(alloc, of.at, class)?,
                name: word_at(alloc, name.at, name.text.as_str())?,
                params: copied_params(alloc, params)?,
                start: *start,
                ending: ending_if(alloc, has_own, ending)?,
            }))
        }
        DeclForm::Inherited {
            lazy,
            kind,
            class: of,
            name,
            params,
            start,
        } => Ok(Some(DeclForm::Inherited {
            lazy: *lazy,
            kind: copied_kind_word(alloc, kind)?,
            class: word_at(alloc, of.at, class)?,
            name: word_at(alloc, name.at, name.text.as_str())?,
            params: copied_params(alloc, params)?,
            start: *start,
        })),
        _ => Ok(None),
    }
}

/// The ending, without its equation where the class has one of its own.
fn ending_if(alloc: Global, has_own: bool, ending: &Ending) -> Result<Ending, AllocError>
    ensures { IfOk result (λ e. ending_view e ≡ ending_if has_own (ending_view ending.now)) }
{
    match ending {
        Ending::Body(body) => body_if(alloc, has_own, body),
        Ending::Semicolon(at) => Ok(Ending::Semicolon(*at)),
    }
}

fn body_if(alloc: Global, has_own: bool, body: &Body) -> Result<Ending, AllocError>
    ensures { IfOk result (λ e. ending_view e ≡ ending_if has_own (With (body_view body.now))) }
{
    if has_own {
        return Ok(Ending::Semicolon(body.at));
    }
    Ok(Ending::Body(Body {
        at: body.at,
        form: body.form,
        expr: copy_of(alloc, &body.expr)?,
    }))
}

/// The word with that text at that place; or want of memory.
pub fn word_at(alloc: Global, at: Place, text: &str) -> Result<Word, AllocError>
    ensures { IfOk result (λ w. word_view w ≡ record { text = text.now; at = at }) }
{
    Ok(Word {
        text: String::from_str(alloc, text)?,
        at,
    })
}

/// The parameters, copied; or want of memory.
pub fn copied_params(alloc: Global, params: &Params) -> Result<Params, AllocError>
    ensures { IfOk result (λ p. params_view p ≡ params_view params.now) }
{
    Ok(Params {
        items: copied_items(alloc, &params.items)?,
        end: params.end,
    })
}

fn copied_items(alloc: Global, params: &[Param]) -> Result<Vec<Param>, AllocError>
    ensures { IfOk result (λ v. map param_view v.items ≡ map param_view params.now) }
{
    let mut all = Vec::new(alloc);
    for param in params {
        let param = copied_param(alloc, param)?;
        all.push(param)?;
    }
    Ok(all)
}

fn copied_param(alloc: Global, param: &Param) -> Result<Param, AllocError>
    ensures { IfOk result (λ p. param_view p ≡ param_view param.now) }
{
    Ok(Param {
        kind: copied_kind_word(alloc, &param.kind)?,
        name: word_at(alloc, param.name.at, param.name.text.as_str())?,
    })
}

/// The kind where it stands, copied; or want of memory.
pub fn copied_kind_word(alloc: Global, word: &KindWord) -> Result<KindWord, AllocError>
    ensures { IfOk result (λ k. kind_word_view k ≡ kind_word_view word.now) }
{
    Ok(KindWord {
        kind: copied_kind(alloc, &word.kind)?,
        at: word.at,
    })
}

fn copied_kind(alloc: Global, kind: &Kind) -> Result<Kind, AllocError>
    ensures { IfOk result (λ k. kind_view k ≡ kind_view kind.now) }
{
    match kind {
        Kind::Int => Ok(Kind::Int),
        Kind::Bool => Ok(Kind::Bool),
        Kind::Text => Ok(Kind::Text),
        Kind::Class(name) => Ok(Kind::Class(String::from_str(alloc, name.as_str())?)),
    }
}
