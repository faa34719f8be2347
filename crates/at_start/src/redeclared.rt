//! Attributes that are declared again below.

ghost use Rattle.std.specs.Prelude.{◌≡◌, ◌∷◌, ◌++◌, [], codes, filter_map, is_some, map, option_map, string_bytes, IfOk, OnOk};
ghost use Rattle.std.specs.List.{find, flat_map, list_any};
ghost use Rattle.at_jrag.specs.View.{aspect_view, decl_view, decl_form_view, ending_view, kind_view, param_view, params_view, word_view};
ghost use Rattle.at_typing.specs.Declaring.{is_below};
ghost use Rattle.at_start.specs.declared.language.Language.TheVariants.{JastAdd};
ghost use Rattle.at_start.specs.Redeclaring.{as_equation, aspect_read, equation_of, fault_below, fault_in, files_read, in_aspect, in_files, is_above, is_again, is_declared_above, kind_text, may_start, read_as, read_below, read_in, signature_in, signature_of, signatures, strays, strays_from, superclass, superclass_in, with_kinds, Reads};

use crate::everywhere::spread;
use crate::language::Language;
use crate::overloaded::told_apart;
use at_class::{ClassId, ClassTable};
use at_jrag::{Aspect, Decl, DeclForm, Ending, Kind, KindWord, Param, Params, Word};
use at_kinds::RuleCode;
use at_text::fault::Failure;
use at_text::place::Place;
use at_typing::{Breach, RuleFault};
use std::alloc::{AllocError, Global};
use std::marker::Model;
use std::mem;

/// How many attributes may be declared.
const MAX_ATTRIBUTES: usize = 2_000;

/// A synthesized attribute as it is declared.
#[derive(Drop)]
struct Signature {
    // The file, and where in it the attribute's kind stands.
    file: usize,
    at: Place,
    kind: String,
    class: Option<ClassId>,
    // Its name with the kinds of its parameters.
    text: String,
    // The value that it starts from, where it is circular.
    start: Option<bool>,
}

impl Model for Signature {
    ghost use Rattle.std.specs.Prelude.{string_bytes};
    ghost use Rattle.at_start.specs.Redeclaring as spec;

    ghost Value = { spec.Signature };

    ghost view = { λ s. record { file = s.file; at = s.at; kind = string_bytes s.kind; class = s.class; text = string_bytes s.text; start = s.start } };
}

/// The aspects of all files, as they are read in the language.
///
/// # Errors
///
/// The first declaration whose kind isn't that of one which it declares again, nor below it. `Memory` for want of memory.
pub fn read_in(
    alloc: Global,
    language: Language,
    classes: &ClassTable,
    files: Vec<Vec<Aspect>>,
) -> Result<Vec<Vec<Aspect>>, RuleFault>
    ensures { Reads (fault_in language classes.now (map (λ f. map aspect_view f.items) files.items))
        (λ v. map (λ f. map aspect_view f.items) v.items ≡ read_in language classes.now (map (λ f. map aspect_view f.items) files.items)) result }
{
    match language {
        Language::Profile(_) => Ok(files),
        Language::JastAdd => read_again(alloc, classes, files),
    }
}

/// The aspects of all files, where what is declared again is read as equations.
fn read_again(
    alloc: Global,
    classes: &ClassTable,
    files: Vec<Vec<Aspect>>,
) -> Result<Vec<Vec<Aspect>>, RuleFault>
    ensures { Reads (fault_in JastAdd classes.now (map (λ f. map aspect_view f.items) files.items))
        (λ v. map (λ f. map aspect_view f.items) v.items ≡ read_in JastAdd classes.now (map (λ f. map aspect_view f.items) files.items)) result }
{
    let apart = told_apart(alloc, classes, files)?;
    let files = spread(alloc, classes, apart)?;
    read_below(alloc, classes, files)
}

/// The same, where nothing is declared for ASTNode.
fn read_below(
    alloc: Global,
    classes: &ClassTable,
    files: Vec<Vec<Aspect>>,
) -> Result<Vec<Vec<Aspect>>, RuleFault>
    ensures { Reads (fault_below classes.now (map (λ f. map aspect_view f.items) files.items))
        (λ v. map (λ f. map aspect_view f.items) v.items ≡ read_below classes.now (map (λ f. map aspect_view f.items) files.items)) result }
{
    let among = signatures(alloc, classes, &files)?;
    if let Some(found) = first_stray(classes, &among) {
        return Err(Failure::For(Breach {
            code: RuleCode::Kind,
            file: found.file,
            at: found.at,
        }));
    }
    let files = read_files(alloc, classes, &among, files)?;
    Ok(files)
}

/// What the files declare of synthesized attributes; nothing where that is more than may be.
fn signatures(
    alloc: Global,
    classes: &ClassTable,
    files: &[Vec<Aspect>],
) -> Result<Vec<Signature>, AllocError>
    ensures { IfOk result (λ v. v.items ≡ signatures classes.now (map (λ f. map aspect_view f.items) files.now)) }
{
    let all = signatures_in(alloc, classes, files)?;
    if all.len() <= MAX_ATTRIBUTES {
        return Ok(all);
    }
    Ok(Vec::new(alloc))
}

fn signatures_in(
    alloc: Global,
    classes: &ClassTable,
    files: &[Vec<Aspect>],
) -> Result<Vec<Signature>, AllocError>
    ensures { IfOk result (λ v. v.items ≡ in_files classes.now 1 (map (λ f. map aspect_view f.items) files.now)) }
{
    let mut all = Vec::new(alloc);
    for (i, aspects) in files.iter().enumerate() {
        append_file(alloc, classes, i + 1, aspects, &mut all)?;
    }
    Ok(all)
}

fn append_file(
    alloc: Global,
    classes: &ClassTable,
    file: usize,
    aspects: &[Aspect],
    all: &mut Vec<Signature>,
) -> Result<(), AllocError>
    ensures { OnOk result (all.new.items ≡ all.old.items ++ flat_map (in_aspect classes.now file) (map aspect_view aspects.now)) }
{
    for aspect in aspects {
        append_decls(alloc, classes, file, &aspect.decls, all)?;
    }
    Ok(())
}

fn append_decls(
    alloc: Global,
    classes: &ClassTable,
    file: usize,
    decls: &[Decl],
    all: &mut Vec<Signature>,
) -> Result<(), AllocError>
    ensures { OnOk result (all.new.items ≡ all.old.items ++ filter_map (signature_of classes.now file) (map decl_view decls.now)) }
{
    for decl in decls {
        append(alloc, classes, file, decl, all)?;
    }
    Ok(())
}

/// Adds what the declaration declares, if that is a synthesized attribute.
fn append(
    alloc: Global,
    classes: &ClassTable,
    file: usize,
    decl: &Decl,
    all: &mut Vec<Signature>,
) -> Result<(), AllocError>
    ensures { OnOk result (all.new.items ≡ all.old.items ++ filter_map (signature_of classes.now file) (decl_view decl.now ∷ [])) }
{
    if let Some(signature) = signature_in(alloc, classes, file, &decl.form)? {
        all.push(signature)?;
    }
    Ok(())
}

/// What is declared in that file, if that is a synthesized attribute.
fn signature_in(
    alloc: Global,
    classes: &ClassTable,
    file: usize,
    form: &DeclForm,
) -> Result<Option<Signature>, AllocError>
    ensures { IfOk result (λ o. o ≡ signature_in classes.now file (decl_form_view form.now)) }
{
    let DeclForm::Synthesized {
        kind,
        class,
        name,
        params,
        start,
        ..
    } = form
    else {
        return Ok(None);
    };
    Ok(Some(Signature {
        file,
        at: kind.at,
        kind: String::from_str(alloc, kind_text(&kind.kind))?,
        class: classes.id_of(class.text.as_str()),
        text: with_kinds(alloc, name.text.as_str(), &params.items)?,
        start: *start,
    }))
}

/// How the kind is written.
fn kind_text(kind: &Kind) -> &str
    ensures { result.now ≡ kind_text (kind_view kind.now) }
{
    match kind {
        Kind::Int => "int",
        Kind::Bool => "boolean",
        Kind::Text => "String",
        Kind::Class(name) => name.as_str(),
    }
}

/// The name, and behind it the kinds of the parameters, each behind a comma.
fn with_kinds(alloc: Global, name: &str, params: &[Param]) -> Result<String, AllocError>
    ensures { IfOk result (λ text. string_bytes text ≡ with_kinds name.now (map param_view params.now)) }
{
    let mut text = String::from_str(alloc, name)?;
    for param in params {
        text = with_kind(alloc, text.as_str(), kind_text(&param.kind.kind))?;
    }
    Ok(text)
}

/// The text, and behind it the kind behind a comma.
fn with_kind(alloc: Global, text: &str, kind: &str) -> Result<String, AllocError>
    ensures { IfOk result (λ more. string_bytes more ≡ text.now ++ codes "," ++ kind.now) }
{
    format!(in alloc; "{text},{kind}")
}

/// The first of them that strays from one of them.
fn first_stray<'a>(classes: &ClassTable, among: &'a [Signature]) -> Option<&'a Signature>
    ensures { option_map (λ s. s.now) result ≡ find (strays classes.now among.now) among.now }
{
    for signature in among {
        if signature.strays(classes, among) {
            return Some(signature);
        }
    }
    None
}

/// The aspects of the files, as they are read among these.
fn read_files(
    alloc: Global,
    classes: &ClassTable,
    among: &[Signature],
    files: Vec<Vec<Aspect>>,
) -> Result<Vec<Vec<Aspect>>, AllocError>
    ensures { IfOk result (λ v. map (λ f. map aspect_view f.items) v.items
        ≡ files_read classes.now among.now (map (λ f. map aspect_view f.items) files.items)) }
{
    let mut all = Vec::new(alloc);
    for aspects in files {
        let aspects = read_file(alloc, classes, among, aspects)?;
        all.push(aspects)?;
    }
    Ok(all)
}

fn read_file(
    alloc: Global,
    classes: &ClassTable,
    among: &[Signature],
    aspects: Vec<Aspect>,
) -> Result<Vec<Aspect>, AllocError>
    ensures { IfOk result (λ v. map aspect_view v.items ≡ map (aspect_read classes.now among.now) (map aspect_view aspects.items)) }
{
    let mut all = Vec::new(alloc);
    for aspect in aspects {
        let aspect = read_aspect(alloc, classes, among, aspect)?;
        all.push(aspect)?;
    }
    Ok(all)
}

fn read_aspect(
    alloc: Global,
    classes: &ClassTable,
    among: &[Signature],
    mut aspect: Aspect,
) -> Result<Aspect, AllocError>
    ensures { IfOk result (λ a. aspect_view a ≡ aspect_read classes.now among.now (aspect_view aspect)) }
{
    let decls = mem::replace(&mut aspect.decls, Vec::new(alloc));
    aspect.decls = read_decls(alloc, classes, among, decls)?;
    Ok(aspect)
}

fn read_decls(
    alloc: Global,
    classes: &ClassTable,
    among: &[Signature],
    decls: Vec<Decl>,
) -> Result<Vec<Decl>, AllocError>
    ensures { IfOk result (λ v. map decl_view v.items ≡ flat_map (read_as classes.now among.now) (map decl_view decls.items)) }
{
    let mut all = Vec::new(alloc);
    for decl in decls {
        read_decl(alloc, classes, among, decl, &mut all)?;
    }
    Ok(all)
}

/// Adds what the declaration is read as.
fn read_decl(
    alloc: Global,
    classes: &ClassTable,
    among: &[Signature],
    decl: Decl,
    all: &mut Vec<Decl>,
) -> Result<(), AllocError>
    ensures { OnOk result (map decl_view all.new.items ≡ map decl_view all.old.items ++ read_as classes.now among.now (decl_view decl)) }
{
    let is_again = is_declared_above(alloc, classes, among, &decl.form)?;
    if is_again {
        return push_equation(alloc, decl, all);
    }
    all.push(decl)?;
    Ok(())
}

/// Whether one of these declares the attribute for a class above. Most are of classes that have none above, which is seen at once.
fn is_declared_above(
    alloc: Global,
    classes: &ClassTable,
    among: &[Signature],
    form: &DeclForm,
) -> Result<bool, AllocError>
    ensures { IfOk result (λ b. b ≡ is_declared_above classes.now among.now (signature_in classes.now 0 (decl_form_view form.now))) }
{
    if !is_below_another(classes, form) {
        return Ok(false);
    }
    match signature_in(alloc, classes, 0, form)? {
        Some(signature) => Ok(signature.is_declared_above(classes, among)),
        None => Ok(false),
    }
}

/// Whether the form declares a synthesized attribute for a class that has a superclass.
fn is_below_another(classes: &ClassTable, form: &DeclForm) -> bool
    ensures { result ≡ is_some (superclass_in classes.now (decl_form_view form.now)) }
{
    match form {
        DeclForm::Synthesized { class, .. } => {
            has_class_above(classes, classes.id_of(class.text.as_str()))
        }
        _ => false,
    }
}

/// Whether the class has a superclass.
fn has_class_above(classes: &ClassTable, class: Option<ClassId>) -> bool
    ensures { result ≡ is_some (superclass classes.now class) }
{
    match class {
        Some(class) => classes.parent(class).is_some(),
        None => false,
    }
}

/// Adds the equation of a synthesized attribute that is declared with one.
fn push_equation(alloc: Global, mut decl: Decl, all: &mut Vec<Decl>) -> Result<(), AllocError>
    ensures { OnOk result (map decl_view all.new.items ≡ map decl_view all.old.items ++ as_equation decl.at (decl_form_view decl.form)) }
{
    let at = decl.at;
    let form = mem::replace(&mut decl.form, nothing(alloc));
    push_form(at, form, all)
}

fn push_form(at: Place, form: DeclForm, all: &mut Vec<Decl>) -> Result<(), AllocError>
    ensures { OnOk result (map decl_view all.new.items ≡ map decl_view all.old.items ++ as_equation at (decl_form_view form)) }
{
    match form {
        DeclForm::Synthesized {
            lazy: _,
            kind: _,
            class,
            name,
            params,
            start: _,
            ending,
        } => push_ended(at, class, name, params, ending, all),
        _ => Ok(()),
    }
}

fn push_ended(
    at: Place,
    class: Word,
    name: Word,
    params: Params,
    ending: Ending,
    all: &mut Vec<Decl>,
) -> Result<(), AllocError>
    ensures { OnOk result (map decl_view all.new.items ≡ map decl_view all.old.items
        ++ equation_of at (word_view class) (word_view name) (params_view params) (ending_view ending)) }
{
    match ending {
        Ending::Body(body) => {
            let form = DeclForm::Equation {
                class,
                name,
                params,
                body,
            };
            all.push(Decl { at, form })?;
            Ok(())
        }
        Ending::Semicolon(_) => Ok(()),
    }
}

/// What stands in a declaration whose form is taken out.
fn nothing(alloc: Global) -> DeclForm {
    DeclForm::Inherited {
        lazy: None,
        kind: KindWord {
            kind: Kind::Int,
            at: Place::START,
        },
        class: no_word(alloc),
        name: no_word(alloc),
        params: Params {
            items: Vec::new(alloc),
            end: Place::START,
        },
        start: None,
    }
}

fn no_word(alloc: Global) -> Word {
    Word {
        text: String::new(alloc),
        at: Place::START,
    }
}

impl Signature {
    /// Whether its class has a superclass. Else no class is above it.
    fn has_superclass(&self, classes: &ClassTable) -> bool
        ensures { result ≡ is_some (superclass classes.now self.now.class) }
    {
        match self.class {
            Some(class) => classes.parent(class).is_some(),
            None => false,
        }
    }

    /// Whether one of these declares the attribute for a class above. Most attributes are of classes that have none above.
    fn is_declared_above(&self, classes: &ClassTable, among: &[Signature]) -> bool
        ensures { result ≡ list_any (is_again classes.now self.now) among.now }
    {
        if !self.has_superclass(classes) {
            return false;
        }
        self.is_declared_among(classes, among)
    }

    fn is_declared_among(&self, classes: &ClassTable, among: &[Signature]) -> bool
        ensures { result ≡ list_any (is_again classes.now self.now) among.now }
    {
        for other in among {
            if self.is_again(classes, other) {
                return true;
            }
        }
        false
    }

    /// Whether one of these does, with a kind that isn't this one's, nor above it.
    fn strays(&self, classes: &ClassTable, among: &[Signature]) -> bool
        ensures { result ≡ strays classes.now among.now self.now }
    {
        if !self.has_superclass(classes) {
            return false;
        }
        self.strays_among(classes, among)
    }

    fn strays_among(&self, classes: &ClassTable, among: &[Signature]) -> bool
        ensures { result ≡ strays classes.now among.now self.now }
    {
        for other in among {
            if self.strays_from(classes, other) {
                return true;
            }
        }
        false
    }

    fn strays_from(&self, classes: &ClassTable, other: &Signature) -> bool
        ensures { result ≡ strays_from classes.now self.now other.now }
    {
        if !self.is_again(classes, other) {
            return false;
        }
        !is_below(classes, self.kind.as_str(), other.kind.as_str())
    }

    /// Whether the other one declares the same attribute for a class above.
    fn is_again(&self, classes: &ClassTable, other: &Signature) -> bool
        ensures { result ≡ is_again classes.now self.now other.now }
    {
        if self.text.as_str() != other.text.as_str() {
            return false;
        }
        if !is_above(classes, self.class, other.class) {
            return false;
        }
        may_start(self.start, other.start)
    }
}

/// Whether the second class is above the first one.
fn is_above(classes: &ClassTable, class: Option<ClassId>, above: Option<ClassId>) -> bool
    ensures { result ≡ is_above classes.now class above }
{
    let Some(class) = class else { return false };
    let Some(above) = above else { return false };
    if above == class {
        return false;
    }
    classes.is_sub(class, above)
}

/// Whether no start is written, or the one that is written above.
fn may_start(start: Option<bool>, above: Option<bool>) -> bool
    ensures { result ≡ may_start start above }
{
    if start.is_none() {
        return true;
    }
    start == above
}

/// Whether the first word is the second one, or names a class below that which the second one names.
fn is_below(classes: &ClassTable, word: &str, above: &str) -> bool
    ensures { result ≡ is_below classes.now word.now above.now }
{
    if word == above {
        return true;
    }
    let Some(class) = classes.id_of(word) else {
        return false;
    };
    let Some(other) = classes.id_of(above) else {
        return false;
    };
    classes.is_sub(class, other)
}
