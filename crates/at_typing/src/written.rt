//! What is written of attributes.

ghost use Rattle.std.specs.Prelude.{◌≡◌, ◌++◌, All, map, position, IfOk, OnOk};
ghost use Rattle.at_jrag.specs.View.{kind_view as kind_form_view, kind_word_view, param_view};
ghost use Rattle.at_typing.specs.Numbering.{IsOfItsClass, known_class as known_class_of, numbered_view};
ghost use Rattle.at_typing.specs.Declaring.{result_in};
ghost use Rattle.at_typing.specs.Meanings.{results, signature, signature_if, signatures, words_of};
ghost use Rattle.at_typing.specs.Ruling.{known_kind, as_written, first_named, first_unless, names_class, words_view, written_kind};
ghost use Rattle.at_kinds.specs.Signatures.{declared_view};

use crate::located::{name_word, params_in, result_in};
use crate::numbered::{NamedClass, Numbered};
use at_class::{ClassId, ClassTable};
use at_jrag::{Kind as KindForm, KindWord, Param};
use at_kinds::signatures::{Signature, Signatures, WrittenKind};
use at_rules::{AttrId, Kind};
use std::alloc::{AllocError, Global};

/// All attributes that are declared, in order, or want of memory.
pub fn signatures_of(
    alloc: Global,
    classes: &ClassTable,
    declared: &[Numbered],
) -> Result<Signatures, AllocError>
    requires { All (IsOfItsClass classes.now) declared.now }
    ensures { IfOk result (λ s. s ≡ signatures classes.now (map numbered_view declared.now)) }
{
    let words = results_of(alloc, declared)?;
    let mut signatures = Signatures::new(alloc);
    for numbered in declared {
        append_signature(alloc, classes, &words, numbered, &mut signatures)?;
    }
    Ok(signatures)
}

/// The words with which the values of attributes are declared, in order, or want of memory.
fn results_of<'a>(alloc: Global, declared: &[Numbered<'a>]) -> Result<Vec<&'a KindWord>, AllocError>
    ensures { IfOk result (λ words. words_view words.items ≡ results (map numbered_view declared.now)) }
{
    let mut words = Vec::new(alloc);
    for numbered in declared {
        append_result(numbered, &mut words)?;
    }
    Ok(words)
}

/// Appends the word with which the attribute's values are declared, if the declaration declares one.
fn append_result<'a>(
    numbered: &Numbered<'a>,
    words: &mut Vec<&'a KindWord>,
) -> Result<(), AllocError>
    ensures { OnOk result (words_view words.new.items ≡ words_view words.old.items ++ words_of (result_in (numbered_view numbered.now).decl.form)) }
{
    let Some(word) = result_in(&numbered.decl.form) else {
        return Ok(());
    };
    words.push(word)?;
    Ok(())
}

/// Appends what is declared of the attribute, if the declaration declares one.
fn append_signature(
    alloc: Global,
    classes: &ClassTable,
    words: &[&KindWord],
    numbered: &Numbered,
    signatures: &mut Signatures,
) -> Result<(), AllocError>
    requires { IsOfItsClass classes.now numbered.now }
    ensures { OnOk result (signatures.new
        ≡ signatures.old ++ signature_if classes.now (words_view words.now) (numbered_view numbered.now) (result_in (numbered_view numbered.now).decl.form)) }
{
    let Some(kind) = result_in(&numbered.decl.form) else {
        return Ok(());
    };
    signatures.push(signature_of(alloc, classes, words, numbered, kind)?)
}

/// What is declared of the attribute, whose kind is written so.
fn signature_of(
    alloc: Global,
    classes: &ClassTable,
    words: &[&KindWord],
    numbered: &Numbered,
    kind: &KindWord,
) -> Result<Signature, AllocError>
    requires { IsOfItsClass classes.now numbered.now }
    ensures { IfOk result (λ s. declared_view s ≡ signature classes.now (words_view words.now) (numbered_view numbered.now) (kind_word_view kind.now)) }
{
    let form = &numbered.decl.form;
    Ok(Signature {
        name: String::from_str(alloc, name_word(form).text.as_str())?,
        class: known_class(numbered.class),
        params: kinds_of(alloc, classes, words, &params_in(form).items)?,
        result: written_kind(classes, words, &kind.kind),
    })
}

fn known_class(class: NamedClass) -> Option<ClassId>
    ensures { result ≡ known_class_of class }
{
    match class {
        NamedClass::Known(class) => Some(ClassId::new(class)),
        NamedClass::Unknown(_) => None,
    }
}

fn kinds_of(
    alloc: Global,
    classes: &ClassTable,
    words: &[&KindWord],
    params: &[Param],
) -> Result<Vec<WrittenKind>, AllocError>
    ensures { IfOk result (λ kinds. kinds.items ≡ map (λ p. written_kind classes.now (words_view words.now) p.kind.kind) (map param_view params.now)) }
{
    let mut kinds = Vec::new(alloc);
    for param in params {
        let known: Option<Kind> = known_kind(classes, &param.kind.kind);
        let first: Option<AttrId> = first_unless(known.is_some(), words, &param.kind.kind);
        kinds.push(as_written(first, known))?;
    }
    Ok(kinds)
}

/// The kind that is written, unless it is a class that isn't there.
pub fn known_kind(classes: &ClassTable, kind: &KindForm) -> Option<Kind>
    ensures { result ≡ known_kind classes.now (kind_form_view kind.now) }
{
    match kind {
        KindForm::Int => Some(Kind::Int),
        KindForm::Bool => Some(Kind::Bool),
        KindForm::Text => Some(Kind::Text),
        KindForm::Class(name) => Some(Kind::Class(classes.id_of(name.as_str())?)),
    }
}

fn written_kind(classes: &ClassTable, words: &[&KindWord], kind: &KindForm) -> WrittenKind
    ensures { result ≡ written_kind classes.now (words_view words.now) (kind_form_view kind.now) }
{
    let known = known_kind(classes, kind);
    let first = first_unless(known.is_some(), words, kind);
    as_written(first, known)
}

/// The first of the words that is of the same class, where it isn't there.
fn first_unless(is_known: bool, words: &[&KindWord], kind: &KindForm) -> Option<AttrId>
    ensures { result ≡ first_unless is_known (words_view words.now) (kind_form_view kind.now) }
{
    if is_known {
        return None;
    }
    first_named(words, kind)
}

/// The first of the words that is of the same class, if that one is a class.
fn first_named(words: &[&KindWord], kind: &KindForm) -> Option<AttrId>
    ensures { result ≡ first_named (words_view words.now) (kind_form_view kind.now) }
{
    match kind {
        KindForm::Class(name) => attribute_at(position_of(words, name.as_str())),
        KindForm::Int | KindForm::Bool | KindForm::Text => None,
    }
}

fn attribute_at(position: Option<usize>) -> Option<AttrId>
    ensures { result ≡ position }
{
    Some(AttrId::new(position?))
}

fn position_of(words: &[&KindWord], name: &str) -> Option<usize>
    ensures { result ≡ position (λ w. names_class name.now w.kind) (words_view words.now) }
{
    position_named(words, name)
}

fn position_named(words: &[&KindWord], name: &str) -> Option<usize>
    ensures { result ≡ position (λ w. names_class name.now (kind_word_view w.now).kind) words.now }
{
    words.iter().position(
        |word| -> bool
            ensures { result ≡ names_class name.entry.now (kind_word_view word.now.now).kind }
        { names_class(&word.kind, name) },
    )
}

fn names_class(kind: &KindForm, name: &str) -> bool
    ensures { result ≡ names_class name.now (kind_form_view kind.now) }
{
    match kind {
        KindForm::Class(word) => word.as_str() == name,
        KindForm::Int | KindForm::Bool | KindForm::Text => false,
    }
}

/// The kind that is written; of a class that isn't there the first attribute with such values tells which one it is.
pub fn as_written(first: Option<AttrId>, known: Option<Kind>) -> WrittenKind
    ensures { result ≡ as_written first known }
{
    match known {
        Some(kind) => WrittenKind::Known(kind),
        None => WrittenKind::Strange(first),
    }
}
