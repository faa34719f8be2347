//! The language of aspects that the words of the command line name.
ghost use Rattle.std.specs.Prelude.{◌≡◌, true, option_map, IfOk, IfErr, OnOk};
ghost use Rattle.clap.specs.Walk.{texts};
ghost use Rattle.attrd.specs.Forms.{are_forms, form_words, is_form, language_in, language_named, name_forms, names};
ghost use Rattle.attrd.specs.declared.options.WordsFault.TheVariants.{Memory};

use super::WordsFault;
use at_start::{Forms, Language};
use std::alloc::{AllocError, Global};

/// The language that the list names, where there is one: the profile with the forms of its words, or JastAdd's own.
///
/// # Errors
///
/// `Words` where a word of the list is not the name of a form; `Memory` where memory ran out.
pub fn language_of(alloc: Global, list: Option<&str>) -> Result<Language, WordsFault>
    ensures named { IfOk result (λ l. l ≡ language_in (option_map (λ t. t.now) list.entry)) }
    ensures known { OnOk result (name_forms (option_map (λ t. t.now) list.entry) ≡ true) }
    ensures refused { IfErr result (λ e. name_forms (option_map (λ t. t.now) list.entry) ≡ true → e ≡ Memory) }
{
    match list {
        Some(list) => language_listed(alloc, list),
        None => Ok(Language::Profile(Forms::NONE)),
    }
}

/// The language that the list names, or the fault of its first word that names none.
fn language_listed(alloc: Global, list: &str) -> Result<Language, WordsFault>
    ensures named { IfOk result (λ l. l ≡ language_named (form_words list.now)) }
    ensures known { OnOk result (are_forms (form_words list.now) ≡ true) }
    ensures refused { IfErr result (λ e. are_forms (form_words list.now) ≡ true → e ≡ Memory) }
{
    let words = words_of(alloc, list)?;
    language_among(alloc, &words)
}

/// The language that the words name, or the fault of the first that names none.
fn language_among(alloc: Global, words: &[&str]) -> Result<Language, WordsFault>
    ensures named { IfOk result (λ l. l ≡ language_named (texts words.now)) }
    ensures known { OnOk result (are_forms (texts words.now) ≡ true) }
    ensures refused { IfErr result (λ e. are_forms (texts words.now) ≡ true → e ≡ Memory) }
{
    for word in words {
        if !is_form(word) {
            return Err(no_form(alloc, word));
        }
    }
    Ok(named(words))
}

/// The language that these name: all of JastAdd takes in each form.
fn named(words: &[&str]) -> Language
    ensures { result ≡ language_named (texts words.now) }
{
    if has(words, "jastadd") {
        return Language::JastAdd;
    }
    Language::Profile(Forms {
        circular: has(words, "circular"),
    })
}

/// The words of the list, which stand between its commas.
fn words_of(alloc: Global, list: &str) -> Result<Vec<&str>, AllocError>
    ensures { IfOk result (λ v. texts v.items ≡ form_words list.now) }
{
    list.split(',').collect(alloc)
}

/// Whether a form has that name, or the language as a whole.
fn is_form(word: &str) -> bool
    ensures { result ≡ is_form word.now }
{
    matches!(word, "circular" | "jastadd")
}

/// Whether the word is among these.
fn has(words: &[&str], word: &str) -> bool
    ensures { result ≡ names word.now (texts words.now) }
{
    for other in words {
        if *other == word {
            return true;
        }
    }
    false
}

/// The fault of a word that is not the name of a form.
fn no_form(alloc: Global, word: &str) -> WordsFault {
    match format!(in alloc;
        "error: invalid value '{word}' for '--forms <WORDS>'\n  [possible values: circular, jastadd]\n\nFor more information, try '--help'."
    ) {
        Ok(text) => WordsFault::Words { text },
        Err(_) => WordsFault::Memory,
    }
}
