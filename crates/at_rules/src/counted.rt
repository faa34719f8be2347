//! Which names end in a slash and a count of parameters: those of attributes that are overloaded.

use indexmap::IndexSet;
use std::alloc::{AllocError, Global};

/// The numbers of all names with a slash, if these are known.
#[derive(Drop)]
pub struct Counted {
    numbers: Vec<usize>,
    are_all: bool,
}

impl Counted {
    ghost use Rattle.std.specs.Prelude.{◌≡◌, [], true};
    ghost use Rattle.std.specs.List.{IsDistinct};
    ghost use Rattle.std.specs.String.{string_eq};
    ghost use Rattle.at_model.specs.Rules.{name_by};
    ghost use Rattle.at_rules.specs.Counted.{IsCounted};
    ghost use Rattle.at_rules.specs.Names.{number_in};
    ghost use Rattle.at_rules.specs.RulesView.{text_of};

    /// Those among the names. Where memory is wanting it isn't known which they are.
    pub fn of(alloc: Global, names: &IndexSet<String>) -> Counted
        ensures { IsCounted (text_of names.now.keys) result.numbers.items result.are_all }
    {
        match counted_in(alloc, names) {
            Ok(numbers) => Counted {
                numbers,
                are_all: true,
            },
            Err(_) => Counted {
                numbers: Vec::new(alloc),
                are_all: false,
            },
        }
    }

    /// Whether it is known that there are none.
    #[inline(always)]
    pub fn are_none(&self) -> bool
        ensures { result ≡ true → (self.now.are_all ≡ true) × (self.now.numbers.items ≡ []) }
    {
        if self.are_all {
            self.numbers.is_empty()
        } else {
            false
        }
    }

    /// The number of the name with the count behind it, where it is one.
    pub fn number(&self, names: &IndexSet<String>, name: &str, count: usize) -> Option<usize>
        requires { IsCounted (text_of names.now.keys) self.now.numbers.items self.now.are_all }
        ensures number { result ≡ number_in names.now.keys (name_by name.now count) }
        ensures distinct { IsDistinct string_eq names.now.keys }
    {
        let known = names.len();
        if self.are_all {
            return among(self.numbers.as_slice(), names, name, count);
        }
        below(known, names, name, count)
    }
}

ghost use Rattle.std.specs.Prelude.{◌≡◌, ℕ, List, [], true, false, length, nat_eq, IfOk, OnOk};
ghost use Rattle.std.specs.List.{list_any, IsDistinct};
ghost use Rattle.std.specs.Str.{bytes_eq};
ghost use Rattle.std.specs.String.{string_eq};
ghost use Rattle.at_model.specs.Rules.{name_by};
ghost use Rattle.at_rules.specs.Counted.{AreCounted};
ghost use Rattle.at_rules.specs.Names.{number_in};
ghost use Rattle.at_rules.specs.RulesView.{text_of};

/// The numbers of the names with a slash.
fn counted_in(alloc: Global, names: &IndexSet<String>) -> Result<Vec<usize>, AllocError>
    ensures { IfOk result (λ numbers. AreCounted (text_of names.now.keys) numbers.items) }
{
    let mut numbers = Vec::new(alloc);
    for number in 0..names.len() {
        note(&mut numbers, names, number)?;
    }
    Ok(numbers)
}

/// Notes the number, where its name has a slash.
fn note(numbers: &mut Vec<usize>, names: &IndexSet<String>, number: usize) -> Result<(), AllocError>
    ensures { OnOk result ((n : ℕ) (name : List ℕ) (count : ℕ) → text_of names.now.keys n ≡ name_by name count
        → (nat_eq n number ≡ false → list_any (nat_eq n) numbers.old.items ≡ true) → list_any (nat_eq n) numbers.new.items ≡ true) }
{
    if has_slash(names, number) {
        numbers.push(number)?;
        return Ok(());
    }
    Ok(())
}

/// Whether the name of that number has a slash: so it is, where it has a count.
fn has_slash(names: &IndexSet<String>, number: usize) -> bool
    ensures { (name : List ℕ) (count : ℕ) → text_of names.now.keys number ≡ name_by name count → result ≡ true }
{
    match names.get_index(number) {
        Some(text) => text.as_str().contains('/'),
        None => false,
    }
}

/// The number of the name with the count, which is among these where it is one.
fn among(numbers: &[usize], names: &IndexSet<String>, name: &str, count: usize) -> Option<usize>
    requires counted { AreCounted (text_of names.now.keys) numbers.now }
    requires distinct { IsDistinct string_eq names.now.keys }
    ensures { result ≡ number_in names.now.keys (name_by name.now count) }
{
    for place in 0..numbers.len() {
        let number = numbers[place];
        if is_there(names, number, name, count) {
            return Some(number);
        }
    }
    None
}

/// The same, where there are so many names, each of which is looked at.
fn below(known: usize, names: &IndexSet<String>, name: &str, count: usize) -> Option<usize>
    requires known { known ≡ length names.now.keys }
    requires distinct { IsDistinct string_eq names.now.keys }
    ensures { result ≡ number_in names.now.keys (name_by name.now count) }
{
    for number in 0..known {
        if is_there(names, number, name, count) {
            return Some(number);
        }
    }
    None
}

/// Whether this is the number of the name with the count.
fn is_there(names: &IndexSet<String>, number: usize, name: &str, count: usize) -> bool
    ensures { result ≡ bytes_eq (name_by name.now count) (text_of names.now.keys number) }
{
    match names.get_index(number) {
        Some(text) => is_by(text.as_str(), name, count),
        None => false,
    }
}

/// Whether the text is the name with the count.
fn is_by(text: &str, name: &str, count: usize) -> bool
    ensures { result ≡ bytes_eq (name_by name.now count) text.now }
{
    match text.strip_prefix(name) {
        Some(rest) => is_count(rest.as_bytes(), count),
        None => false,
    }
}

/// Whether the bytes are a slash and the count.
fn is_count(bytes: &[u8], count: usize) -> bool
    ensures { result ≡ bytes_eq (name_by [] count) bytes.now }
{
    if bytes.len() != 2 {
        return false;
    }
    if bytes[0] != b'/' {
        return false;
    }
    let digit = usize::from(bytes[1]);
    if digit < 48 {
        return false;
    }
    digit - 48 == count
}
