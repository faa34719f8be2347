//! Which attributes are overloaded.

ghost use Rattle.std.specs.Prelude.{◌≡◌, ◌∷◌, ◌++◌, ◌&&◌, ◌||◌, ◌+◌, ℕ, List, [], true, false, filter_map, map, nat_eq, nat_le, not, IfOk, OnOk, MatchOption};
ghost use Rattle.std.specs.List.{flat_map, list_any};
ghost use Rattle.at_jrag.specs.View.{aspect_view, decl_view, decl_form_view, params_view, word_view};
ghost use Rattle.at_kinds.specs.Accessors.{is_accessor, is_common};
ghost use Rattle.at_start.specs.Overloading.{all_counted, all_in, count_of, counted_in, counted_of, declares, is_declared_by, is_overloaded};
ghost use Rattle.at_start.specs.Pairs.{has_pair, needs_in, overloaded_in};

use crate::lists::is_accessed;
use at_class::ClassTable;
use at_jrag::{Aspect, Decl, DeclForm, Params, Word};
use indexmap::IndexSet;
use std::alloc::{AllocError, Global};
use std::marker::Model;

/// How many parameters an attribute may have.
const MOST_PARAMETERS: usize = 4;

/// Of an attribute that is declared: its name, and how many parameters it has.
#[derive(Drop)]
pub struct Counted {
    name: String,
    count: usize,
}

impl Model for Counted {
    ghost use Rattle.std.specs.Prelude.{string_bytes};
    ghost use Rattle.at_start.specs.Overloading as spec;

    ghost Value = { spec.Counted };

    ghost view = { λ c. record { name = string_bytes c.name; count = c.count } };
}

/// The attributes that are declared in all files.
pub fn all_counted(alloc: Global, files: &[Vec<Aspect>]) -> Result<Vec<Counted>, AllocError>
    ensures { IfOk result (λ v. v.items ≡ all_counted (map (λ f. map aspect_view f.items) files.now)) }
{
    let mut all = Vec::new(alloc);
    for aspects in files {
        append_file(alloc, aspects, &mut all)?;
    }
    Ok(all)
}

fn append_file(alloc: Global, aspects: &[Aspect], all: &mut Vec<Counted>) -> Result<(), AllocError>
    ensures { OnOk result (all.new.items ≡ all.old.items ++ flat_map all_in (map aspect_view aspects.now)) }
{
    for aspect in aspects {
        append_decls(alloc, &aspect.decls, all)?;
    }
    Ok(())
}

fn append_decls(alloc: Global, decls: &[Decl], all: &mut Vec<Counted>) -> Result<(), AllocError>
    ensures { OnOk result (all.new.items ≡ all.old.items ++ filter_map counted_of (map decl_view decls.now)) }
{
    for decl in decls {
        append(alloc, decl, all)?;
    }
    Ok(())
}

/// Adds the attribute that is declared, if one is.
fn append(alloc: Global, decl: &Decl, all: &mut Vec<Counted>) -> Result<(), AllocError>
    ensures { OnOk result (all.new.items ≡ all.old.items ++ filter_map counted_of (decl_view decl.now ∷ [])) }
{
    match &decl.form {
        DeclForm::Synthesized { name, params, .. } | DeclForm::Inherited { name, params, .. } => {
            all.push(count_of(alloc, name, params)?)?;
            Ok(())
        }
        DeclForm::Equation { .. } | DeclForm::InheritedEquation { .. } => Ok(()),
    }
}

fn count_of(alloc: Global, name: &Word, params: &Params) -> Result<Counted, AllocError>
    ensures { IfOk result (λ c. c ≡ count_of (word_view name.now) (params_view params.now)) }
{
    Ok(Counted {
        name: String::from_str(alloc, name.text.as_str())?,
        count: params.items.len(),
    })
}

/// Names of attributes, each with a number of parameters.
pub struct Pairs<'a> {
    items: IndexSet<(&'a str, usize)>,
}

/// One call, where each exit that lets them go would else have one for each field.
impl Drop for Pairs<'_> {
    fn drop(self) {
        let Pairs { items: _ } = self;
    }
}

impl<'a> Pairs<'a> {
    fn new(alloc: Global) -> Pairs<'a>
        ensures { result.items.keys ≡ [] }
    {
        Pairs {
            items: IndexSet::new(alloc),
        }
    }

    /// Whether there is none.
    pub fn is_empty(&self) -> bool
        ensures { result ≡ true → self.now.items.keys ≡ [] }
    {
        self.items.is_empty()
    }

    /// Whether the name is there with that number.
    pub fn have(&self, name: &str, count: usize) -> bool
        ensures { result ≡ has_pair self.now name.now count }
    {
        self.items.contains(&(name, count))
    }

    /// Adds the attribute, unless it is there already.
    fn add(&mut self, counted: &'a Counted) -> Result<(), AllocError>
        ensures { OnOk result ((name : List ℕ) (count : ℕ)
            → has_pair self.new name count ≡ (has_pair self.old name count || is_declared_by name count counted.now)) }
    {
        self.items.insert((counted.name.as_str(), counted.count))?;
        Ok(())
    }

    /// Whether the name is there with another number, of those that an attribute may have.
    fn have_another(&self, name: &str, count: usize) -> bool
        ensures { result ≡ list_any (λ n. not (nat_eq n count) && has_pair self.now name.now n) (0 ∷ 1 ∷ 2 ∷ 3 ∷ 4 ∷ []) }
    {
        for number in 0..MOST_PARAMETERS + 1 {
            if self.have_other(name, count, number) {
                return true;
            }
        }
        false
    }

    /// Whether that number is another one, and the name is there with it.
    fn have_other(&self, name: &str, count: usize, number: usize) -> bool
        ensures { result ≡ (not (nat_eq number count) && has_pair self.now name.now number) }
    {
        if number == count {
            return false;
        }
        self.have(name, number)
    }
}

/// The attributes of these.
fn pairs_of<'a>(alloc: Global, counted: &'a [Counted]) -> Result<Pairs<'a>, AllocError>
    ensures { IfOk result (λ p. (name : List ℕ) (count : ℕ) → has_pair p name count ≡ declares counted.now name count) }
{
    let mut pairs = Pairs::new(alloc);
    for one in counted {
        pairs.add(one)?;
    }
    Ok(pairs)
}

/// Those of these that are overloaded.
pub fn overloaded<'a>(
    alloc: Global,
    classes: &ClassTable,
    counted: &'a [Counted],
) -> Result<Pairs<'a>, AllocError>
    ensures { IfOk result (λ p. (name : List ℕ) (count : ℕ) → overloaded_in p name count ≡ is_overloaded classes.now counted.now name count) }
{
    let all = pairs_of(alloc, counted)?;
    let mut found = Pairs::new(alloc);
    for one in counted {
        add_overloaded(classes, &all, one, &mut found)?;
    }
    Ok(found)
}

/// Adds the attribute, of all these, if it can't be called by its name alone.
fn add_overloaded<'a>(
    classes: &ClassTable,
    all: &Pairs<'_>,
    one: &'a Counted,
    found: &mut Pairs<'a>,
) -> Result<(), AllocError>
    ensures { OnOk result ((name : List ℕ) (count : ℕ) → has_pair found.new name count
        ≡ (has_pair found.old name count || (is_declared_by name count one.now && needs_in classes.now all.now one.now))) }
{
    if !needs_number(classes, all, one) {
        return Ok(());
    }
    found.add(one)
}

/// Whether the attribute, of all these, can't be called by its name alone.
fn needs_number(classes: &ClassTable, all: &Pairs<'_>, one: &Counted) -> bool
    ensures { result ≡ needs_in classes.now all.now one.now }
{
    if !all.have_another(one.name.as_str(), one.count) {
        return false;
    }
    !is_accessor(classes, one.name.as_str())
}

/// Whether a class has an accessor of that name, or each node or text a method.
fn is_accessor(classes: &ClassTable, name: &str) -> bool
    ensures { result ≡ is_accessor classes.now name.now }
{
    if is_common(name) {
        return true;
    }
    is_accessed(classes, name)
}

fn is_common(name: &str) -> bool
    ensures { result ≡ is_common name.now }
{
    name == "equals" || name == "getParent" || name == "getChild" || name == "getNumChild"
}

/// How the number is written behind the name of an attribute, if one may have so many parameters.
pub fn number_text(count: usize) -> Option<&'static str>
    ensures { MatchOption result (nat_le count 4 ≡ false) (λ t. (nat_le count 4 ≡ true) × (t.now ≡ 47 ∷ (48 + count) ∷ [])) }
{
    match count {
        0 => Some("/0"),
        1 => Some("/1"),
        2 => Some("/2"),
        3 => Some("/3"),
        4 => Some("/4"),
        _ => None,
    }
}
