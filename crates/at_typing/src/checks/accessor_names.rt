//! The names that accessors have.

ghost use Rattle.std.specs.Prelude.{◌≡◌, [], ◌∷◌, ◌++◌, ◌||◌, ◌&&◌, codes, map, IfOk, OnOk};
ghost use Rattle.std.specs.Str.{bytes_eq};
ghost use Rattle.at_class.specs.View.{part_view};
ghost use Rattle.at_jrag.specs.View.{decl_form_view};
ghost use Rattle.at_model.specs.Classes.{Classes};
ghost use Rattle.at_typing.specs.AccessorNames.{any_component, any_optional, any_list, is_of_list, is_of_shape, HasNames, AddsNames};
ghost use Rattle.at_kinds.specs.Accessors.{is_common, is_accessor};
ghost use Rattle.at_typing.specs.Declaring.{accessor_named, is_attribute};
ghost use Rattle.at_typing.specs.Located.{name_word};
ghost use Rattle.at_typing.specs.Numbering.{numbered_view};

use super::fault_at;
use crate::fault::Breach;
use crate::located::{is_attribute, name_word};
use crate::numbered::Numbered;
use at_class::{ClassId, ClassTable, Part, PartShape};
use at_jrag::DeclForm;
use at_kinds::RuleCode;
use indexmap::IndexSet;
use std::alloc::{AllocError, Global};

/// The first attribute that has the name of an accessor, or of a method that each node or text has.
pub fn accessor_named(
    alloc: Global,
    classes: &ClassTable,
    declared: &[Numbered],
) -> Result<Option<Breach>, AllocError>
    ensures { IfOk result (λ f. f ≡ accessor_named classes.now (map numbered_view declared.now)) }
{
    let accessors = Accessors::of(alloc, classes)?;
    Ok(accessors.first_named(declared))
}

/// Names of components.
struct PartNames<'a> {
    texts: IndexSet<&'a [u8]>,
}

/// One call, so that what holds several of them lets each go by one.
impl Drop for PartNames<'_> {
    fn drop(self) {
        let PartNames { texts: _ } = self;
    }
}

impl<'a> PartNames<'a> {
    ghost use Rattle.std.specs.List.{list_any};
    ghost use Rattle.indexmap.specs.IndexSet.{insert_key};
    ghost use Rattle.at_typing.specs.AccessorNames.{same_name};

    fn new(alloc: Global) -> PartNames<'a>
        ensures { result.texts.keys ≡ [] }
    {
        PartNames {
            texts: IndexSet::new(alloc),
        }
    }

    /// Adds the name, unless it is there already.
    fn add(&mut self, name: &'a [u8]) -> Result<(), AllocError>
        ensures { OnOk result (self.new.texts.keys ≡ insert_key same_name self.old.texts.keys name.entry) }
    {
        self.texts.insert(name)?;
        Ok(())
    }

    /// Whether the name is that prefix, and one of these behind it.
    fn has_behind(&self, prefix: &[u8], name: &[u8]) -> bool
        ensures { result ≡ list_any (λ k. bytes_eq name.now (prefix.now ++ k.now)) self.now.texts.keys }
    {
        match name.strip_prefix(prefix) {
            Some(rest) => self.texts.contains(rest),
            None => false,
        }
    }
}

/// The names of the components of all classes: of all of them, of the optionals and of the lists.
struct Accessors<'a> {
    components: PartNames<'a>,
    optionals: PartNames<'a>,
    lists: PartNames<'a>,
}

/// One call, where each exit that lets it go would else have a case for each collection.
impl Drop for Accessors<'_> {
    fn drop(self) {
        let Accessors {
            components: _,
            optionals: _,
            lists: _,
        } = self;
    }
}

impl<'a> Accessors<'a> {
    fn of(alloc: Global, classes: &'a ClassTable) -> Result<Accessors<'a>, AllocError>
        ensures { IfOk result (HasNames classes.now) }
    {
        let mut accessors = Accessors {
            components: PartNames::new(alloc),
            optionals: PartNames::new(alloc),
            lists: PartNames::new(alloc),
        };
        for class in 0..classes.len() {
            accessors.add_all(classes.parts(ClassId::new(class)))?;
        }
        Ok(accessors)
    }

    fn add_all(&mut self, parts: &'a [Part]) -> Result<(), AllocError>
        ensures { OnOk result (AddsNames (map part_view parts.now) self.old self.new) }
    {
        for part in parts {
            self.add(part)?;
        }
        Ok(())
    }

    fn add(&mut self, part: &'a Part) -> Result<(), AllocError>
        ensures { OnOk result (AddsNames (part_view part.now ∷ []) self.old self.new) }
    {
        let name = part.name.as_bytes();
        self.components.add(name)?;
        match part.shape {
            PartShape::Maybe(_) => self.optionals.add(name),
            PartShape::Many(_) => self.lists.add(name),
            PartShape::One(_) | PartShape::Tok(_) => Ok(()),
        }
    }

    /// The first attribute that has such a name.
    fn first_named(&self, declared: &[Numbered]) -> Option<Breach>
        ensures { (classes : Classes) → HasNames classes self.now → result ≡ accessor_named classes (map numbered_view declared.now) }
    {
        for numbered in declared {
            if self.have_name_of(&numbered.decl.form) {
                return Some(fault_at(RuleCode::NameOfAccessor, numbered, numbered.decl.at));
            }
        }
        None
    }

    /// Whether the declaration declares an attribute that has such a name.
    fn have_name_of(&self, form: &DeclForm) -> bool
        ensures { (classes : Classes) → HasNames classes self.now
            → result ≡ is_attribute (decl_form_view form.now) && is_accessor classes (name_word (decl_form_view form.now)).text }
    {
        if !is_attribute(form) {
            return false;
        }
        self.have(name_word(form).text.as_str())
    }

    /// Whether a class has an accessor of that name, or each node or text a method.
    fn have(&self, name: &str) -> bool
        ensures { (classes : Classes) → HasNames classes self.now → result ≡ is_accessor classes name.now }
    {
        if is_common(name) {
            return true;
        }
        self.is_named(name.as_bytes())
    }

    fn is_named(&self, name: &[u8]) -> bool
        ensures { result ≡ any_component self.now (λ k. bytes_eq name.now (codes "get" ++ k)) || is_of_shape self.now name.now }
    {
        self.components.has_behind(b"get", name) || self.is_of_shape(name)
    }

    /// Whether it is the name of an accessor that optionals or lists alone have.
    fn is_of_shape(&self, name: &[u8]) -> bool
        ensures { result ≡ is_of_shape self.now name.now }
    {
        self.optionals.has_behind(b"has", name) || self.is_of_list(name)
    }

    fn is_of_list(&self, name: &[u8]) -> bool
        ensures { result ≡ is_of_list self.now name.now }
    {
        self.lists.has_behind(b"getNum", name) || self.is_list(name)
    }

    fn is_list(&self, name: &[u8]) -> bool
        ensures { result ≡ any_list self.now (λ k. bytes_eq name.now (codes "get" ++ k ++ codes "List")) }
    {
        let Some(rest) = name.strip_prefix(b"get") else {
            return false;
        };
        match rest.strip_suffix(b"List") {
            Some(list) => self.lists.texts.contains(list),
            None => false,
        }
    }
}

fn is_common(name: &str) -> bool
    ensures { result ≡ is_common name.now }
{
    name == "equals" || name == "getParent" || name == "getChild" || name == "getNumChild"
}
