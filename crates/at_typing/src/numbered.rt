//! The declarations with numbers for their classes and their attributes' names, so that no two texts need be
//! compared again.

ghost use Rattle.std.specs.Prelude.{◌≡◌, map, All, Some, IfOk, OnOk};
ghost use Rattle.at_rules.specs.Names.{Keeps};
ghost use Rattle.at_typing.specs.Located.{declarations_in, located_view};
ghost use Rattle.at_typing.specs.Numbering.{numbered_view, parent_class, class_number, AreNumbered, HasNumbers, IsNamed};

use crate::located::{Located, class_word, locate, name_word};
use at_class::{ClassId, ClassTable};
use at_jrag::{Aspect, Decl};
use at_rules::number_for;
use indexmap::IndexSet;
use std::alloc::{AllocError, Global};

/// The class that a declaration names: a class that isn't there counts as one of its own, without a
/// superclass.
#[derive(Clone, Copy, PartialEq, Eq, Hash)]
pub enum NamedClass {
    /// A class, by its position.
    Known(usize),
    /// A word that names no class, by its position among such words.
    Unknown(usize),
}

impl NamedClass {
    /// The superclass, where it has one.
    pub fn parent(self, classes: &ClassTable) -> Option<NamedClass>
        ensures { result ≡ parent_class classes.now self }
    {
        match self {
            NamedClass::Known(class) => {
                let parent = classes.parent(ClassId::new(class))?;
                Some(NamedClass::Known(parent.index()))
            }
            NamedClass::Unknown(_) => None,
        }
    }
}

/// A declaration, with the number of its aspect file, from 1, its class, and the number of its attribute's
/// name.
#[derive(Clone, Copy)]
pub struct Numbered<'a> {
    pub file: usize,
    pub decl: &'a Decl,
    pub class: NamedClass,
    pub name: usize,
}

/// The declarations of the files, in order, and the names of attributes by their numbers.
#[derive(Drop)]
pub struct Declarations<'a> {
    pub items: Vec<Numbered<'a>>,
    pub names: IndexSet<String>,
}

impl<'a> Declarations<'a> {
    /// The declarations of the files, or want of memory.
    pub fn of(
        alloc: Global,
        classes: &ClassTable,
        files: &'a [Vec<Aspect>],
    ) -> Result<Declarations<'a>, AllocError>
        ensures declared { IfOk result (λ d. map numbered_view d.items.items ≡ declarations_in files.now) }
        ensures numbered { IfOk result (λ d. AreNumbered classes.now d.items.items) }
        ensures named { IfOk result (λ d. All (IsNamed d.names.keys) d.items.items) }
    {
        let all = locate(alloc, files)?;
        let mut words = Words {
            names: IndexSet::new(alloc),
            unknown: IndexSet::new(alloc),
        };
        let items = words.all_numbered(alloc, classes, &all)?;
        Ok(Declarations {
            items,
            names: words.into_names(),
        })
    }
}

/// The words that have numbers, by their positions.
struct Words {
    // The names of attributes.
    names: IndexSet<String>,
    // The words that name no class.
    unknown: IndexSet<String>,
}

/// One call, where each exit that lets it go would else have a case for each collection.
impl Drop for Words {
    fn drop(self) {
        let Words {
            names: _,
            unknown: _,
        } = self;
    }
}

impl Words {
    /// The names of attributes alone.
    fn into_names(self) -> IndexSet<String>
        ensures { result ≡ self.names }
    {
        let Words { names, unknown: _ } = self;
        names
    }

    /// The declarations with their numbers, or want of memory.
    fn all_numbered<'a>(
        &mut self,
        alloc: Global,
        classes: &ClassTable,
        all: &[Located<'a>],
    ) -> Result<Vec<Numbered<'a>>, AllocError>
        ensures view { IfOk result (λ items. map numbered_view items.items ≡ map located_view all.now) }
        ensures numbers { IfOk result (λ items. All (HasNumbers classes.now self.new.unknown.keys self.new.names.keys) items.items) }
    {
        let mut items = Vec::new(alloc);
        for located in all {
            items.push(self.numbered(alloc, classes, located)?)?;
        }
        Ok(items)
    }

    /// The declaration with its numbers. Its words join where they are new; what has a number keeps it.
    fn numbered<'a>(
        &mut self,
        alloc: Global,
        classes: &ClassTable,
        located: &Located<'a>,
    ) -> Result<Numbered<'a>, AllocError>
        ensures view { IfOk result (λ d. numbered_view d ≡ located_view located.now) }
        ensures numbers { IfOk result (HasNumbers classes.now self.new.unknown.keys self.new.names.keys) }
        ensures keeps { OnOk result (Keeps self.old.unknown.keys self.new.unknown.keys × Keeps self.old.names.keys self.new.names.keys) }
    {
        let decl = located.decl;
        let class = class_word(&decl.form).text.as_str();
        let class = class_of(alloc, classes, &mut self.unknown, class)?;
        let name = name_word(&decl.form).text.as_str();
        let name = number_for(alloc, &mut self.names, name)?;
        Ok(Numbered {
            file: located.file,
            decl,
            class,
            name,
        })
    }
}

/// The class that the word names; a word that names none has its number among those, which it joins where it is new.
fn class_of(
    alloc: Global,
    classes: &ClassTable,
    unknown: &mut IndexSet<String>,
    word: &str,
) -> Result<NamedClass, AllocError>
    ensures number { IfOk result (λ c. class_number classes.now unknown.new.keys word.now ≡ Some c) }
    ensures keeps { OnOk result (Keeps unknown.old.keys unknown.new.keys) }
{
    if let Some(class) = classes.id_of(word) {
        return Ok(NamedClass::Known(class.index()));
    }
    let number = number_for(alloc, unknown, word)?;
    Ok(NamedClass::Unknown(number))
}
