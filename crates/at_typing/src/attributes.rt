//! The attributes that are declared, by class and name.

use crate::located::{is_attribute, is_inherited};
use crate::numbered::{NamedClass, Numbered};
use at_class::{ClassId, ClassTable};
use at_rules::{AttrId, FirstNamed};
use std::alloc::{AllocError, Global};

/// The class by which all inherited attributes stand, since they are found by their names alone.
const ANY_CLASS: usize = 0;

/// The first attributes of their names that are declared.
pub struct Attributes {
    // The synthesized attributes of classes that are there.
    of_classes: FirstNamed,
    // Those of words that name no class, by the numbers of these.
    of_words: FirstNamed,
    inherited: FirstNamed,
}

/// One call, where each exit that lets it go would else have a case for each collection.
impl Drop for Attributes {
    fn drop(self) {
        let Attributes {
            of_classes: _,
            of_words: _,
            inherited: _,
        } = self;
    }
}

impl Attributes {
    ghost use Rattle.std.specs.Prelude.{IfOk, OnOk};
    ghost use Rattle.at_typing.specs.AttributeKeys.{AreAttributes, FindsInherited, FindsSynthesized, Notes};

    /// The attributes among the declarations, or want of memory.
    pub fn of(alloc: Global, declared: &[Numbered]) -> Result<Attributes, AllocError>
        ensures { IfOk result (AreAttributes declared.now) }
    {
        let mut attributes = Attributes {
            of_classes: FirstNamed::new(alloc),
            of_words: FirstNamed::new(alloc),
            inherited: FirstNamed::new(alloc),
        };
        let mut count = 0;
        for numbered in declared {
            if is_attribute(&numbered.decl.form) {
                attributes.note(AttrId::new(count), numbered)?;
                count += 1;
            }
        }
        Ok(attributes)
    }

    /// Notes the attribute that the declaration declares behind those before it.
    fn note(&mut self, attribute: AttrId, numbered: &Numbered) -> Result<(), AllocError>
        ensures { OnOk result (Notes numbered.now attribute self.old self.new) }
    {
        let name = numbered.name;
        if is_inherited(&numbered.decl.form) {
            return self.inherited.note(ANY_CLASS, name, attribute);
        }
        match numbered.class {
            NamedClass::Known(class) => self.of_classes.note(class, name, attribute),
            NamedClass::Unknown(word) => self.of_words.note(word, name, attribute),
        }
    }

    /// The first synthesized attribute of that name that the class or one above it declares.
    pub fn synthesized(
        &self,
        classes: &ClassTable,
        class: NamedClass,
        name: usize,
    ) -> Option<AttrId>
        ensures { FindsSynthesized self.now classes.now class name result }
    {
        match class {
            NamedClass::Known(class) => {
                self.of_classes.upward(classes, ClassId::new(class), name)
            }
            NamedClass::Unknown(word) => self.of_words.own(word, name),
        }
    }

    /// The first inherited attribute of that name.
    pub fn inherited(&self, name: usize) -> Option<AttrId>
        ensures { FindsInherited self.now name result }
    {
        self.inherited.own(ANY_CLASS, name)
    }
}
