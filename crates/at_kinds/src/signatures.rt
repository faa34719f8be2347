//! What is declared of attributes.

use at_class::{ClassId, ClassTable};
use at_rules::{AttrId, FirstNamed, Kind, number_for, number_of};
use indexmap::IndexSet;
use std::alloc::{AllocError, Global};
use std::marker::Model;

/// A kind as it is written.
#[derive(Clone, Copy, PartialEq, Eq)]
pub enum WrittenKind {
    Known(Kind),
    /// The word names no class. The number is that of the first attribute whose values are of this kind, if there is one. Null fits
    /// it, and what has the same number.
    Strange(Option<AttrId>),
}

/// What is declared of an attribute: its name, the class that has it, where that is there, and the kinds
/// of its parameters and of its value.
#[derive(Drop)]
pub struct Signature {
    pub name: String,
    pub class: Option<ClassId>,
    pub params: Vec<WrittenKind>,
    pub result: WrittenKind,
}

/// All attributes that are declared, in order.
pub struct Signatures {
    alloc: Global,
    items: Vec<Signature>,
    names: IndexSet<String>,
    // The first attribute of a class and a name, by its number among the names.
    first: FirstNamed,
}

/// One call, where each exit that lets it go would else have a case for each collection.
impl Drop for Signatures {
    fn drop(self) {
        let Signatures {
            alloc: _,
            items: _,
            names: _,
            first: _,
        } = self;
    }
}

impl Model for Signatures {
    ghost use Rattle.std.specs.Prelude.{List, map};
    ghost use Rattle.at_kinds.specs.Signatures.{Declared, declared_view, IsIndexed};

    ghost Value = { List Declared };

    ghost view = { λ s. map declared_view s.items.items };

    ghost invariant = { λ s. IsIndexed s.names.keys s.first (map declared_view s.items.items) };
}

ghost use Rattle.std.specs.Prelude.{◌≡◌, ◌∷◌, ◌++◌, [], length, option_map, slice_get, OnErr, OnOk};
ghost use Rattle.at_kinds.specs.Signatures.{declared_view, declared_named};

impl Signatures {
    /// No attribute.
    pub fn new(alloc: Global) -> Signatures
        ensures { result ≡ [] }
    {
        Signatures {
            alloc,
            items: Vec::new(alloc),
            names: IndexSet::new(alloc),
            first: FirstNamed::new(alloc),
        }
    }

    /// One more attribute, or want of memory, where there is none more.
    pub fn push(&mut self, signature: Signature) -> Result<(), AllocError>
        ensures pushed { OnOk result (self.new ≡ self.old ++ declared_view signature ∷ []) }
        ensures err { OnErr result (self.new ≡ self.old) }
    {
        let attribute = AttrId::new(self.items.len());
        let number = number_for(self.alloc, &mut self.names, signature.name.as_str())?;
        self.items.reserve(1)?;
        let Some(class) = signature.class else {
            self.items.push(signature)?;
            return Ok(());
        };
        self.first.note(class.index(), number, attribute)?;
        self.items.push(signature)?;
        Ok(())
    }

    /// How many attributes are declared.
    pub fn len(&self) -> usize
        ensures { result ≡ length self.now }
    {
        self.items.len()
    }

    /// What is declared of the attribute, if there is one of that number.
    pub fn get(&self, attribute: AttrId) -> Option<&Signature>
        ensures { option_map (λ s. declared_view s.now) result ≡ slice_get self.now attribute }
    {
        self.items.get(attribute.index())
    }

    /// The first attribute of that name that the class or one above it declares.
    pub fn attribute(&self, classes: &ClassTable, class: ClassId, name: &str) -> Option<AttrId>
        ensures { result ≡ declared_named classes.now self.now class name.now }
    {
        let name = number_of(&self.names, name)?;
        self.first.upward(classes, class, name)
    }
}
