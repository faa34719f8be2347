//! The first attribute of each name that a class or one above it declares.
ghost use Rattle.at_rules.specs.Begun.{IsBegun};

use crate::attribute::AttrId;
use crate::dispatch::earlier;
use at_class::{ClassId, ClassTable};
use indexmap::IndexMap;
use std::alloc::{AllocError, Global};

/// The first attribute of each class and name: classes by their positions, names by their numbers.
#[derive(Drop)]
pub struct FirstNamed {
    first: IndexMap<(usize, usize), AttrId>,
    // Of each name a position in front of which none has it: so what stands there is the first one of all.
    begins: IndexMap<usize, usize>,
    ghost begun: { IsBegun begins.entries first.entries },
}

impl FirstNamed {
    ghost use Rattle.std.specs.Prelude.{◌≡◌, [], ◌∷◌, Some, option_map, slice_get, IfSome, OnErr, OnOk};
    ghost use Rattle.std.specs.Map.{lookup};
    ghost use Rattle.at_model.specs.Classes.{chain};
    ghost use Rattle.at_rules.specs.FirstNamed.{AreNoted, IsFirst, NotesNone, NotesOne};
    ghost use Rattle.at_rules.specs.Upward.{declares};

    /// No attribute is noted.
    pub fn new(alloc: Global) -> FirstNamed
        ensures { AreNoted [] result }
    {
        FirstNamed {
            first: IndexMap::new(alloc),
            begins: IndexMap::new(alloc),
        }
    }

    /// Notes the attribute behind those before it, where it is the first of its class and name; or want of memory,
    /// where nothing is noted.
    pub fn note(&mut self, class: usize, name: usize, attribute: AttrId) -> Result<(), AllocError>
        ensures noted { OnOk result (NotesOne class name attribute self.old self.new) }
        ensures err { OnErr result (NotesNone self.old self.new) }
    {
        let key = (class, name);
        if self.first.contains_key(&key) {
            return Ok(());
        }
        begin(&mut self.begins, name, self.first.len())?;
        self.first.insert(key, attribute)?;
        Ok(())
    }

    /// The first attribute of that name that the class itself declares.
    pub fn own(&self, class: usize, name: usize) -> Option<AttrId>
        ensures { IsFirst self.now name (class ∷ []) result }
    {
        self.first.get(&(class, name)).copied()
    }

    /// The first attribute of that name that the class or one above it declares.
    pub fn upward(&self, classes: &ClassTable, class: ClassId, name: usize) -> Option<AttrId>
        ensures { IsFirst self.now name (chain classes.now class) result }
    {
        if let Some(attribute) = self.first_of_all(classes, class, name) {
            return Some(attribute);
        }
        let position = declared_above(classes, &self.first, class, name)?;
        self.at(position)
    }

    // The first attribute of that name of all, where the class or one above it declares that one.
    fn first_of_all(&self, classes: &ClassTable, class: ClassId, name: usize) -> Option<AttrId>
        ensures { IfSome result (λ a. lookup (declares name (chain classes.now class)) self.now.first.entries ≡ Some a) }
    {
        let position = *self.begins.get(&name)?;
        let ((above, named), attribute) = self.first.get_index(position)?;
        if *named != name || !classes.is_sub(class, ClassId::new(*above)) {
            return None;
        }
        Some(*attribute)
    }

    /// The attribute that stands at the position.
    fn at(&self, position: usize) -> Option<AttrId>
        ensures { result ≡ option_map (λ e. e.1) (slice_get self.now.first.entries position) }
    {
        match self.first.get_index(position) {
            Some((_, attribute)) => Some(*attribute),
            None => None,
        }
    }
}

ghost use Rattle.std.specs.Prelude.{◌≡◌, OnErr, OnOk};
ghost use Rattle.std.specs.Map.{keys_of};
ghost use Rattle.at_model.specs.Classes.{chain};
ghost use Rattle.at_rules.specs.Begun.{begun};
ghost use Rattle.at_rules.specs.Upward.{declared_in};

// Keeps the position of the name, where none is kept of it.
fn begin(
    begins: &mut IndexMap<usize, usize>,
    name: usize,
    position: usize,
) -> Result<(), AllocError>
    ensures kept { OnOk result (begins.new.entries ≡ begun begins.old.entries name position) }
    ensures err { OnErr result (begins.new.entries ≡ begins.old.entries) }
{
    if begins.contains_key(&name) {
        return Ok(());
    }
    begins.insert(name, position)?;
    Ok(())
}

/// The position of the first key of that name, by its number, that has the class or one above it.
pub fn declared_above<V>(
    classes: &ClassTable,
    keys: &IndexMap<(usize, usize), V>,
    class: ClassId,
    name: usize,
) -> Option<usize>
    ensures { result ≡ declared_in (keys_of keys.now.entries) name (chain classes.now class) }
{
    let mut found = None;
    let mut next = Some(class);
    for step in 0..classes.len() {
        let Some(class) = next else { return found };
        found = earlier(found, keys.get_index_of(&(class.index(), name)));
        next = classes.parent(class);
    }
    found
}
