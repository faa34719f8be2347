//! The names that components take.
use crate::part::{Part, PartShape};
use indexmap::IndexSet;
use std::alloc::{AllocError, Global};

/// The names of some components, and those of the accessors of the lists among them.
pub struct TakenNames {
    names: IndexSet<String>,
    accessors: IndexSet<String>,
}

/// One call, where each exit that lets it go would else have a case for each collection.
impl Drop for TakenNames {
    fn drop(self) {
        let TakenNames {
            names: _,
            accessors: _,
        } = self;
    }
}

impl TakenNames {
    ghost use Rattle.std.specs.Prelude.{◌≡◌, [], ◌∷◌, ◌++◌, List, IfOk, OnOk, length, map, take};
    ghost use Rattle.std.specs.List.{list_any};
    ghost use Rattle.at_model.specs.Classes.{Component};
    ghost use Rattle.at_model.specs.Declarations.{clash, is_taken};
    ghost use Rattle.at_class.specs.View.{part_view};
    ghost use Rattle.at_class.specs.Taken.{AreTaken, Grows, IsFirst, is_taken_at};

    /// Those of no component.
    pub fn new(alloc: Global) -> TakenNames
        ensures { AreTaken [] result.names.keys result.accessors.keys }
    {
        TakenNames {
            names: IndexSet::new(alloc),
            accessors: IndexSet::new(alloc),
        }
    }

    /// How many names there are, and how many of accessors.
    pub fn counts(&self) -> (usize, usize)
        ensures names { result.0 ≡ length self.now.names.keys }
        ensures accessors { result.1 ≡ length self.now.accessors.keys }
    {
        (self.names.len(), self.accessors.len())
    }

    /// Leaves the first so many names, and names of accessors.
    pub fn cut(&mut self, names: usize, accessors: usize)
        ensures names { self.new.names.keys ≡ take names self.old.names.keys }
        ensures accessors { self.new.accessors.keys ≡ take accessors self.old.accessors.keys }
    {
        self.names.truncate(names);
        self.accessors.truncate(accessors);
    }

    /// Takes the names of all of these, and tells the first that can't be a component with those before it.
    pub fn take_all(&mut self, alloc: Global, parts: &[Part]) -> Result<Option<usize>, AllocError>
        ensures { IfOk result (λ twice. Grows self.old self.new × ((before : List Component) → AreTaken before self.old.names.keys self.old.accessors.keys
            → AreTaken (before ++ map part_view parts.now) self.new.names.keys self.new.accessors.keys
            × IsFirst (is_taken_at before (map part_view parts.now)) twice)) }
    {
        let mut twice = None;
        for (i, part) in parts.iter().enumerate() {
            let is_taken = self.take(alloc, part)?;
            twice = or_this(twice, is_taken, i);
        }
        Ok(twice)
    }

    // Takes the component's names, and tells whether it couldn't be one with those whose names these are.
    fn take(&mut self, alloc: Global, part: &Part) -> Result<bool, AllocError>
        ensures { IfOk result (λ is. Grows self.old self.new × ((before : List Component) → AreTaken before self.old.names.keys self.old.accessors.keys
            → AreTaken (before ++ part_view part.now ∷ []) self.new.names.keys self.new.accessors.keys × (is ≡ is_taken before (part_view part.now)))) }
    {
        let is_taken = self.is_taken(alloc, part)?;
        self.add(alloc, part)?;
        Ok(is_taken)
    }

    // Whether the component clashes with one of those whose names these are, or with what every tree has.
    fn is_taken(&self, alloc: Global, part: &Part) -> Result<bool, AllocError>
        ensures { IfOk result (λ is. (before : List Component) → AreTaken before self.now.names.keys self.now.accessors.keys
            → is ≡ is_taken before (part_view part.now)) }
    {
        if is_common(part.name.as_str()) {
            return Ok(true);
        }
        self.has_clash(alloc, part)
    }

    // Whether the component clashes with one of those whose names these are.
    fn has_clash(&self, alloc: Global, part: &Part) -> Result<bool, AllocError>
        ensures { IfOk result (λ is. (before : List Component) → AreTaken before self.now.names.keys self.now.accessors.keys
            → is ≡ list_any (clash (part_view part.now)) before) }
    {
        let name = part.name.as_str();
        if has(&self.names, name) {
            return Ok(true);
        }
        if has(&self.accessors, name) {
            return Ok(true);
        }
        if !is_list(part.shape) {
            return Ok(false);
        }
        let count = count_name(alloc, name)?;
        let list = list_name(alloc, name)?;
        Ok(has_either(&self.names, count.as_str(), list.as_str()))
    }

    // The names of one component more.
    fn add(&mut self, alloc: Global, part: &Part) -> Result<(), AllocError>
        ensures { OnOk result (Grows self.old self.new × ((before : List Component) → AreTaken before self.old.names.keys self.old.accessors.keys
            → AreTaken (before ++ part_view part.now ∷ []) self.new.names.keys self.new.accessors.keys)) }
    {
        let name = part.name.as_str();
        insert(&mut self.names, String::from_str(alloc, name)?)?;
        if !is_list(part.shape) {
            return Ok(());
        }
        insert(&mut self.accessors, count_name(alloc, name)?)?;
        insert(&mut self.accessors, list_name(alloc, name)?)?;
        Ok(())
    }
}

ghost use Rattle.std.specs.Prelude.{◌≡◌, ◌++◌, ◌||◌, ℕ, List, IfOk, OnOk, codes, string_bytes};
ghost use Rattle.std.specs.Str.{bytes_eq};
ghost use Rattle.at_model.specs.Declarations.{is_common, is_list};
ghost use Rattle.at_class.specs.View.{shape_view};
ghost use Rattle.at_class.specs.Taken.{Begins, has_key, or_this};

// The first position, where one more is looked at.
fn or_this(first: Option<usize>, passes: bool, position: usize) -> Option<usize>
    ensures { result ≡ or_this first passes position }
{
    match first {
        Some(earlier) => Some(earlier),
        None => { if passes { Some(position) } else { None } }
    }
}

// Whether every tree has an accessor of the name.
fn is_common(name: &str) -> bool
    ensures { result ≡ is_common name.now }
{
    name == "Child" || name == "Parent" || name == "NumChild"
}

// Whether the component is a list.
fn is_list(shape: PartShape) -> bool
    ensures { result ≡ is_list (shape_view shape) }
{
    matches!(shape, PartShape::Many(_))
}

fn has(set: &IndexSet<String>, text: &str) -> bool
    ensures { result ≡ has_key set.now.keys text.now }
{
    set.contains(text)
}

fn has_either(set: &IndexSet<String>, one: &str, other: &str) -> bool
    ensures { result ≡ (has_key set.now.keys one.now || has_key set.now.keys other.now) }
{
    has(set, one) || has(set, other)
}

fn insert(set: &mut IndexSet<String>, text: String) -> Result<(), AllocError>
    ensures { OnOk result (Begins set.old.keys set.new.keys
        × ((n : List ℕ) → has_key set.new.keys n ≡ (has_key set.old.keys n || bytes_eq n (string_bytes text)))) }
{
    set.insert_full(text)?;
    Ok(())
}

// The accessor that says how many the list has.
fn count_name(alloc: Global, name: &str) -> Result<String, AllocError>
    ensures { IfOk result (λ text. string_bytes text ≡ codes "Num" ++ name.now) }
{
    let mut text = String::from_str(alloc, "Num")?;
    text.push_str(name)?;
    Ok(text)
}

// The accessor of the whole list.
fn list_name(alloc: Global, name: &str) -> Result<String, AllocError>
    ensures { IfOk result (λ text. string_bytes text ≡ name.now ++ codes "List") }
{
    let mut text = String::from_str(alloc, name)?;
    text.push_str("List")?;
    Ok(text)
}
