//! The locations looked at.

ghost use Rattle.std.specs.Prelude.{◌≡◌, ◌≤◌, ℕ, List, [], ◌∷◌, ◌++◌, IfOk, OnOk, OnErr, drop, map, length, take};
ghost use Rattle.at_model.specs.Run.{Location};
ghost use Rattle.at_store.specs.Located.{loc_view};

use at_store::Loc;
use std::alloc::{AllocError, Global};
use std::marker::Model;

/// Locations, in the order in which they were looked at.
#[derive(Debug, Drop)]
pub struct Reads {
    items: Vec<Loc>,
}

impl Model for Reads {
    ghost Value = { List (Location ℕ) };

    ghost view = { λ r. map loc_view r.items.items };
}

impl Reads {
    /// None.
    pub fn new(alloc: Global) -> Self
        ensures { result ≡ [] }
    {
        Reads {
            items: Vec::new(alloc),
        }
    }

    /// None, with room for so many, where there is memory for that.
    pub fn with_room(alloc: Global, count: usize) -> Self
        ensures { result ≡ [] }
    {
        match Vec::with_capacity(alloc, count) {
            Ok(items) => Reads { items },
            Err(_) => Reads::new(alloc),
        }
    }

    /// Takes all out; their memory stays.
    pub fn clear(&mut self)
        ensures { self.new ≡ [] }
    {
        self.items.clear();
    }

    /// One more. An error where memory is wanting; then they are as they were.
    pub fn push(&mut self, loc: Loc) -> Result<(), AllocError>
        ensures gained { OnOk result (self.new ≡ self.old ++ loc_view loc ∷ []) }
        ensures kept { OnErr result (self.new ≡ self.old) }
    {
        self.items.push(loc)?;
        Ok(())
    }

    /// Those of another list behind these. An error where memory is wanting; then they are as they were.
    pub fn extend(&mut self, others: &Reads) -> Result<(), AllocError>
        ensures gained { OnOk result (self.new ≡ self.old ++ others.now) }
        ensures kept { OnErr result (self.new ≡ self.old) }
    {
        self.items.extend_from_slice(others.as_slice())?;
        Ok(())
    }

    /// Those behind the first so many, taken out. An error where memory is wanting; then they are as they were.
    pub fn split_off(&mut self, count: usize) -> Result<Self, AllocError>
        requires { count ≤ length self.old }
        ensures front { OnOk result (self.new ≡ take count self.old) }
        ensures tail { IfOk result (λ reads. reads ≡ drop count self.old) }
    {
        let items = self.items.split_off(count)?;
        Ok(Reads { items })
    }

    /// All of them.
    pub fn as_slice(&self) -> &[Loc]
        ensures { map loc_view result.now ≡ self.now }
    {
        self.items.as_slice()
    }

    /// All of them, taken out.
    pub fn into_vec(self) -> Vec<Loc>
        ensures { map loc_view result.items ≡ self }
    {
        self.items
    }

    /// How many there are.
    pub fn len(&self) -> usize
        ensures { result ≡ length self.now }
    {
        self.items.len()
    }
}
