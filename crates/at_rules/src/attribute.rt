//! The numbers of attributes.

use std::marker::Model;

/// An attribute, by its position among the declarations.
#[derive(Clone, Copy, PartialEq, Eq, Debug)]
pub struct AttrId(usize);

impl Model for AttrId {
    ghost use Rattle.std.specs.Prelude.{ℕ};

    ghost Value = { ℕ };

    ghost view = { λ a. a.0 };

    ghost inverse = { λ n. record { 0 = n } };
}

impl AttrId {
    ghost use Rattle.std.specs.Prelude.{◌≡◌};

    /// The attribute at that position.
    pub fn new(position: usize) -> Self
        ensures { result ≡ position }
    {
        AttrId(position)
    }

    /// Its position among the declarations.
    pub fn index(self) -> usize
        ensures { result ≡ self }
    {
        self.0
    }
}
