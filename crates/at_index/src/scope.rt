//! Which facets of a node are looked at.

ghost use Rattle.std.specs.Prelude.{◌≡◌, ℕ, true};
ghost use Rattle.at_index.specs.Prelude.{Location, looks_at, stands_for};

use crate::facet::Facet;

/// Which facets of a node are looked at.
#[derive(Clone, Copy)]
pub enum Scope {
    All,
    Index,
}

impl Scope {
    /// Whether the facet is one of those.
    pub fn has(self, facet: Facet) -> bool
        ensures { (n : ℕ) (l : Location ℕ) → stands_for n facet l ≡ true → looks_at self l ≡ result }
    {
        match self {
            Scope::All => true,
            Scope::Index => facet.is_index(),
        }
    }
}
