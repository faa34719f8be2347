//! Of which entries edges tell, and what an edge is added with.

ghost use Rattle.std.specs.Prelude.{◌≡◌, Bool};
ghost use Rattle.at_index.specs.Prelude.{is_live, Edge};

use crate::edge::Edge;
use std::alloc::Global;

/// Who knows of which entries edges tell. Any other edge tells of nothing.
pub trait Tells {
    /// The edges that do.
    ghost tells: { Self → Edge → Bool };

    /// Whether the edge tells of an entry.
    fn tells_of(&self, edge: &Edge) -> bool
        ensures { result ≡ tells self.now edge.now };
}

/// An edge that is added, to an entry that is to come, and who knows of which entries the edges tell that are there.
#[derive(Drop)]
pub struct Adding<'a, T: Tells> {
    pub alloc: Global,
    pub teller: &'a T,
    pub edge: Edge,
}

/// Whether an edge tells of an entry, or of one that is to come, as the one that is added does.
impl<'a, T: Tells> Tells for Adding<'a, T> {
    ghost tells = { λ s. is_live (T.tells s.teller.now) s.edge };

    fn tells_of(&self, edge: &Edge) -> bool {
        self.teller.tells_of(edge) || edge.stamp == self.edge.stamp
    }
}
