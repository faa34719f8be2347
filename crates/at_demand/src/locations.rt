//! The locations that an evaluation read.

use at_store::Loc;
use smallvec::SmallVec;

// Locations, of which one or two stand in place: most evaluations read no more.
pub type Locations = SmallVec<Loc, 2>;
