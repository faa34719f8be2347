//! Which attributes lack an equation (JastAdd2 reference manual, "Attributes"): a synthesized one where a class
//! that isn't abstract has none, an inherited one where a class may stand with none above it.
//!
//! **Its specs:** `Completing` says what it means that an attribute lacks an equation; `Hierarchies` and `Walks`
//! are how it is found.
//!
//! **Where to begin:** `completeness.rt` goes down from the class of a synthesized attribute; `exposure.rt` goes,
//! for each name of an inherited one, from the start class to all classes of which a tree may stand where none
//! above has an equation. Both walk by `walk.rt`, which meets each class once.
//!
//! **What it keeps true:** what is answered is the first that lacks one; where none does, the rules are complete.
#![tactic(auto)]

mod completeness;
mod exposure;
mod hierarchy;
mod walk;

pub use completeness::class_without_equation;
pub use exposure::inherited_without_equation;
