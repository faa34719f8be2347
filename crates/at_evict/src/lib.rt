//! Keepers within a bound: where more is kept than that, entries are folded into those that used them, which stand then for what these stood for.
//!
//! **Its specs:** `Folding` is what becomes of entries that are folded (`Refolding` has short words for it), `Desks` of edges of drawers that tell
//! of such, `Rerunning` of those of runs, and `Joining` of lists that came to be the same. What is kept, and how, is said by those of `at_cache`,
//! of which `Shedding` has what folding entries leaves.
//!
//! **Where to begin:** the trait in `bounded.rt`, then `folding.rt`: a plan is chosen (`choosing.rt`, by what is counted in `weighing.rt`) and
//! tested (`checking.rt`). `refolding.rt` has what entries are folded with: `lone.rt` tells which lists stay, `rewriting.rt` has their edges, with
//! room in `room.rt`, `desks.rt` those of drawers, `rerunning.rt` those of runs, `relinking.rt` the entries, and `joining.rt` makes one list of
//! those of a node that came to have the same edges.
//!
//! **What it keeps true:** what is kept was kept just so. Which entries are folded is a matter of speed alone: any plan that is tested is right.
#![tactic(auto)]

mod bounded;
mod checking;
mod choosing;
mod desks;
mod folding;
mod joining;
mod lone;
mod refolding;
mod relinking;
mod rerunning;
mod rewriting;
mod room;
mod weighing;

pub use bounded::Bounded;
