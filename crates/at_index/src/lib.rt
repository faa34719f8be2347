//! Who rests on what: from a location edges lead to the entries that read it. Which entries there are, of which instances and with which
//! values, isn't known here: an edge is a slot and the number of a `put`, and whether it tells of an entry is asked of who knows it.
//!
//! **Its specs:** `Rows` and `Edges` are what a list of edges has, and `Sameness` when two locations are the same. `Readers` is who read which
//! location of a node, `Desks` the same of drawers, `Asking` what is asked of nodes, and `Runs` how one edge tells of many locations; `Finding`
//! is all of these. `Linking` is one edge more.
//!
//! **Where to begin:** `tells.rt`, the one thing that is asked for, and what an edge is added with, then `edge.rt`, with `row.rt`, and
//! `facet.rt`, with `facets.rt`: what was read of a node in one go. `desk.rt` is who read which drawer of a node: a node may have thousands, so
//! each is found by hash. `linking.rt` has `add_readers`, by which an entry comes to be found from all that it read; `noting.rt` notes of which
//! nodes an index was read. `run.rt` has all readers, and runs, of which one edge tells of a fold: `seating.rt` makes them, and `stretch.rt`
//! adds to them. `scope.rt` says which facets of a node an edit looks at.
//!
//! **What it keeps true:** a list that gains an edge loses none that tells of an entry, and gains no other one. No two nodes sit in one place of a
//! run, and an edge is over no place that wasn't given. A desk goes only where no edge of it tells of an entry.
#![tactic(auto)]

pub mod desk;
pub mod edge;
pub mod facet;
mod facets;
pub mod linking;
mod noting;
pub mod row;
pub mod run;
pub mod scope;
pub mod seating;
mod stretch;
pub mod tells;
