//! Terms, nested trees and paths, and the one text of each. Trees and tokens themselves are `at_class`'s, and passed on from here.
//!
//! **Its specs:** `View`, `PathView` and `Faults` are what terms, paths and kinds of faults stand for (of trees and tokens `TreeView` and
//! `Token` of `at_class`, also by this crate's name);
//! `Reads`, `ReadTrees` and `Shape` what the readers and `shape` answer; `Laws` and `TreeLaws` what is promised of
//! texts. `Partial`, `PartialPath`, `Gives`, `Leads`, `Stops` and `Finishes` are texts by characters,
//! `Fronts`, `TermFronts`, `PathSteps`, `Runs` and `PlainNames` the readers that take whole names, cells and steps; `Seen`
//! and `Separated` say what values of readers stand for, `Appending` what a writer adds to an output, `Fixed` which single
//! components are fixed, and what stands in them.
//!
//! **Where to begin:** `term.rt` and `tree.rt`. A file is read in one pass, straight to its tree, and read again by
//! characters where that fails, to tell the first fault; so is a term in a line. A path is read once.
//!
//! **What it keeps true:** one text for each tree and each path, from which the same is read. What is fixed in a component is
//! no part of that text: it comes with its node.
#![tactic(auto)]

pub mod fault;
pub mod laws;
pub mod names;
pub mod path;
pub mod reader;
mod runs;
pub mod term;
pub mod tree;

pub use at_class::token;
