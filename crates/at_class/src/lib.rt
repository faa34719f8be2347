//! The classes of an abstract grammar: their numbers, superclasses and components, or the grammar's first fault. And trees of these
//! classes as they are held: `tree.rt`, and the values of their tokens, `token.rt`. Their texts are `at_tree`'s.
//!
//! **Its specs:** `View` is what a table stands for in `at_model`, `Grammar` what a grammar that was read declares,
//! `Faults` which fault a refusal says; `Rules` and `Checks` say each rule as its check looks at it, `Climbs`,
//! `Ways` and `Taken` what is known on the way, `Intervals` what the numbers of classes tell, `Upward` what is found on the way up
//! from a class, `Table` what a table holds, `Keys` what keys of elements stand for. `TreeView` and `Token` are what trees and
//! values of tokens stand for.
//!
//! **Where to begin:** `ClassTable::build` in `table.rt`; `checks.rt` has the rules in the order of their codes.
//!
//! **What it keeps true:** the classes of a table are a hierarchy, names and components are apart, look-ups equal
//! the definitions and take no memory.
#![tactic(auto)]

mod chain;
mod checks;
mod circles;
mod class;
mod descent;
mod entry;
mod fault;
mod fixing;
mod found;
mod intervals;
mod key;
pub mod laws;
mod names;
mod naming;
mod part;
mod rules;
mod table;
mod taken;
pub mod token;
pub mod tree;
mod way;

pub use fault::{ClassCode, ClassFault};
pub use fixing::Fixed;
pub use key::{Key, mark_of};
pub use naming::are_named;
pub use part::{ClassId, Part, PartShape, TokenKind};
pub use table::ClassTable;
