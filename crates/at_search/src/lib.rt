//! Searches over the formulas of circular attributes: how equations ended, what is still to be looked at from a strict demand, what
//! formulas lead to, and the values of instances that were looked at together.
//!
//! An equation of a circular attribute ends in a formula of instances, or in a fault (`Ended`). A search goes over formulas, depth
//! first, from an instance that is strictly demanded: each that is seen brings the instances of its formula in front of those to do.
//! An instance that is known is passed. Where all that a search looked at has ended, each of it from which formulas lead to formulas
//! alone has a value: what is derived of a system of conditions, in which there is one for each instance and one for each piece of
//! its formula (`at_solve`). Nothing here looks at a tree or tries an equation.
//!
//! **Its specs**, in order: `Recorded` says what is recorded of equations and how far a search has come, in the words of `at_model`'s
//! `Searching`; `LedTo` what formulas lead to; `Systems` what a condition stands for, and when a system is that of instances; `Solved`
//! which instances are solved, with what they rest on, and what spoils the others.
//!
//! **Where to begin:** `Search` in `search.rt`; `closure` and `first_fault` in `closing.rt`; `System` in `system.rt`, and `solve` in
//! `solving.rt`. How equations ended is in `ended.rt`, the conditions of a formula in `conditions.rt`, laws in `laws.rt`.
//!
//! **What it keeps true:** an instance is told a value only where all to which its formula leads is known or solved with it, and that
//! is the value that the fixpoint gives it. Of what was seen each other one is known, or leads to a fault.
#![tactic(auto)]

mod closing;
mod conditions;
mod ended;
mod keys;
mod laws;
mod search;
mod solving;
mod system;

pub use closing::{closure, first_fault};
pub use ended::{Ended, Ending, Fault, Formed, formed_of};
pub use keys::{holds, put};
pub use laws::what_is_shut_has_its_value;
pub use search::Search;
pub use solving::{Solved, solve};
pub use system::System;
