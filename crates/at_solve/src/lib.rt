//! What circular attributes come to, over numbers alone: what is derived of a system of conditions (Dowling and Gallier 1984), and
//! the strongly connected components of a graph (Gabow 2000). Both take time and memory linear in what they are given.
//!
//! A formula of circular instances is a few conditions, each named by its position: one for the instance, one for each `&&` and
//! `||`. Of attributes that start from `false` what is derived is the least fixpoint: an instance is true just where it is derived.
//! Of those that start from `true` it is what leaves that value, with `&&` and `||` exchanged and the truth values that are known
//! turned: an instance is false just where it is derived, and the others are the greatest fixpoint. Instances of which each leads to
//! each by their formulas are one component, and a component's conditions name no other ones but what is known before.
//!
//! **Its specs:** `Derivations` says what is derived, `Components` what the components of a graph are: the two contracts. How far
//! the searches have come is said by `Spreading` and `Searching`.
//!
//! **Where to begin:** `derived` in `spreading.rt`, over the lists of `users.rt`; `components_of` in `components.rt`, whose steps are
//! in `search.rt`.
//!
//! **What it keeps true:** just what has a finite derivation is told as derived. Each node is in one component, and its edges lead
//! into that one or into those that are listed before it.
#![tactic(auto)]

mod components;
mod condition;
mod search;
mod spreading;
mod users;

pub use components::components_of;
pub use condition::Condition;
pub use spreading::derived;
