//! What the expressions of aspects mean (JastAdd2 reference manual, "Aspects"): the kind and the body of each, or
//! its first fault.
//!
//! **Its specs:** `Judging` has the kind of each form and the body that it means, `Accessors` which accessor a name
//! stands for, `Signatures` what is declared of attributes, `Kinds` the kinds; `Typed` says what results stand for.
//! `KindTable` is the table of kinds, without places and bodies; `laws.rt` has that `Judging` goes by it. `SampleForms` has
//! expressions for `form_cases.rt`, where each form has its kind and its body.
//!
//! **Where to begin:** `typing.rt` and its folder, a recursion over the form with parts before the whole.
//!
//! **What it keeps true:** what is judged has `at_model`'s kind (`proofs/KindsOfForms`, `KindsOfCalls`, which
//! `at_typing` cites).
#![tactic(auto)]

pub mod accessors;
mod arguments;
mod code;
pub mod components;
pub mod form_cases;
pub mod laws;
pub mod signatures;
pub mod typing;

pub use arguments::Arguments;
pub use code::RuleCode;
