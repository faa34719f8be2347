//! What the declarations of aspects mean (JastAdd2 reference manual, "Aspects"): the rules that they make over a
//! class table, or the first fault that they have.
//!
//! **Its specs:** `Building` is what `build` answers; `Declaring` has the faults of several declarations together,
//! `Meanings` and `Ruling` what each means by itself, `Completing` where a missing equation is told; `Located` and
//! `Numbering` list and number the declarations; `AccessorNames`, `AttributeKeys`, `EquationKeys`, `Twice` and
//! `Bound` are what the checks keep, `Seen` what their values stand for; `Single` says what is declared once;
//! `AspectRules` has what each code's rule says, `Samples`, `SampleAspects` and `SampleCalculator` the declarations of
//! the cases.
//!
//! **Where to begin:** `building.rt`. `numbered.rt` numbers the declarations' classes and names, `attributes.rt`
//! finds attributes, `checks.rt` has the faults of declarations together, `meaning.rt` what each means.
//!
//! **What it keeps true:** rules that are made are complete and well formed, so evaluation never meets a value of
//! another kind and never a missing equation; each attribute and each equation is declared once; and circular attributes
//! are lazy. By the laws of `laws.rt` declarations make rules exactly where they keep every rule, and what is told is the
//! first that they break.
#![tactic(auto)]

pub mod aspect_cases;
mod attributes;
mod building;
pub mod cases;
mod checks;
mod fault;
mod firsts;
pub mod laws;
mod located;
mod meaning;
mod numbered;
mod written;

pub use building::build;
pub use fault::{Breach, RuleFault};
