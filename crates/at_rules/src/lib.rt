//! The rules of evaluation (Knuth 1968, Hedin 2000): attributes, the bodies of their equations, and which equation
//! stands for a node.
//!
//! **Its specs:** `RulesView` is what rules are in the words of `at_model`, `Bodies` what a body is; `Upward` which
//! attribute a class has, `FirstNamed` and `Begun` which is the first of its name, `Names` what the number of a name is,
//! and `Counted` which names have a count behind them; `Dispatch`, `Holding` and `Tables` what the tables hold that spare
//! climbing; `Marks` gives expressions back from lists, so that they may be told apart.
//!
//! **Where to begin:** `rules.rt` has the look-ups. It is all that evaluation needs, so nothing above it waits for
//! the checks of declarations (`at_kinds`, `at_complete`, `at_typing`). A line's attribute is looked up by
//! `Rules::attribute_asked`, by its name and the number of arguments: an attribute that is overloaded has a name with a
//! count behind it, without which `Rules::told_name` tells it.
//!
//! **What it keeps true:** each look-up equals its definition.
#![tactic(auto)]

mod attribute;
mod body;
mod counted;
mod dispatch;
mod first_named;
mod guesses;
mod holders;
mod names;
mod rules;

pub use attribute::AttrId;
pub use body::{Body, Kind, Lookup, Operator, Order, Sought};
pub use first_named::FirstNamed;
pub use names::{number_for, number_of};
pub use rules::{Attribute, Equations, Rules};
