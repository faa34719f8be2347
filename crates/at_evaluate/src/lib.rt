//! An instance and all that it demands, evaluated in one go: by a recursion over the bodies of equations, which comes to the value that the
//! equations give, or gives up. It holds nothing of a question: what it goes by is what is kept, what it remembers meanwhile, and two counts.
//!
//! **What is evaluated:** an instance that isn't lazy, in the evaluation that asks for it. A lazy one is taken where it is kept; it is kept again
//! where that can be done without an evaluation; else it is evaluated by itself, and kept at its end. What is kept then is right and worthy of
//! the instance that was asked for, and spare where it was.
//!
//! **Where it gives up:** at a fault, at a value of another kind, at a circular attribute that isn't kept, and where expressions nest deeper
//! than was allowed, as they do along a cycle. What came to be kept up to there stays. Which fault or cycle it is, is left to the evaluation
//! that goes step by step, so nothing here asks of which kinds the values are. The other error is that memory is wanting.
//!
//! **Its specs**, in order: `Valued` is what instances come to, and which values are kept; `Meant` and `Right` say when these are right,
//! `Sparing` how little of them is enough and how much comes, `Led` that it is demanded; `Traces` when what can be kept again with no
//! evaluation is right, `Made` which values are evaluated all the same, and why. Of the parts of expressions `Place` is where one stands,
//! `Looking` what looks alone come to, `Parts` says expressions by their parts, `Forms` which an expression has, `Near` what a fold asks each
//! element for, `Passing` which elements it passes by. `Inner` is what instances are told that are evaluated in one go, and what comes of it,
//! `InParts` the same of an expression, part by part, and how each function ends. What a value may carry: `OneProof`.
//!
//! **Where to begin:** `Direct::answer` in `direct/going.rt`, the recursion, to which rules and tree are lent as one (`basis.rt`).
//! `direct/keeping.rt` has what is done at the end of an instance, `direct/operands.rt` operands whose values come with no recursion. What needs
//! none stands beside it: `form.rt` has an expression's parts, `here.rt` the beginning of an instance's evaluation and the expressions that
//! have no parts, `applying.rt` what is done with one value and with two, `comparing.rt` texts that are compared where they stand, `folding.rt`
//! one element of a fold, `near.rt` values at hand, and elements whose value needs no evaluation of its own, `passing.rt` those that a fold
//! passes by.
#![tactic(auto)]

mod applying;
mod basis;
mod comparing;
mod direct;
mod folding;
mod form;
mod here;
mod near;
mod passing;
mod stop;

pub use applying::with_two;
pub use basis::Basis;
pub use comparing::compare;
pub use direct::Direct;
pub use folding::{Next, settle};
pub use here::Here;
pub use near::{asked_of_each, plain_value};
pub use stop::Stop;
