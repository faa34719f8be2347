//! One try of one equation: the evaluation of an instance, to a value or (of a circular attribute) to a formula, which
//! can be put aside at a demand and goes on with its value.
//!
//! **Its specs:** `Values`, `Shared`, `Same` and `Sameness` are values and instances; `Rest` says what is left of an
//! evaluation under way, `Size` how much that is; `Starting` and `Stacked`, `Standing` where it stands; `Calling`
//! which receivers of calls are taken at once, `Comparing` which texts are compared where they stand, `Seeking` which
//! elements a search goes over; `Asked` which instances may be asked for, `Trying` what one try finds; `Typed`,
//! `TypedStart` and `ValueKinds` of what kinds the values are that are there and that are waited for. Of formulas
//! `Pieces` (and `FormulaCodes`) says what their pieces stand for, `Forms` what is left of one under way and how much
//! that is, `TypedForms` of what kinds.
//!
//! **Where to begin:** `trial.rt` has the steps, `calling.rt` the receivers of calls, `comparing.rt` the texts of
//! which no copy is made, `using.rt` and `folding.rt` what is done with values, `seeking.rt` the folds over those
//! elements alone that `candidates.rt` tells, `starting.rt` the way up to an inherited equation; `trying.rt` is one
//! try with what is known. `forming.rt` has the steps of a formula, over a trial for each value that is wanted,
//! `seeking_formula.rt` those of searches, `formula.rt` the formulas themselves, `trying_formula.rt` one try for a
//! formula.
//!
//! **What it keeps true:** a trial goes exactly as far as `at_model`'s `Run` of the instance, notes just the
//! locations that this looks at, and keeps to the kinds, so no code answers for a value of another one. So does what
//! comes to a formula, by the `Run` of the instance's formula.
#![tactic(auto)]

mod arguments;
mod calling;
mod candidates;
mod comparing;
mod folding;
mod forming;
mod formula;
mod inst;
mod laws;
mod reads;
mod seeking;
mod seeking_formula;
mod stack;
mod starting;
mod task;
mod todo;
mod trial;
mod trying;
mod trying_formula;
mod typing_laws;
mod using;
mod value;

pub use arguments::Arguments;
pub use calling::is_passed;
pub use candidates::mark_at;
pub use comparing::{tells, text_in, token_text};
pub use folding::come_to;
pub use forming::{Forming, Progress};
pub use formula::{Formula, Piece};
pub use inst::Inst;
pub use laws::{comes, fails, gives, passes, pieces_ask_in_order};
pub use reads::Reads;
pub use stack::Stack;
pub use starting::look_at;
pub use todo::{Binary, Fold, Unary};
pub use trial::{Step, Trial};
pub use trying::{Known, Tried, try_body};
pub use trying_formula::try_formula;
pub use typing_laws::{
    an_instance_has_an_equation, what_a_store_shows_is_typed, what_is_told_is_taken,
};
pub use value::{FaultKind, Value};
