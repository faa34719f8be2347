//! Which folds over lists may be searches for a text, and rules in which they are.
//!
//! **Its specs:** `Sought` says which folds may be searches, and that all else of the rules is as it was. `Standing`: over which states
//! the machine then tells the same. `Finding`: what the code tells of tests and scopes on the way.
//!
//! **Where to begin:** `laws.rt`: with searches in the place of folds rules mean the same.
#![tactic(auto)]

mod finder;
mod keys;
mod laws;
mod scope;
mod searches;
mod shapes;
mod walk;

pub use laws::{
    what_is_sought_is_answered_the_same, what_is_sought_is_well_formed,
    what_the_machine_tells_stays,
};
pub use searches::sought;
