//! Why declarations are no rules.

use at_kinds::RuleCode;
use at_text::fault::Failure;
use at_text::place::Place;

/// A rule that a declaration breaks: its code, the number of the aspect file, from 1, and the place in
/// it.
#[derive(Clone, Copy, Debug, PartialEq, Eq)]
pub struct Breach {
    pub code: RuleCode,
    pub file: usize,
    pub at: Place,
}

/// Why declarations are no rules: the first rule that is broken, or want of memory.
pub type RuleFault = Failure<Breach>;
