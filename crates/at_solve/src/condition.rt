//! Conditions, by their positions.

/// What it takes that a condition is derived. Others are named by their positions in the system.
#[derive(Clone, Copy, PartialEq, Eq, Debug)]
pub enum Condition {
    /// Nothing.
    Always,
    /// It never is.
    Never,
    /// That one.
    When(usize),
    /// Both of these.
    Both(usize, usize),
    /// Either of these.
    Either(usize, usize),
}
