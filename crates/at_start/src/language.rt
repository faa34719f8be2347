//! The language that aspects are written in.

use at_jrag::Forms;

/// The language that aspects are written in.
#[derive(Clone, Copy, PartialEq, Eq, Debug)]
pub enum Language {
    /// The profile of JastAdd that `at_jrag` reads, with those of its forms that are read only where they are named.
    Profile(Forms),
    /// JastAdd as its users write it, as far as `at_java` reads it. Circular attributes are read.
    JastAdd,
}
