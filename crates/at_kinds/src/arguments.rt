//! What may be passed to attributes.

/// What may be an argument of an attribute.
#[derive(Clone, Copy, Debug, PartialEq, Eq)]
pub enum Arguments {
    /// What was given alone: of texts a literal, a parameter or a token.
    Given,
    /// Whatever is computed, too. An int that isn't written out and a text that wasn't given are looked at when they are passed.
    Computed,
}
