//! Tokens, and where they stand in their text.

/// What kind of token it is. A reserved word is a word too.
#[derive(Clone, Copy, Debug, PartialEq, Eq)]
pub enum TokenKind {
    Word,
    Number,
    /// A text between quotes, the quotes among it.
    Text,
    Sign,
}

/// A token, from its first byte to the one behind its last, as offsets in bytes from the beginning of the text.
#[derive(Clone, Copy, Debug, PartialEq, Eq)]
pub struct Token {
    pub kind: TokenKind,
    pub start: usize,
    pub end: usize,
}

/// A token with the part of the text that it is, and the offset of its first byte.
#[derive(Clone, Copy, Debug)]
pub struct Lexeme<'a> {
    pub kind: TokenKind,
    pub text: &'a str,
    pub start: usize,
}
