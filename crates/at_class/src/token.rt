//! The values of tokens.
ghost use Rattle.std.specs.Prelude.{◌≡◌, IfSome};

use arrayvec::ArrayString;
use std::alloc::{AllocError, Global};

/// A text of at most sixteen bytes, which lies in the value itself.
pub type ShortText = ArrayString<16>;

/// The value of a token: a text, a number or a truth value. A short text takes no memory of its own, and no more room in the value
/// than another one; it stands with the allocator that copies of it take their memory from.
#[derive(Drop)]
pub enum TokVal {
    Str(String),
    Short(ShortText, Global),
    Int(i32),
    Bool(bool),
}

/// The text in a short one; none where it is too long for that.
fn shortened(text: &str) -> Option<ShortText>
    ensures { IfSome result (λ short. short.bytes ≡ text.now) }
{
    ShortText::from(text).ok()
}

impl TokVal {
    ghost use Rattle.std.specs.Prelude.{◌≡◌, IfOk, string_bytes};
    ghost use Rattle.at_model.specs.SyntaxTrees.{IsToken, Text, token_eq};
    ghost use Rattle.at_class.specs.Token.{token_view};

    /// The text as a value, whose memory is given back where the text is short.
    pub fn of_text(alloc: Global, text: String) -> TokVal
        ensures { token_view result ≡ Text (string_bytes text) }
    {
        match shortened(text.as_str()) {
            Some(short) => TokVal::Short(short, alloc),
            None => TokVal::Str(text),
        }
    }

    /// The same value once more, of which it is known that it can be written; or want of memory.
    pub(crate) fn written(&self, alloc: Global) -> Result<TokVal, AllocError>
        ensures same { IfOk result (λ v. token_view v ≡ token_view self.now) }
        ensures token { IfOk result (λ v. IsToken (token_view v)) }
    {
        match self {
            TokVal::Str(text) => Ok(TokVal::of_text(
                alloc,
                String::from_str(alloc, text.as_str())?,
            )),
            TokVal::Short(text, _) => Ok(TokVal::of_text(
                alloc,
                String::from_str(alloc, text.as_str())?,
            )),
            TokVal::Int(n) => Ok(TokVal::Int(*n)),
            TokVal::Bool(b) => Ok(TokVal::Bool(*b)),
        }
    }

    /// The same value once more, or want of memory.
    pub fn copied(&self, alloc: Global) -> Result<TokVal, AllocError>
        ensures { IfOk result (λ v. token_view v ≡ token_view self.now) }
    {
        match self {
            TokVal::Str(text) => Ok(TokVal::Str(String::from_str(alloc, text.as_str())?)),
            TokVal::Short(text, alloc) => Ok(TokVal::Short(*text, *alloc)),
            TokVal::Int(n) => Ok(TokVal::Int(*n)),
            TokVal::Bool(b) => Ok(TokVal::Bool(*b)),
        }
    }

    /// Whether the other value is the same: a text by its bytes, wherever they lie.
    pub fn is_same(&self, other: &TokVal) -> bool
        ensures { result ≡ token_eq (token_view self.now) (token_view other.now) }
    {
        match self {
            TokVal::Str(text) => other.is_text(text.as_str()),
            TokVal::Short(text, _) => other.is_text(text.as_str()),
            TokVal::Int(n) => matches!(other, TokVal::Int(m) if m == n),
            TokVal::Bool(b) => matches!(other, TokVal::Bool(c) if c == b),
        }
    }

    /// Whether the value is that text.
    fn is_text(&self, text: &str) -> bool
        ensures { result ≡ token_eq (Text text.now) (token_view self.now) }
    {
        match self {
            TokVal::Str(own) => text == own.as_str(),
            TokVal::Short(own, _) => text == own.as_str(),
            TokVal::Int(_) | TokVal::Bool(_) => false,
        }
    }
}
