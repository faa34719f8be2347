//! Values and faults.

ghost use Rattle.std.specs.Prelude.{◌≡◌, ◌≤◌, ℕ, nat_eq, pos, not, string_bytes, IfOk};
ghost use Rattle.std.specs.Int.{w32, int_wrapping_neg};
ghost use Rattle.at_model.specs.Run.{Int, Text};
ghost use Rattle.at_model.specs.Bodies.{int_of, truth_of, text_of, ref_of, value_of, value_eq, may_pass, is_text_within, max_passed};
ghost use Rattle.at_store.specs.Tokens.{lent_view};
ghost use Rattle.at_body.specs.Values.{value_view};
ghost use Rattle.at_body.specs.ValueKinds.{AreAlike, IsInt, IsRef, IsText, IsTruth};

use at_store::{Node, Token};
pub use at_tree::fault::FaultKind;
use std::alloc::AllocError;
use std::hash::{Hash, Hasher};
use std::rc::Rc;

/// The farthest from 0 that an int is that is computed and passed.
const MAX_STEP: i32 = 1048576;

/// The most bytes of a text that is computed and passed.
const MAX_PASSED: usize = 4096;

/// The value of an attribute: also a reference to a node, or null. A text is shared by all that hold it.
#[derive(Debug, Drop)]
pub enum Value {
    Int(i32),
    Bool(bool),
    Text(Rc<String>),
    Ref(Option<Node>),
}

impl Default for Value {
    fn default() -> Value {
        Value::Ref(None)
    }
}

impl PartialEq for Value {
    ghost use Rattle.std.specs.Cmp.{partial_equiv_from_equiv, on_equiv};
    ghost use Rattle.at_body.specs.Same.{same_value};
    ghost use Rattle.at_body.specs.Sameness.{values_equiv};

    ghost eq = { λ v w. same_value (value_view v) (value_view w) };

    ghost laws = { partial_equiv_from_equiv (on_equiv value_view values_equiv) };

    fn eq(&self, other: &Value) -> bool {
        match (self, other) {
            (Value::Int(m), Value::Int(n)) => *m == *n,
            (Value::Bool(a), Value::Bool(b)) => *a == *b,
            (Value::Text(s), Value::Text(t)) => s.as_ref().as_str() == t.as_ref().as_str(),
            (Value::Ref(m), Value::Ref(n)) => *m == *n,
            _ => false,
        }
    }
}

impl Eq for Value {
    ghost use Rattle.std.specs.Cmp.{on_equiv};
    ghost use Rattle.at_body.specs.Sameness.{values_equiv};

    ghost laws = { on_equiv value_view values_equiv };
}

impl Hash for Value {
    ghost use Rattle.std.specs.Hash.{on_Alike};
    ghost use Rattle.at_body.specs.Same.{value_writes};
    ghost use Rattle.at_body.specs.Sameness.{values_fed};

    ghost hash_input = { λ v. value_writes (value_view v) };

    ghost respects_eq = { (on_Alike value_view values_fed).fed };

    // Values of other kinds may be fed alike: a parameter has one kind, and null is told from a node.
    fn hash<H: Hasher>(&self, state: &mut H) {
        match self {
            Value::Int(n) => n.hash(state),
            Value::Bool(b) => b.hash(state),
            Value::Text(text) => state.write(text.as_ref().as_bytes()),
            Value::Ref(node) => node.hash(state),
        }
    }
}

impl Value {
    /// The int that it is.
    pub fn int(&self) -> i32
        requires { IsInt (value_view self.now) }
        ensures { result ≡ int_of (value_view self.now) }
    {
        match self {
            Value::Int(n) => *n,
            _ => unreachable!(),
        }
    }

    /// The truth value that it is.
    pub fn truth(&self) -> bool
        requires { IsTruth (value_view self.now) }
        ensures { result ≡ truth_of (value_view self.now) }
    {
        match self {
            Value::Bool(b) => *b,
            _ => unreachable!(),
        }
    }

    /// The text that it is.
    pub fn text(&self) -> &str
        requires { IsText (value_view self.now) }
        ensures { result.now ≡ text_of (value_view self.now) }
    {
        match self {
            Value::Text(text) => text.as_ref().as_str(),
            _ => unreachable!(),
        }
    }

    /// The node that it is; none for null.
    pub fn node(&self) -> Option<Node>
        requires { IsRef (value_view self.now) }
        ensures { result ≡ ref_of (value_view self.now) }
    {
        match self {
            Value::Ref(node) => *node,
            _ => unreachable!(),
        }
    }

    /// The text that it is, taken out where no other value shares it. An error where memory is wanting.
    pub fn into_text(self) -> Result<String, AllocError>
        requires { IsText (value_view self) }
        ensures { IfOk result (λ text. string_bytes text ≡ text_of (value_view self)) }
    {
        match self {
            Value::Text(text) => Rc::unwrap_or_clone(text),
            _ => unreachable!(),
        }
    }

    /// The value that is the text. An error where memory is wanting.
    pub fn of_text(text: String) -> Result<Value, AllocError>
        ensures { IfOk result (λ v. value_view v ≡ Text (string_bytes text)) }
    {
        let alloc = *text.allocator();
        Ok(Value::Text(Rc::new(alloc, text)?))
    }

    /// The value once more. An error where memory is wanting.
    pub fn copy(&self) -> Result<Value, AllocError>
        ensures { IfOk result (λ v. value_view v ≡ value_view self.now) }
    {
        match self {
            Value::Int(n) => Ok(Value::Int(*n)),
            Value::Bool(b) => Ok(Value::Bool(*b)),
            Value::Text(text) => Ok(Value::Text(text.clone()?)),
            Value::Ref(node) => Ok(Value::Ref(*node)),
        }
    }

    /// The value of a token. An error where memory is wanting.
    #[inline(always)]
    pub fn of_token(token: Token<'_>) -> Result<Value, AllocError>
        ensures { IfOk result (λ v. value_view v ≡ value_of (lent_view token.entry)) }
    {
        match token {
            Token::Str(text, alloc) => Value::of_text(String::from_str(alloc, text)?),
            Token::Int(n) => Ok(Value::Int(n)),
            Token::Bool(b) => Ok(Value::Bool(b)),
        }
    }

    /// Whether it may be passed where it was computed: an int that isn't too far from 0, or a text that isn't too long.
    pub fn may_pass(&self) -> bool
        ensures { result ≡ may_pass (value_view self.now) }
    {
        match self {
            Value::Int(n) => is_near(*n),
            Value::Text(text) => is_short(text.as_ref().as_str()),
            _ => true,
        }
    }

    /// A number of nodes as an int.
    pub fn of_count(count: usize) -> Value
        requires { count ≤ 16777216 }
        ensures { value_view result ≡ Int (pos count) }
    {
        Value::Int(count as i32)
    }

    /// The int with the sign turned; it wraps.
    pub fn negated(&self) -> Value
        requires { IsInt (value_view self.now) }
        ensures { value_view result ≡ Int (int_wrapping_neg w32 (int_of (value_view self.now))) }
    {
        Value::Int(self.int().wrapping_neg())
    }

    /// Whether both are equal ints, truth values or texts, or the same node, or both null.
    pub fn is_same(&self, other: &Value) -> bool
        requires { AreAlike (value_view self.now) (value_view other.now) }
        ensures { result ≡ value_eq nat_eq (value_view self.now) (value_view other.now) }
    {
        match self {
            Value::Int(n) => *n == other.int(),
            Value::Bool(b) => *b == other.truth(),
            Value::Text(text) => text.as_ref().as_str() == other.text(),
            Value::Ref(node) => *node == other.node(),
        }
    }
}

/// Whether the int is no farther from 0 than one may be that is computed and passed.
fn is_near(number: i32) -> bool
    ensures { result ≡ may_pass {N = ℕ} (Int number) }
{
    if number < 0 {
        -MAX_STEP - 1 <= number
    } else {
        number <= MAX_STEP
    }
}

/// Whether the text has no more bytes than one may have that is computed and passed.
fn is_short(text: &str) -> bool
    ensures { result ≡ is_text_within max_passed text.now }
{
    text.len() <= MAX_PASSED
}
