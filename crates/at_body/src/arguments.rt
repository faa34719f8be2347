//! What is passed to an attribute.

ghost use Rattle.std.specs.Prelude.{◌≡◌, [], IfOk, IsTrue};

use super::value::Value;
use std::alloc::AllocError;
use std::marker::Model;
use std::rc::RcSlice;

/// The values that are passed to an attribute, in order, shared by all that hold them. None of them take no memory.
#[derive(Debug)]
pub struct Arguments {
    shared: Option<RcSlice<Value>>,
}

/// One call, where each exit that lets them go would else have a case for each field.
impl Drop for Arguments {
    #[inline(always)]
    fn drop(self) {
        let Arguments { shared: _ } = self;
    }
}

impl Model for Arguments {
    ghost use Rattle.std.specs.Prelude.{List};
    ghost use Rattle.at_body.specs.declared.value.Value.{Value as ValueCode};
    ghost use Rattle.at_body.specs.Shared.{shared_items};

    ghost Value = { List ValueCode };

    ghost view = { λ a. shared_items a.shared };
}

impl Arguments {
    /// None.
    pub fn none() -> Self
        ensures { result ≡ [] }
    {
        Arguments { shared: None }
    }

    /// These values. An error where memory is wanting.
    pub fn of(values: Vec<Value>) -> Result<Self, AllocError>
        ensures { IfOk result (λ a. a ≡ values.items) }
    {
        if values.is_empty() {
            return Ok(Arguments::none());
        }
        Ok(Arguments {
            shared: Some(RcSlice::from_vec(values)?),
        })
    }

    /// Whether there are none, as is seen at once.
    pub fn is_none(&self) -> bool
        ensures { IsTrue result → self.now ≡ [] }
    {
        match &self.shared {
            Some(_) => false,
            None => true,
        }
    }

    /// All of them.
    pub fn as_slice(&self) -> &[Value]
        ensures { result.now ≡ self.now }
    {
        match &self.shared {
            Some(values) => values.as_slice(),
            None => &[],
        }
    }

    /// The same values once more, which takes no memory but a count. An error where that is at its end.
    pub fn share(&self) -> Result<Self, AllocError>
        ensures { IfOk result (λ a. a ≡ self.now) }
    {
        match &self.shared {
            Some(values) => Ok(Arguments {
                shared: Some(values.clone()?),
            }),
            None => Ok(Arguments::none()),
        }
    }
}
