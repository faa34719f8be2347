//! Places and arguments that outlive their line.
ghost use Rattle.std.specs.Prelude.{◌≡◌, IfOk};
ghost use Rattle.at_protocol.specs.LineView.{argument_view, arguments_view, place_view};

use super::{Argument, Place};
use std::alloc::{AllocError, Global};
use std::borrow::CowStr;

impl<'a> Place<'a> {
    /// The same place with names of its own, or want of memory.
    pub fn copied(&self, alloc: Global) -> Result<Place<'static>, AllocError>
        ensures { IfOk result (λ p. place_view p ≡ place_view self.now) }
    {
        match self {
            Place::FromRoot(path) => Ok(Place::FromRoot(path.copied(alloc)?)),
            Place::FromMark { name, steps } => {
                let steps = steps.copied(alloc)?;
                let name = CowStr::Owned(String::from_str(alloc, name.as_str())?);
                Ok(Place::FromMark { name, steps })
            }
        }
    }
}

impl<'a> Argument<'a> {
    /// The same argument with texts of its own, or want of memory.
    fn copied(&self, alloc: Global) -> Result<Argument<'static>, AllocError>
        ensures { IfOk result (λ a. argument_view a ≡ argument_view self.now) }
    {
        match self {
            Argument::Text(text) => Ok(Argument::Text(String::from_str(alloc, text.as_str())?)),
            Argument::Int(number) => Ok(Argument::Int(*number)),
            Argument::Bool(truth) => Ok(Argument::Bool(*truth)),
            Argument::Node(place) => Ok(Argument::Node(place.copied(alloc)?)),
            Argument::Null => Ok(Argument::Null),
        }
    }
}

/// The same arguments with texts of their own, or want of memory.
pub fn copied_arguments(
    alloc: Global,
    arguments: &[Argument<'_>],
) -> Result<Vec<Argument<'static>>, AllocError>
    ensures { IfOk result (λ copies. arguments_view copies.items ≡ arguments_view arguments.now) }
{
    let mut copies = Vec::with_capacity(alloc, arguments.len())?;
    for argument in arguments {
        copies.push(argument.copied(alloc)?)?;
    }
    Ok(copies)
}
