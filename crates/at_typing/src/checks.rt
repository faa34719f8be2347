//! What is wrong with declarations taken together.

ghost use Rattle.std.specs.Prelude.{◌≡◌, map, IfOk};
ghost use Rattle.at_typing.specs.AttributeKeys.{AreAttributes};
ghost use Rattle.at_typing.specs.Declaring.{fault_at, fault_together};
ghost use Rattle.at_typing.specs.Numbering.{numbered_view, AreNumbered};

mod accessor_names;
mod bound;
mod completeness;
mod equations;
mod limits;
mod twice;

use crate::attributes::Attributes;
use crate::fault::Breach;
use crate::numbered::Numbered;
use accessor_names::accessor_named;
use at_class::ClassTable;
use at_kinds::{Arguments, RuleCode};
use at_text::place::Place;
pub use completeness::fault_of;
use equations::{equation_twice, without_attribute};
use limits::over_limit;
use std::alloc::{AllocError, Global};
use twice::declared_twice;

/// The first fault of the declarations before any is looked at by itself: too many or too long, an
/// accessor's name, an attribute declared twice, an equation without attribute, an equation twice.
pub fn fault_together(
    alloc: Global,
    classes: &ClassTable,
    arguments: Arguments,
    attributes: &Attributes,
    declared: &[Numbered],
) -> Result<Option<Breach>, AllocError>
    requires { AreNumbered classes.now declared.now × AreAttributes declared.now attributes.now }
    ensures { IfOk result (λ fault. fault ≡ fault_together arguments classes.now (map numbered_view declared.now)) }
{
    if let Some(fault) = over_limit(declared) {
        return Ok(Some(fault));
    }
    if let Some(fault) = accessor_named(alloc, classes, declared)? {
        return Ok(Some(fault));
    }
    if let Some(fault) = declared_twice(alloc, classes, arguments, declared)? {
        return Ok(Some(fault));
    }
    if let Some(fault) = without_attribute(classes, attributes, declared) {
        return Ok(Some(fault));
    }
    equation_twice(alloc, declared)
}

fn fault_at(code: RuleCode, numbered: &Numbered, at: Place) -> Breach
    ensures { result ≡ fault_at code (numbered_view numbered.now) at }
{
    Breach {
        code,
        file: numbered.file,
        at,
    }
}
