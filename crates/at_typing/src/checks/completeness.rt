//! Where the faults of attributes that lack an equation stand.

ghost use Rattle.std.specs.Prelude.{◌≡◌, map, option_map, slice_get};
ghost use Rattle.at_typing.specs.Completing.{fault_of};
ghost use Rattle.at_typing.specs.Declaring.{attributes};
ghost use Rattle.at_typing.specs.Numbering.{numbered_view};

use super::fault_at;
use crate::fault::Breach;
use crate::located::is_attribute;
use crate::numbered::Numbered;
use at_kinds::RuleCode;
use at_rules::AttrId;

/// The fault of that code at the declaration of the attribute, if there is one.
pub fn fault_of(code: RuleCode, declared: &[Numbered], attribute: Option<AttrId>) -> Option<Breach>
    ensures { result ≡ fault_of code (map numbered_view declared.now) attribute }
{
    let numbered = declaration_of(declared, attribute?)?;
    Some(fault_at(code, numbered, numbered.decl.at))
}

/// The declaration of the attribute.
fn declaration_of<'d, 'a>(
    declared: &'d [Numbered<'a>],
    attribute: AttrId,
) -> Option<&'d Numbered<'a>>
    ensures { option_map (λ d. numbered_view d.now) result ≡ slice_get (attributes (map numbered_view declared.now)) attribute }
{
    let mut position = 0;
    for numbered in declared {
        if !is_attribute(&numbered.decl.form) {
            continue;
        }
        if position == attribute.index() {
            return Some(numbered);
        }
        position += 1;
    }
    None
}
