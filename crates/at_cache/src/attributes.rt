//! Of which attributes an entry ever came.

ghost use Rattle.std.specs.Prelude.{◌≡◌, ◌<◌, ℕ, OnOk, length, false, true};
ghost use Rattle.at_cache.specs.Attributes.{has_come};

use std::alloc::AllocError;

/// Whether an entry of the attribute at that position ever came.
pub fn has_come(attributes: &[bool], attribute: usize) -> bool
    ensures { result ≡ has_come attributes.now attribute }
{
    match attributes.get(attribute) {
        Some(come) => *come,
        None => false,
    }
}

// A place for the attribute at that position, where there is none yet. Of those that get one no entry came.
fn make_place(attributes: &mut Vec<bool>, attribute: usize) -> Result<(), AllocError>
    ensures same { (a : ℕ) → has_come attributes.new.items a ≡ has_come attributes.old.items a }
    ensures there { OnOk result (attribute < length attributes.new.items) }
{
    while attributes.len() <= attribute {
        attributes.push(false)?;
    }
    Ok(())
}

/// An entry of the attribute at that position comes.
pub fn note_attribute(attributes: &mut Vec<bool>, attribute: usize) -> Result<(), AllocError>
    ensures stay { (a : ℕ) → has_come attributes.new.items a ≡ false → has_come attributes.old.items a ≡ false }
    ensures noted { OnOk result (has_come attributes.new.items attribute ≡ true) }
{
    make_place(attributes, attribute)?;
    attributes[attribute] = true;
    Ok(())
}
