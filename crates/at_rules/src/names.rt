//! The numbers of names: their positions among the names that are known.

ghost use Rattle.std.specs.Prelude.{◌≡◌, Some, is_some, bytes_eq, string_bytes, IfOk};
ghost use Rattle.std.specs.List.{list_any, IsDistinct};
ghost use Rattle.std.specs.String.{string_eq};
ghost use Rattle.at_rules.specs.Names.{number_in, Keeps};

use indexmap::IndexSet;
use std::alloc::{AllocError, Global};

/// The number of the name, where it is one.
pub fn number_of(names: &IndexSet<String>, name: &str) -> Option<usize>
    ensures number { result ≡ number_in names.now.keys name.now }
    ensures found { is_some result ≡ list_any (λ k. bytes_eq name.now (string_bytes k)) names.now.keys }
    ensures distinct { IsDistinct string_eq names.now.keys }
{
    if names.len() == 0 {
        return None;
    }
    names.get_index_of(name)
}

/// The number of the name, which it gets where it has none; or want of memory. What has a number keeps it.
pub fn number_for(
    alloc: Global,
    names: &mut IndexSet<String>,
    name: &str,
) -> Result<usize, AllocError>
    ensures number { IfOk result (λ n. number_in names.new.keys name.now ≡ Some n) }
    ensures keeps { Keeps names.old.keys names.new.keys }
{
    if let Some(number) = names.get_index_of(name) {
        return Ok(number);
    }
    let (number, _) = names.insert_full(String::from_str(alloc, name)?)?;
    Ok(number)
}
