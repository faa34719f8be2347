//! What is put into maps.

ghost use Rattle.std.specs.Prelude.{◌≡◌, Some, None, if◌then◌else◌, OnOk};
ghost use Rattle.std.specs.Option.{option_or};
ghost use Rattle.indexmap.specs.IndexMap.{get, insert_entry, Updates};

use indexmap::IndexMap;
use std::alloc::AllocError;
use std::hash::Hash;

/// Notes the value, unless the key has one already; or want of memory.
pub fn note_first<K: Eq + Hash + Drop, V: Drop>(
    map: &mut IndexMap<K, V>,
    key: K,
    value: V,
) -> Result<(), AllocError>
    ensures { OnOk result ((k : K) → get K.eq map.new k ≡ option_or (get K.eq map.old k) (if K.eq k key then Some value else None)) }
{
    if map.contains_key(&key) {
        return Ok(());
    }
    put(map, key, value)
}

/// Puts the value by the key, in place of the one that is there, if any; or want of memory.
pub fn put<K: Eq + Hash + Drop, V: Drop>(
    map: &mut IndexMap<K, V>,
    key: K,
    value: V,
) -> Result<(), AllocError>
    ensures entries { OnOk result (map.new.entries ≡ insert_entry K.eq map.old.entries key value) }
    ensures updates { OnOk result (Updates K.eq map.old map.new key (Some value)) }
{
    map.insert(key, value)?;
    Ok(())
}
