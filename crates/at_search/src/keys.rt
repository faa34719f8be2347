//! Maps by instances.

ghost use Rattle.std.specs.Prelude.{◌≡◌, MatchBool, OnOk};
ghost use Rattle.std.specs.Map.{keys_of};
ghost use Rattle.at_model.specs.Meaning.{Among};
ghost use Rattle.at_body.specs.Same.{same_instance};
ghost use Rattle.indexmap.specs.IndexMap.{insert_entry};

use at_body::Inst;
use indexmap::IndexMap;
use std::alloc::AllocError;

// How many keys are looked through one by one, at most.
const FEW: usize = 4;

/// Whether the instance is among the keys. Each of a few is compared with it, since that takes less than a hash does.
pub fn holds<V>(map: &IndexMap<Inst, V>, inst: &Inst) -> bool
    ensures { MatchBool result (Among inst.now (keys_of map.now.entries)) (Among inst.now (keys_of map.now.entries) → ⊥) }
{
    if FEW < map.len() {
        return map.contains_key(inst);
    }
    let keys = map.keys().as_slice();
    for key in keys {
        if *key == *inst {
            return true;
        }
    }
    false
}

/// Puts the value by the instance, or finds memory wanting.
pub fn put<V: Drop>(map: &mut IndexMap<Inst, V>, inst: Inst, value: V) -> Result<(), AllocError>
    ensures { OnOk result (map.new.entries ≡ insert_entry same_instance map.old.entries inst value) }
{
    map.insert(inst, value)?;
    Ok(())
}
