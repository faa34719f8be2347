//! What formulas lead to, over what has ended.

ghost use Rattle.std.specs.Prelude.{◌≡◌, ◌⊎◌, ◌∷◌, [], ◌+◌, ◌≤◌, ℕ, IfNone, IfOk, IfSome, IsSome, OnOk};
ghost use Rattle.std.specs.Map.{keys_of};
ghost use Rattle.at_model.specs.Run.{Contents, Instance};
ghost use Rattle.at_model.specs.of_fixpoints.Fixpoints.{AreFormed, EndsSo, Meets};
ghost use Rattle.at_model.specs.of_fixpoints.Formulas.{Forms};
ghost use Rattle.at_body.specs.Values.{fault_view};
ghost use Rattle.at_search.specs.LedTo.{HasGathered, HasLookedOn, IsClosure, IsFaultless, IsGathering, LeadsOut};
ghost use Rattle.at_search.specs.Recorded.{AreFacts, AreWhole, HasLooked, IsSettled, MetFrom, seen_by, todo_of, work_left};

use crate::ended::{Ended, Fault};
use crate::search::Search;
use at_body::{Inst, Known};
use indexmap::IndexMap;
use std::alloc::{AllocError, Global};

/// The instances to which formulas lead from this one, with it, not beyond what is known or marked whole; none where they lead to one
/// whose equation hasn't ended. An error where memory is wanting.
pub fn closure<K: Known>(
    alloc: Global,
    ended: &IndexMap<Inst, Ended>,
    known: &K,
    inst: &Inst,
) -> Result<Option<IndexMap<Inst, ()>>, AllocError>
    ensures some { IfOk result (λ o. IfSome o (λ set. IsClosure (K.value_of known.now) ended.now.entries inst.now (keys_of set.entries))) }
    ensures none { IfOk result (λ o. IfNone o (LeadsOut (IsSettled (K.value_of known.now) ended.now.entries) ended.now.entries inst.now)) }
{
    let mut search = Search::from(alloc, inst)?;
    while let Some(next) = search.next() {
        let has_ended = gather(alloc, &mut search, ended, known, next)?;
        if !has_ended {
            return Ok(None);
        }
    }
    Ok(Some(search.take_seen(alloc)))
}

// Looks at an instance: it is passed over where it was seen, or is known or marked whole, and seen where its equation has ended, and
// whether one of these is so.
#[tactic(auto, using(crate::proofs::Gathering::gathers_out))]
fn gather<K: Known>(
    alloc: Global,
    search: &mut Search,
    ended: &IndexMap<Inst, Ended>,
    known: &K,
    next: Inst,
) -> Result<bool, AllocError>
    ensures gathered { (i : Instance ℕ) → IsGathering (K.value_of known.now) ended.now.entries i (seen_by search.old) (next ∷ todo_of search.old)
        → IfOk result (HasGathered (K.value_of known.now) ended.now.entries i search.new) }
    ensures less { OnOk result (work_left ended.now.entries (seen_by search.new) (todo_of search.new)
        ≤ work_left ended.now.entries (seen_by search.old) (todo_of search.old)) }
{
    if search.has_seen(&next) {
        return Ok(true);
    }
    if let Some(_) = known.known(&next) {
        return Ok(true);
    }
    let Some(found) = ended.get(&next) else {
        return Ok(false);
    };
    if found.is_whole {
        return Ok(true);
    }
    search.see(alloc, next, &found.ending)?;
    Ok(true)
}

/// The fault that a search from this instance meets first, depth first. None where there is none to find: formulas lead from it to
/// formulas alone; or where it comes to an equation that hasn't ended. An error where memory is wanting.
pub fn first_fault<K: Known>(
    alloc: Global,
    ended: &IndexMap<Inst, Ended>,
    known: &K,
    inst: &Inst,
) -> Result<Option<Fault>, AllocError>
    ensures some { (look : Contents ℕ) (forms : Forms ℕ) → AreFacts look forms ended.now.entries → AreWhole look forms (K.value_of known.now)
        → IfOk result (λ o. IfSome o (λ f. Meets (EndsSo look forms) [] (inst.now ∷ []) (fault_view f.kind) f.at)) }
    ensures none { (look : Contents ℕ) (forms : Forms ℕ) → AreFacts look forms ended.now.entries → AreWhole look forms (K.value_of known.now)
        → IfOk result (λ o. IfNone o (LeadsOut (λ k. IsSome (K.value_of known.now k)) ended.now.entries inst.now ⊎ AreFormed (EndsSo look forms) inst.now)) }
{
    let mut search = Search::from(alloc, inst)?;
    while let Some(next) = search.next() {
        let has_ended = look_at(alloc, &mut search, ended, known, next)?;
        if !has_ended {
            return Ok(None);
        }
        if search.has_fault() {
            return Ok(search.take_fault());
        }
    }
    Ok(None)
}

// Looks at an instance: it is passed over where it was seen or is known, and seen where its equation has ended, and whether one of
// these is so.
#[tactic(auto, using(crate::proofs::Faultless::looks_out))]
fn look_at<K: Known>(
    alloc: Global,
    search: &mut Search,
    ended: &IndexMap<Inst, Ended>,
    known: &K,
    next: Inst,
) -> Result<bool, AllocError>
    ensures met { (look : Contents ℕ) (forms : Forms ℕ) → AreFacts look forms ended.now.entries → AreWhole look forms (K.value_of known.now)
        → (i : Instance ℕ) → MetFrom look forms i (seen_by search.old) (next ∷ todo_of search.old) search.old.fault
        → IfOk result (HasLooked look forms i search.new) }
    ensures on { (i : Instance ℕ) → IsFaultless (K.value_of known.now) ended.now.entries i (seen_by search.old) (next ∷ todo_of search.old)
        → IfOk result (HasLookedOn (K.value_of known.now) ended.now.entries i search.new) }
    ensures less { OnOk result (work_left ended.now.entries (seen_by search.new) (todo_of search.new)
        ≤ work_left ended.now.entries (seen_by search.old) (todo_of search.old)) }
{
    if search.has_seen(&next) {
        return Ok(true);
    }
    if let Some(_) = known.known(&next) {
        return Ok(true);
    }
    let Some(found) = ended.get(&next) else {
        return Ok(false);
    };
    search.see(alloc, next, &found.ending)?;
    Ok(true)
}
