//! What is done at the end of an evaluation in one go, and with what is known: it is told, kept, kept again or remembered.

ghost use Rattle.std.specs.Prelude.{◌≡◌, ◌≢◌, IfNone, IfOk, IfSome, OnErr, OnOk, None, Some, false, true};
ghost use Rattle.std.specs.Option.{option_map};
ghost use Rattle.at_model.specs.Rules.{is_lazy, start_of};
ghost use Rattle.at_store.specs.Shown.{contents};
ghost use Rattle.at_body.specs.Values.{value_view};
ghost use Rattle.at_body.specs.Same.{same_instance};
ghost use Rattle.indexmap.specs.IndexMap.{insert_entry};
ghost use Rattle.at_cache.specs.Kept.{AreKept, KeepsAll, Puts};
ghost use Rattle.at_cache.specs.Traced.{PutsTrace};
ghost use Rattle.at_cache.specs.declared.keeper.Order.TheVariants as order_code;
ghost use Rattle.at_evaluate.specs.Valued.{kept_values, meaning};
ghost use Rattle.at_evaluate.specs.Inner.{AreKnown, AreLazy, HasRecalled, IsOneOf, known_by, remembered};
ghost use Rattle.at_evaluate.specs.InParts.{EndsRecalled, EndsTaken, HasEntered, IsEvaluatedAfresh, IsEvaluatedFor, IsHeld, IsHeldAfresh, LeavesFinds, held_by};
ghost use Rattle.at_evaluate.specs.Made.{Makes};
ghost use Rattle.at_evaluate.specs.Meant.{AreCircularWell};
ghost use Rattle.at_evaluate.specs.Led.{DemandsOn};
ghost use Rattle.at_evaluate.specs.Sparing.{Counts};

use super::{Direct, Level};
use crate::basis::Basis;
use crate::stop::Stop;
use at_body::{Inst, Value};
use at_cache::{Keeper, Order};
use at_rules::{AttrId, Rules};
use at_store::Loc;
use indexmap::IndexMap;
use std::alloc::AllocError;

/// An instance that isn't lazy is evaluated again at each demand where that looks at no more locations than that, and goes over no more elements.
/// The value of another one is remembered, and what it rests on stands once; but what takes that has no trace, and is evaluated anew after each
/// edit that touches any of it.
pub const FEW: usize = 64;

impl Direct {
    // What stands in the way of keeping the instance again: another one, to which demands lead from it, and of which no value is kept.
    pub(super) fn in_the_way<K: Keeper>(
        &self,
        keeper: &K,
        basis: &Basis<'_>,
        needed: &Inst,
    ) -> Result<Option<Inst>, AllocError>
        requires { IsHeld basis.now.rules.now (contents basis.now.store.now) (held_by K.contents K.memories keeper.now self.now) }
        ensures lazy { IfOk result (λ o. IfSome o (λ i. is_lazy basis.now.rules.now i.attribute ≡ true)) }
        ensures own { IfOk result (λ o. IfSome o (λ i. start_of basis.now.rules.now i.attribute ≡ None)) }
        ensures unkept { IfOk result (λ o. IfSome o (λ i. kept_values (K.contents keeper.now) i ≡ None)) }
        ensures other { IfOk result (λ o. IfSome o (λ i. i ≢ needed.now)) }
        ensures led { IfOk result (λ o. IfSome o (DemandsOn (contents basis.now.store.now) (meaning basis.now.rules.now) needed.now)) }
    {
        let Some(other) = keeper.blocker(needed) else {
            return Ok(None);
        };
        if !basis.rules.is_lazy(other.attribute()) {
            return Ok(None);
        }
        if is_circular(basis.rules, other.attribute()) {
            return Ok(None);
        }
        if *other == *needed {
            return Ok(None);
        }
        if keeper.stands(other) {
            return Ok(None);
        }
        Ok(Some(other.copy(self.alloc)?))
    }

    // The value of an instance that isn't kept, where it can be kept again with no evaluation; it is taken then. What is kept again is counted.
    pub(super) fn keep_again<K: Keeper>(
        &mut self,
        keeper: &mut K,
        basis: &Basis<'_>,
        level: &mut Level,
        needed: &Inst,
    ) -> Result<Option<Value>, AllocError>
        requires { IsHeldAfresh basis.now.rules.now (contents basis.now.store.now) (held_by K.contents K.memories keeper.old self.old) needed.now }
        ensures { EndsRecalled basis.now.rules.now basis.now.store.now needed.now (held_by K.contents K.memories keeper.old self.old)
            (held_by K.contents K.memories keeper.new self.new) level.old level.new result }
    {
        let count = keeper.settle(needed, 0);
        if count == 0 {
            return Ok(None);
        }
        self.work = self.work.saturating_add(count);
        self.recall(keeper, basis, level, needed)
    }

    // The known value of an instance, which is taken then. Where a lazy one has none, none is kept.
    #[inline(always)]
    pub(super) fn recall<K: Keeper>(
        &self,
        keeper: &K,
        basis: &Basis<'_>,
        level: &mut Level,
        needed: &Inst,
    ) -> Result<Option<Value>, AllocError>
        requires { AreKnown basis.now.rules.now (contents basis.now.store.now) (K.contents keeper.now) self.now.found.entries }
        ensures recalled { IfOk result (HasRecalled basis.now.rules.now (contents basis.now.store.now)
            (known_by (K.contents keeper.now) self.now.found.entries) level.old level.new needed.now) }
        ensures unkept { IfOk result (λ o. IfNone o (is_lazy basis.now.rules.now needed.now.attribute ≡ true
            → kept_values (K.contents keeper.now) needed.now ≡ None)) }
    {
        let Some(value) = self.value_of(keeper, basis.rules, needed)? else {
            return Ok(None);
        };
        level.uses.push(needed.copy(self.alloc)?)?;
        Ok(Some(value))
    }

    // The kept value of a lazy instance, or the one that is remembered of another one.
    #[inline(always)]
    fn value_of<K: Keeper>(
        &self,
        keeper: &K,
        rules: &Rules,
        needed: &Inst,
    ) -> Result<Option<Value>, AllocError>
        ensures one { IfOk result (IsOneOf (kept_values (K.contents keeper.now) needed.now) (remembered self.now.found.entries needed.now)) }
        ensures unkept { IfOk result (λ o. IfNone o (is_lazy rules.now needed.now.attribute ≡ true → kept_values (K.contents keeper.now) needed.now ≡ None)) }
    {
        if rules.is_lazy(needed.attribute()) {
            return copy_of(keeper.get(needed));
        }
        if !self.may_have(needed.attribute()) {
            return Ok(None);
        }
        copy_of(self.found.get(needed))
    }

    // Whether an instance of the attribute may be remembered.
    fn may_have(&self, attribute: AttrId) -> bool {
        match self.seen.get(attribute.index()) {
            Some(seen) => *seen,
            None => false,
        }
    }

    // Keeps the value of a lazy instance that has no entry, which is taken then.
    pub(super) fn keep<K: Keeper>(
        &mut self,
        keeper: &mut K,
        basis: &Basis<'_>,
        level: &mut Level,
        below: &Level,
        needed: Inst,
        value: &Value,
    ) -> Result<(), Stop>
        requires { IsEvaluatedAfresh basis.now.rules.now (contents basis.now.store.now) (held_by K.contents K.memories keeper.old self.old)
            needed (value_view value.now) below.now }
        ensures { EndsTaken basis.now.rules.now basis.now.store.now needed (value_view value.now)
            (held_by K.contents K.memories keeper.old self.old) (held_by K.contents K.memories keeper.new self.new) level.old level.new result }
    {
        // Never so: what was used for it is kept where its evaluation has ended, and so it was kept again. It is put by turns then.
        if keeper.has_trace(&needed) {
            return Err(Stop::GivesUp);
        }
        let order = order_of(basis.rules, below.uses.as_slice());
        self.put(keeper, &needed, value, below, order)?;
        level.uses.push(needed)?;
        Ok(())
    }

    // Puts a value to what is kept, for all that its evaluation looked at and took, and counts it: it is made.
    fn put<K: Keeper>(
        &mut self,
        keeper: &mut K,
        inst: &Inst,
        value: &Value,
        level: &Level,
        order: Order,
    ) -> Result<(), AllocError>
        requires absent { K.contents keeper.old inst.now ≡ None }
        requires present { AreKept (K.contents keeper.old) level.now.uses.items }
        requires anew { (K.memories keeper.old).traced inst.now ≡ None }
        ensures puts { OnOk result (Puts (K.contents keeper.old) inst.now (Some (value_view value.now)) level.now.reads
            level.now.uses.items (K.contents keeper.new)) }
        ensures err { OnErr result (KeepsAll (K.contents keeper.old) (K.contents keeper.new)) }
        ensures counts { Counts (K.contents keeper.old) (K.contents keeper.new) self.old.work self.new.work }
        ensures found { self.new.found.entries ≡ self.old.found.entries }
        ensures traces { PutsTrace inst.now (Some (value_view value.now)) level.now.reads level.now.uses.items order
            (K.memories keeper.old) (K.memories keeper.new) }
        ensures makes { Makes (K.contents keeper.old) (K.contents keeper.new) (K.memories keeper.old) (K.memories keeper.new) self.old.made self.new.made }
    {
        let reads = level.reads.as_slice();
        let uses = level.uses.as_slice();
        keeper.put(
            inst.copy(self.alloc)?,
            Some(value.copy()?),
            reads,
            uses,
            order,
        )?;
        self.work = self.work.saturating_add(1);
        self.made = self.made.saturating_add(1);
        Ok(())
    }

    // Remembers the value of an instance that isn't lazy, which is taken then.
    pub(super) fn remember<K: Keeper>(
        &mut self,
        keeper: &mut K,
        basis: &Basis<'_>,
        level: &mut Level,
        below: &Level,
        needed: Inst,
        value: &Value,
    ) -> Result<(), Stop>
        requires { IsEvaluatedFor basis.now.rules.now (contents basis.now.store.now) (held_by K.contents K.memories keeper.old self.old) false
            needed (value_view value.now) below.now }
        ensures { EndsTaken basis.now.rules.now basis.now.store.now needed (value_view value.now)
            (held_by K.contents K.memories keeper.old self.old) (held_by K.contents K.memories keeper.new self.new) level.old level.new result }
    {
        self.stand(keeper, basis, &needed, value, below)?;
        self.see(needed.attribute())?;
        insert(&mut self.found, needed.copy(self.alloc)?, value.copy()?)?;
        level.uses.push(needed)?;
        Ok(())
    }

    // Gives an instance that isn't lazy an entry without a value, for all that its evaluation looked at and took, where it has none.
    fn stand<K: Keeper>(
        &mut self,
        keeper: &mut K,
        basis: &Basis<'_>,
        needed: &Inst,
        value: &Value,
        below: &Level,
    ) -> Result<(), Stop>
        requires { IsEvaluatedFor basis.now.rules.now (contents basis.now.store.now) (held_by K.contents K.memories keeper.old self.old) false
            needed.now (value_view value.now) below.now }
        ensures { HasEntered basis.now.rules.now basis.now.store.now needed.now (held_by K.contents K.memories keeper.old self.old)
            (held_by K.contents K.memories keeper.new self.new) result }
    {
        if keeper.stands(needed) {
            return Ok(());
        }
        let reads = below.reads.as_slice();
        let uses = below.uses.as_slice();
        keeper.put(needed.copy(self.alloc)?, None, reads, uses, Order::Any)?;
        Ok(())
    }

    // An instance of the attribute is remembered.
    fn see(&mut self, attribute: AttrId) -> Result<(), AllocError>
        ensures { LeavesFinds self.old self.new }
    {
        let index = attribute.index();
        if self.seen.len() <= index {
            self.seen.resize(index.saturating_add(1), false)?;
        }
        if let Some(seen) = self.seen.get_mut(index) {
            *seen = true;
        }
        Ok(())
    }
}

// Whether the attribute isn't lazy: then it isn't circular.
pub(super) fn is_inner(rules: &Rules, attribute: AttrId) -> bool
    requires { AreCircularWell rules.now }
    ensures eager { result ≡ true → is_lazy rules.now attribute ≡ false }
    ensures own { result ≡ true → start_of rules.now attribute ≡ None }
    ensures lazy { result ≡ false → is_lazy rules.now attribute ≡ true }
{
    !rules.is_lazy(attribute)
}

// Whether the attribute is circular.
pub(super) fn is_circular(rules: &Rules, attribute: AttrId) -> bool
    ensures { result ≡ false → start_of rules.now attribute ≡ None }
{
    match rules.start_of(attribute) {
        Some(_) => true,
        None => false,
    }
}

// How the uses of an evaluation stand: as they were taken, where all are lazy. The value of another one is known for one question alone.
fn order_of(rules: &Rules, uses: &[Inst]) -> Order
    ensures { result ≡ order_code.AsTaken → AreLazy rules.now uses.now }
{
    for inst in uses {
        if !rules.is_lazy(inst.attribute()) {
            return Order::Any;
        }
    }
    Order::AsTaken
}

// Whether an evaluation was a small one that looked at the locations behind the first so many, in all: a fold goes over the elements of a
// component that it looked at.
pub fn is_small(basis: &Basis<'_>, reads: &[Loc], before: usize, few: usize) -> bool {
    if reads.len() < before {
        return true;
    }
    let own = reads.split_at(before).1;
    if few < own.len() {
        return false;
    }
    elements_in(basis, own) <= few
}

// How many elements there are in the components among the locations.
fn elements_in(basis: &Basis<'_>, reads: &[Loc]) -> usize {
    let mut elements = 0_usize;
    for loc in reads {
        if let Loc::Slot(node, part) = loc {
            elements = elements.saturating_add(basis.store.children(*node, *part).len());
        }
    }
    elements
}

// A value once more, where there is one.
fn copy_of(value: Option<&Value>) -> Result<Option<Value>, AllocError>
    ensures { IfOk result (λ o. option_map value_view o ≡ option_map (λ v. value_view v.now) value.entry) }
{
    match value {
        Some(value) => Ok(Some(value.copy()?)),
        None => Ok(None),
    }
}

// Puts the value by the instance, or finds memory wanting: then all is as it was.
fn insert(found: &mut IndexMap<Inst, Value>, inst: Inst, value: Value) -> Result<(), AllocError>
    ensures inserted { OnOk result (found.new.entries ≡ insert_entry same_instance found.old.entries inst value) }
    ensures err { OnErr result (found.new.entries ≡ found.old.entries) }
{
    found.insert(inst, value)?;
    Ok(())
}
