//! Evaluations under way, and what they find.

ghost use Rattle.std.specs.Prelude.{◌≡◌, ◌++◌, [], map, IfOk, OnOk};
ghost use Rattle.at_store.specs.Located.{loc_view};
ghost use Rattle.at_store.specs.Shown.{contents};
ghost use Rattle.at_body.specs.Typed.{IsTypedStep, class_shown};
ghost use Rattle.at_demand.specs.Answerable.{CanBegin, IsBasis};
ghost use Rattle.at_evaluate.specs.Valued.{meaning, AreValued};
ghost use Rattle.at_demand.specs.Known.{known_in, IsRecalled};
ghost use Rattle.at_evaluate.specs.Meant.{AreRightValues};
ghost use Rattle.at_demand.specs.Advancing.{HasBegun, HasGoneOn};
ghost use Rattle.at_demand.specs.Covering.{Takes};
ghost use Rattle.at_demand.specs.Only.{TakesOne};

use crate::locations::Locations;
use at_body::{Inst, Step, Trial, Value};
use at_cache::Keeper;
use at_rules::Rules;
use at_store::Store;
use indexmap::IndexMap;
use std::alloc::{AllocError, Global};
use std::mem;

// The instances whose values an evaluation took: the kept ones, and the positions of the others among the finds.
pub struct Demanded {
    pub kept: Vec<Inst>,
    pub finds: Vec<usize>,
}

/// One call, where each exit that lets it go would else have a case for each field.
impl Drop for Demanded {
    fn drop(self) {
        let Demanded { kept: _, finds: _ } = self;
    }
}

// An evaluation under way, and the instances whose values it took.
pub struct Frame<'a> {
    pub trial: Trial<'a>,
    pub demanded: Demanded,
}

/// One call, as that of `Demanded` is.
impl Drop for Frame<'_> {
    fn drop(self) {
        let Frame {
            trial: _,
            demanded: _,
        } = self;
    }
}

// The value of an instance, the locations that its own evaluation read, and the instances whose values that took.
pub struct Find {
    pub value: Value,
    pub reads: Locations,
    pub demanded: Demanded,
}

/// One call, as that of `Demanded` is.
impl Drop for Find {
    fn drop(self) {
        let Find {
            value: _,
            reads: _,
            demanded: _,
        } = self;
    }
}

// The value of an instance, or the instance, where it isn't known.
#[derive(Drop)]
pub enum Recalled {
    Value(Value),
    Unknown(Inst),
}

impl<'a> Frame<'a> {
    // The evaluation of an instance, and what it came to by itself.
    pub fn start(
        alloc: Global,
        rules: &'a Rules,
        store: &'a Store,
        inst: &Inst,
    ) -> Result<(Frame<'a>, Step), AllocError>
        requires { CanBegin rules.now store.now inst.now }
        ensures { IfOk result (λ r. HasBegun rules.now store.now inst.now r.0 r.1) }
    {
        let mut trial = Trial::new(alloc);
        let step = trial.restart(alloc, rules, store, inst)?;
        let demanded = Demanded::new(alloc);
        let frame = Frame { trial, demanded };
        Ok((frame, step))
    }

    // Goes on with each value that is known, up to the end or to an instance that isn't.
    #[inline(always)]
    pub fn go_on<K: Keeper>(
        &mut self,
        alloc: Global,
        keeper: &K,
        found: &IndexMap<Inst, Find>,
        rules: &'a Rules,
        store: &'a Store,
        step: Step,
    ) -> Result<Step, AllocError>
        requires basis { IsBasis rules.now store.now }
        requires right { AreRightValues (contents store.now) (meaning rules.now) (known_in (K.contents keeper.now) found.now.entries) }
        requires typed { IsTypedStep rules.now (class_shown store.now) step self.old.trial }
        requires kept { AreValued (K.contents keeper.now) self.old.demanded.kept.items }
        ensures { IfOk result (HasGoneOn rules.now store.now (K.contents keeper.now) found.now.entries self.old step self.new) }
    {
        let mut step = step;
        loop {
            match step {
                Step::Need(needed) => match self.demanded.recall(keeper, found, needed)? {
                    Recalled::Value(value) => {
                        step = self.trial.resume(alloc, rules, store, value)?;
                    }
                    Recalled::Unknown(needed) => return Ok(Step::Need(needed)),
                },
                ended => return Ok(ended),
            }
        }
    }

    // What it found, at its end, with its own lists: it is used no more.
    pub fn take_find(&mut self, alloc: Global, value: Value) -> Find
        ensures value { result.value ≡ value }
        ensures demanded { result.demanded ≡ self.old.demanded }
        ensures reads { map loc_view result.reads.items ≡ self.old.trial.reads }
    {
        let reads = Locations::from_vec(self.trial.take_reads(alloc));
        let demanded = mem::replace(&mut self.demanded, Demanded::new(alloc));
        Find {
            value,
            reads,
            demanded,
        }
    }
}

impl Find {
    // Its value.
    pub fn into_value(self) -> Value
        ensures { result ≡ self.value }
    {
        let Find {
            value,
            reads: _,
            demanded: _,
        } = self;
        value
    }
}

impl Demanded {
    // None yet.
    pub fn new(alloc: Global) -> Demanded
        ensures kept { result.kept.items ≡ [] }
        ensures finds { result.finds.items ≡ [] }
    {
        Demanded {
            kept: Vec::new(alloc),
            finds: Vec::new(alloc),
        }
    }

    // The kept ones, and the positions of the others.
    pub fn into_parts(self) -> (Vec<Inst>, Vec<usize>)
        ensures kept { result.0 ≡ self.kept }
        ensures finds { result.1 ≡ self.finds }
    {
        let Demanded { kept, finds } = self;
        (kept, finds)
    }

    // Adds what another evaluation took.
    pub fn add(&mut self, alloc: Global, kept: &[Inst], finds: &[usize]) -> Result<(), AllocError>
        ensures kept { OnOk result (self.new.kept.items ≡ self.old.kept.items ++ kept.now) }
        ensures finds { OnOk result (self.new.finds.items ≡ self.old.finds.items ++ finds.now) }
    {
        for inst in kept {
            self.kept.push(inst.copy(alloc)?)?;
        }
        self.finds.extend_from_slice(finds)?;
        Ok(())
    }

    // Takes the value of an instance, where it is known.
    #[inline(always)]
    pub fn recall<K: Keeper>(
        &mut self,
        keeper: &K,
        found: &IndexMap<Inst, Find>,
        needed: Inst,
    ) -> Result<Recalled, AllocError>
        requires kept { AreValued (K.contents keeper.now) self.old.kept.items }
        ensures kept { OnOk result (AreValued (K.contents keeper.now) self.new.kept.items) }
        ensures takes { IfOk result (Takes found.now.entries self.old self.new needed) }
        ensures one { IfOk result (TakesOne found.now.entries self.old self.new needed) }
        ensures recalled { IfOk result (IsRecalled (known_in (K.contents keeper.now) found.now.entries) needed) }
    {
        if let Some(value) = keeper.get(&needed) {
            self.kept.push(needed)?;
            return Ok(Recalled::Value(value.copy()?));
        }
        // The map makes the hash of what is looked up in it, empty as it may be.
        if found.is_empty() {
            return Ok(Recalled::Unknown(needed));
        }
        match found.get_full(&needed) {
            Some((position, _inst, find)) => {
                self.finds.push(position)?;
                Ok(Recalled::Value(find.value.copy()?))
            }
            None => Ok(Recalled::Unknown(needed)),
        }
    }
}
