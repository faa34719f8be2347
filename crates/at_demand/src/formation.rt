//! Evaluations of circular attributes under way, and the formulas that they come to.

ghost use Rattle.std.specs.Prelude.{◌≡◌, IfOk, map};
ghost use Rattle.at_store.specs.Located.{loc_view};
ghost use Rattle.at_store.specs.Shown.{contents};
ghost use Rattle.at_body.specs.Typed.{class_shown};
ghost use Rattle.at_body.specs.TypedForms.{IsTypedProgress};
ghost use Rattle.at_demand.specs.Answerable.{CanBeFormed, IsBasis};
ghost use Rattle.at_demand.specs.Forming.{HasBegunForming, HasGoneOnForming};
ghost use Rattle.at_evaluate.specs.Valued.{AreValued, meaning};
ghost use Rattle.at_demand.specs.Known.{known_in};
ghost use Rattle.at_evaluate.specs.Meant.{AreRightValues};

use crate::evaluation::{Demanded, Find, Recalled};
use at_body::{Forming, Formula, Inst, Progress};
use at_cache::Keeper;
use at_rules::Rules;
use at_search::Formed;
use at_store::Store;
use indexmap::IndexMap;
use std::alloc::{AllocError, Global};
use std::mem;

// The evaluation of a circular attribute under way, and the instances whose values it took.
pub struct Formation<'a> {
    pub forming: Forming<'a>,
    pub demanded: Demanded,
}

/// One call, where each exit that lets it go would else have a case for each field.
impl Drop for Formation<'_> {
    fn drop(self) {
        let Formation {
            forming: _,
            demanded: _,
        } = self;
    }
}

impl<'a> Formation<'a> {
    // The evaluation of an instance of a circular attribute, and what it came to by itself.
    pub fn start(
        alloc: Global,
        rules: &'a Rules,
        store: &'a Store,
        inst: &Inst,
    ) -> Result<(Formation<'a>, Progress), AllocError>
        requires { CanBeFormed rules.now store.now inst.now }
        ensures { IfOk result (λ r. HasBegunForming rules.now store.now inst.now r.0 r.1) }
    {
        let (forming, progress) = Forming::start(alloc, rules, store, inst)?;
        let demanded = Demanded::new(alloc);
        let formation = Formation { forming, demanded };
        Ok((formation, progress))
    }

    // Goes on with each value that is known, up to the end or to an instance that isn't.
    #[inline(never)]
    pub fn go_on<K: Keeper>(
        &mut self,
        alloc: Global,
        keeper: &K,
        found: &IndexMap<Inst, Find>,
        rules: &'a Rules,
        store: &'a Store,
        progress: Progress,
    ) -> Result<Progress, AllocError>
        requires basis { IsBasis rules.now store.now }
        requires right { AreRightValues (contents store.now) (meaning rules.now) (known_in (K.contents keeper.now) found.now.entries) }
        requires typed { IsTypedProgress rules.now (class_shown store.now) (contents store.now) progress self.old.forming }
        requires kept { AreValued (K.contents keeper.now) self.old.demanded.kept.items }
        ensures { IfOk result (HasGoneOnForming rules.now store.now (K.contents keeper.now) found.now.entries self.old progress self.new) }
    {
        let mut progress = progress;
        loop {
            match progress {
                Progress::Need(needed) => match self.demanded.recall(keeper, found, needed)? {
                    Recalled::Value(value) => {
                        progress = self.forming.resume(alloc, rules, store, value)?;
                    }
                    Recalled::Unknown(needed) => return Ok(Progress::Need(needed)),
                },
                ended => return Ok(ended),
            }
        }
    }

    // The formula that it came to, at its end, with its own lists: it is used no more.
    pub fn take_formed(&mut self, alloc: Global, formula: Formula) -> Formed
        ensures formula { result.formula ≡ formula }
        ensures kept { result.kept ≡ self.old.demanded.kept }
        ensures finds { result.finds ≡ self.old.demanded.finds }
        ensures reads { map loc_view result.reads.items ≡ self.old.forming.trial.reads }
    {
        let reads = self.forming.take_reads(alloc);
        let demanded = mem::replace(&mut self.demanded, Demanded::new(alloc));
        let (kept, finds) = demanded.into_parts();
        Formed {
            formula,
            reads,
            kept,
            finds,
        }
    }
}
