//! One try of the equation of a circular attribute, over what is known.

ghost use Rattle.std.specs.Prelude.{◌≡◌, ◌++◌, nat_eq, IfOk, IsSome, OnOk, OnErr};
ghost use Rattle.at_model.specs.Rules.{start_of};
ghost use Rattle.at_model.specs.Run.{tried};
ghost use Rattle.at_model.specs.Run as model;
ghost use Rattle.at_model.specs.of_fixpoints.Evaluations.{evaluation};
ghost use Rattle.at_store.specs.Shown.{contents};
ghost use Rattle.at_body.specs.Asked.{MayBeAsked};
ghost use Rattle.at_body.specs.Trying.{tried_to};
ghost use Rattle.at_body.specs.Typed.{AreOfTheirKinds, class_shown};

use super::forming::{Forming, Progress};
use super::inst::Inst;
use super::reads::Reads;
use super::trying::Known;
use at_rules::Rules;
use at_store::Store;
use std::alloc::{AllocError, Global};

/// The formula or fault of the equation of a well-typed instance of a circular attribute, or the first instance of which it needs the
/// value and that is not known. The rules are well formed, the tree is sound, and what is known is of its kinds. The reads gain the
/// locations that are looked at up to there. An error where memory is wanting; then the reads are as they were.
pub fn try_formula<K: Known>(
    alloc: Global,
    rules: &Rules,
    store: &Store,
    inst: &Inst,
    known: &K,
    reads: &mut Reads,
) -> Result<Progress, AllocError>
    requires asked { MayBeAsked rules.now store.now inst.now }
    requires circular { IsSome (start_of rules.now inst.now.attribute) }
    requires known { AreOfTheirKinds rules.now (class_shown store.now) (K.value_of known.now) }
    ensures found { IfOk result (λ p. tried (contents store.now) (K.value_of known.now) ((evaluation rules.now nat_eq).formula inst.now) ≡ tried_to p) }
    ensures gained { OnOk result (reads.new
        ≡ reads.old ++ model.reads (contents store.now) (K.value_of known.now) ((evaluation rules.now nat_eq).formula inst.now)) }
    ensures kept { OnErr result (reads.new ≡ reads.old) }
{
    let (forming, progress) = try_forming(alloc, rules, store, inst, known)?;
    reads.extend(forming.reads())?;
    Ok(progress)
}

/// The evaluation of the instance up to its formula or fault, or to the first demand that is not known.
fn try_forming<'a, K: Known>(
    alloc: Global,
    rules: &'a Rules,
    store: &'a Store,
    inst: &Inst,
    known: &K,
) -> Result<(Forming<'a>, Progress), AllocError>
    requires asked { MayBeAsked rules.now store.now inst.now }
    requires circular { IsSome (start_of rules.now inst.now.attribute) }
    requires known { AreOfTheirKinds rules.now (class_shown store.now) (K.value_of known.now) }
    ensures found { IfOk result (λ r. tried (contents store.now) (K.value_of known.now) ((evaluation rules.now nat_eq).formula inst.now) ≡ tried_to r.1) }
    ensures looked { IfOk result (λ r. model.reads (contents store.now) (K.value_of known.now) ((evaluation rules.now nat_eq).formula inst.now)
        ≡ r.0.trial.reads) }
{
    let (mut forming, mut progress) = Forming::start(alloc, rules, store, inst)?;
    loop {
        match progress {
            Progress::Need(wanted) => match known.known(&wanted) {
                Some(value) => {
                    progress = forming.resume(alloc, rules, store, value.copy()?)?;
                }
                None => return Ok((forming, Progress::Need(wanted))),
            },
            ended => return Ok((forming, ended)),
        }
    }
}
