//! One try of an instance's equation, over what is known.

ghost use Rattle.std.specs.Prelude.{◌≡◌, ◌++◌, nat_eq, ℕ, IfOk, OnOk, OnErr, option_map, option_copied};
ghost use Rattle.at_model.specs.Run.{Known, tried};
ghost use Rattle.at_model.specs.Run as model;
ghost use Rattle.at_model.specs.Rules.{evaluation};
ghost use Rattle.at_store.specs.Shown.{contents};
ghost use Rattle.at_body.specs.Asked.{MayBeAsked};
ghost use Rattle.at_body.specs.Values.{value_view};
ghost use Rattle.at_body.specs.Typed.{AreOfTheirKinds, class_shown};
ghost use Rattle.at_body.specs.Trying.{tried_of, tried_view};

use super::inst::Inst;
use super::reads::Reads;
use super::trial::{Step, Trial};
use super::value::{FaultKind, Value};
use at_rules::Rules;
use at_store::Store;
use std::alloc::{AllocError, Global};

/// The values of instances that are known.
pub trait Known {
    ghost value_of: { Self → Known ℕ };

    /// The value of an instance, where it is known.
    fn known(&self, inst: &Inst) -> Option<&Value>
        ensures { option_map value_view (option_copied result) ≡ value_of self.now inst.now };
}

/// What one try finds.
#[derive(Debug, Drop)]
pub enum Tried {
    /// The value of the instance.
    Value(Value),
    /// Its fault.
    Fault(FaultKind),
    /// The first instance that its evaluation comes to and that is not known.
    Need(Inst),
}

/// The value or fault of the equation of a well-typed instance, or the first instance that it needs and that is not known. The
/// rules are well formed, the tree is sound, and what is known is of its kinds. The reads gain the locations that are looked at
/// up to there. An error where memory is wanting; then the reads are as they were.
pub fn try_body<K: Known>(
    alloc: Global,
    rules: &Rules,
    store: &Store,
    inst: &Inst,
    known: &K,
    reads: &mut Reads,
) -> Result<Tried, AllocError>
    requires asked { MayBeAsked rules.now store.now inst.now }
    requires known { AreOfTheirKinds rules.now (class_shown store.now) (K.value_of known.now) }
    ensures found { IfOk result (λ t. tried (contents store.now) (K.value_of known.now) (evaluation rules.now nat_eq inst.now) ≡ tried_view t) }
    ensures gained { OnOk result (reads.new ≡ reads.old ++ model.reads (contents store.now) (K.value_of known.now) (evaluation rules.now nat_eq inst.now)) }
    ensures kept { OnErr result (reads.new ≡ reads.old) }
{
    let (trial, step) = try_steps(alloc, rules, store, inst, known)?;
    reads.extend(trial.reads())?;
    Ok(match step {
        Step::Value(value) => Tried::Value(value),
        Step::Fault(kind) => Tried::Fault(kind),
        Step::Need(inst) => Tried::Need(inst),
    })
}

/// A trial of the instance up to its end, or to the first demand that is not known.
fn try_steps<'a, K: Known>(
    alloc: Global,
    rules: &'a Rules,
    store: &'a Store,
    inst: &Inst,
    known: &K,
) -> Result<(Trial<'a>, Step), AllocError>
    requires asked { MayBeAsked rules.now store.now inst.now }
    requires known { AreOfTheirKinds rules.now (class_shown store.now) (K.value_of known.now) }
    ensures found { IfOk result (λ r. tried (contents store.now) (K.value_of known.now) (evaluation rules.now nat_eq inst.now) ≡ tried_of r.1) }
    ensures looked { IfOk result (λ r. model.reads (contents store.now) (K.value_of known.now) (evaluation rules.now nat_eq inst.now) ≡ r.0.reads) }
{
    let (mut trial, mut step) = Trial::start(alloc, rules, store, inst)?;
    loop {
        match step {
            Step::Need(wanted) => match known.known(&wanted) {
                Some(value) => {
                    step = trial.resume(alloc, rules, store, value.copy()?)?;
                }
                None => return Ok((trial, Step::Need(wanted))),
            },
            ended => return Ok((trial, ended)),
        }
    }
}
