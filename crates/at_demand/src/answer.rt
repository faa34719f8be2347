//! Answers to questions.

ghost use Rattle.std.specs.Prelude.{◌≡◌};
ghost use Rattle.at_model.specs.Meaning.{Faults, Outcomes};
ghost use Rattle.at_body.specs.Values.{fault_view};
ghost use Rattle.at_demand.specs.Known.{answer_view};

use at_body::{FaultKind, Inst, Value};
use at_search::Fault;

/// The answer to a question: the value of the instance, a fault with the instance whose own equation has it, or an instance
/// to which the demands lead back.
#[derive(Drop)]
pub enum Answer {
    Value(Value),
    Fault { kind: FaultKind, at: Inst },
    Circular { at: Inst },
}

impl Answer {
    // The answer that a fault is to a question.
    pub(crate) fn of_fault(fault: Fault) -> Answer
        ensures { answer_view result ≡ Outcomes (Faults (fault_view fault.kind) fault.at) }
    {
        let (kind, at) = fault.into_parts();
        Answer::Fault { kind, at }
    }
}
