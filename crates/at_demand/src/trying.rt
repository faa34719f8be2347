//! What stands between two tries, and what a try comes to.

ghost use Rattle.std.specs.Prelude.{◌≡◌, IfOk};
ghost use Rattle.at_demand.specs.Answerable.{CanBegin};
ghost use Rattle.at_demand.specs.Forming.{HasBegunTrying, IsTriedBy, IsFormedBy, waits_for};

use crate::evaluation::{Find, Frame};
use crate::formation::Formation;
use crate::trials::Attempt;
use at_body::{FaultKind, Inst, Progress, Step, Value};
use at_rules::Rules;
use at_search::Formed;
use at_store::Store;
use std::alloc::{AllocError, Global};

// An evaluation that waits: of an attribute that isn't circular, for its value, or of a circular one, for its formula.
#[derive(Drop)]
pub enum Trying<'a> {
    Value(Box<Frame<'a>>),
    Formula(Box<Formation<'a>>),
}

// The same, with what it has come to.
#[derive(Drop)]
pub enum Going<'a> {
    Value(Box<Frame<'a>>, Step),
    Formula(Box<Formation<'a>>, Progress),
}

// What one try of an instance comes to, over what is known: its value, which is kept or found, its formula, its fault; or another
// instance, whose value isn't known, for which it waits.
#[derive(Drop)]
pub enum Tried<'a> {
    Kept(Value),
    Found(Find),
    Forms(Formed),
    Fails(FaultKind),
    Waits(Trying<'a>, Inst),
}

impl<'a> Trying<'a> {
    // It has come to the demand of that instance, and may be told its value.
    pub fn going(self, needed: Inst) -> Going<'a>
        ensures { result ≡ waits_for self.entry needed }
    {
        match self {
            Trying::Value(frame) => Going::Value(frame, Step::Need(needed)),
            Trying::Formula(formation) => Going::Formula(formation, Progress::Need(needed)),
        }
    }
}

impl<'a> Going<'a> {
    // The evaluation of an instance, and what it came to by itself.
    pub fn start(
        alloc: Global,
        rules: &'a Rules,
        store: &'a Store,
        inst: &Inst,
    ) -> Result<Going<'a>, AllocError>
        requires { CanBegin rules.now store.now inst.now }
        ensures { IfOk result (HasBegunTrying rules.now store.now inst.now) }
    {
        if rules.start_of(inst.attribute()).is_some() {
            let (formation, progress) = Formation::start(alloc, rules, store, inst)?;
            return Ok(Going::Formula(Box::new(alloc, formation)?, progress));
        }
        let (frame, step) = Frame::start(alloc, rules, store, inst)?;
        Ok(Going::Value(Box::new(alloc, frame)?, step))
    }
}

// What the try for a value comes to; where it needs another instance, its trial waits.
#[inline(always)]
pub fn came_to_value<'a>(attempt: Attempt, frame: Box<Frame<'a>>) -> Tried<'a>
    ensures { IsTriedBy attempt frame.entry result }
{
    match attempt {
        Attempt::Kept(value) => Tried::Kept(value),
        Attempt::Found(find) => Tried::Found(find),
        Attempt::Fails(kind) => Tried::Fails(kind),
        Attempt::Needs(needed) => Tried::Waits(Trying::Value(frame), needed),
    }
}

// What the try for a formula comes to.
pub fn came_to_formula<'a>(
    alloc: Global,
    progress: Progress,
    formation: Box<Formation<'a>>,
) -> Tried<'a>
    ensures { IsFormedBy progress formation.entry result }
{
    let mut formation = formation;
    match progress {
        Progress::Formula(formula) => Tried::Forms(formation.take_formed(alloc, formula)),
        Progress::Fault(kind) => Tried::Fails(kind),
        Progress::Need(needed) => Tried::Waits(Trying::Formula(formation), needed),
    }
}
