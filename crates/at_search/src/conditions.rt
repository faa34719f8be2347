//! Conditions for formulas, piece by piece.

ghost use Rattle.std.specs.Prelude.{◌≡◌, ◌+◌, ◌++◌, ◌∷◌, [], ℕ, List, IfOk, OnOk};
ghost use Rattle.std.specs.Map.{keys_of};
ghost use Rattle.at_model.specs.Bodies.{truth_of as truth_meant};
ghost use Rattle.at_model.specs.Run.{Instance, Known as KnownValues};
ghost use Rattle.at_body.specs.Values.{value_view};
ghost use Rattle.at_body.specs.declared.formula.Piece.{Piece as PieceCode};
ghost use Rattle.at_body.specs.declared.formula.Piece.TheVariants.{Asks};
ghost use Rattle.at_search.specs.Systems.{HasBegun, HasOperand, HasPushed, IsUnderWay, StaysUnder, operator, told, two};

use at_body::{Inst, Known, Piece, Value};
use at_solve::Condition;
use indexmap::IndexMap;
use std::alloc::{AllocError, Global};
use std::mem;

// The conditions of pieces of formulas, that each leaves the value from which its instance starts; they come behind so many others.
// Of the formula under way the operands, by their places here, the positions of the instances that it asks for, and whether it asks
// for one that has none.
pub struct Conditions {
    pub start: bool,
    pub count: usize,
    pub parts: Vec<Condition>,
    pub operands: Vec<usize>,
    pub targets: Vec<usize>,
    pub is_open: bool,
}

/// One call, where each exit that lets it go would else have a case for each field.
impl Drop for Conditions {
    fn drop(self) {
        let Conditions {
            start: _,
            count: _,
            parts: _,
            operands: _,
            targets: _,
            is_open: _,
        } = self;
    }
}

impl Conditions {
    // None yet.
    pub fn new(alloc: Global, start: bool, count: usize) -> Conditions
        ensures start { result.start ≡ start }
        ensures count { result.count ≡ count }
        ensures parts { result.parts.items ≡ [] }
    {
        Conditions {
            start,
            count,
            parts: Vec::new(alloc),
            operands: Vec::new(alloc),
            targets: Vec::new(alloc),
            is_open: false,
        }
    }

    // The next formula begins.
    pub fn begin(&mut self, alloc: Global)
        ensures { HasBegun self.old self.new }
    {
        self.operands.clear();
        self.targets = Vec::new(alloc);
        self.is_open = false;
    }

    // The positions for which the formula asks, taken out.
    pub fn take_targets(&mut self, alloc: Global) -> Vec<usize>
        ensures targets { result.items ≡ self.old.targets.items }
        ensures parts { self.new.parts ≡ self.old.parts }
        ensures start { self.new.start ≡ self.old.start }
        ensures count { self.new.count ≡ self.old.count }
    {
        mem::replace(&mut self.targets, Vec::new(alloc))
    }

    // One piece more; the instances that have positions stand in the map. An error where memory is wanting.
    pub fn add<K: Known>(
        &mut self,
        known: &K,
        seen: &IndexMap<Inst, ()>,
        piece: &Piece,
    ) -> Result<(), AllocError>
        ensures stays { StaysUnder self.old self.new }
        ensures added { (ps : List PieceCode) → IsUnderWay (K.value_of known.now) (keys_of seen.now.entries) self.old ps
            → OnOk result (IsUnderWay (K.value_of known.now) (keys_of seen.now.entries) self.new (ps ++ piece.now ∷ [])) }
    {
        match piece {
            Piece::Known(value) => self.push(tells(self.start, *value)),
            Piece::Asks(inst) => self.add_atom(known, seen, inst),
            Piece::Both => self.push_two(true),
            Piece::Either => self.push_two(false),
        }
    }

    // That an instance of the formula leaves the start value.
    fn add_atom<K: Known>(
        &mut self,
        known: &K,
        seen: &IndexMap<Inst, ()>,
        inst: &Inst,
    ) -> Result<(), AllocError>
        ensures stays { StaysUnder self.old self.new }
        ensures added { (ps : List PieceCode) → IsUnderWay (K.value_of known.now) (keys_of seen.now.entries) self.old ps
            → OnOk result (IsUnderWay (K.value_of known.now) (keys_of seen.now.entries) self.new (ps ++ Asks inst.now ∷ [])) }
    {
        if let Some(value) = known.known(inst) {
            return self.push(tells(self.start, truth_of(value)));
        }
        match seen.get_full(inst) {
            Some((position, _inst, _unit)) => {
                self.targets.push(position)?;
                self.push(Condition::When(position))
            }
            None => {
                self.is_open = true;
                self.push(Condition::Never)
            }
        }
    }

    // That the two newest operands do, or either of them.
    fn push_two(&mut self, conjunction: bool) -> Result<(), AllocError>
        ensures stays { StaysUnder self.old self.new }
        ensures added { (known : KnownValues ℕ) (insts : List (Instance ℕ)) (ps : List PieceCode) → IsUnderWay known insts self.old ps
            → OnOk result (IsUnderWay known insts self.new (ps ++ operator conjunction ∷ [])) }
    {
        let right = self.operand()?;
        let left = self.operand()?;
        let first = sum(self.count, left)?;
        let second = sum(self.count, right)?;
        self.push(pair(self.start, conjunction, first, second))
    }

    // The newest operand, taken off; where there is none, one that stands for `false`.
    pub fn operand(&mut self) -> Result<usize, AllocError>
        ensures stays { StaysUnder self.old self.new }
        ensures operand { IfOk result (HasOperand self.old self.new) }
    {
        match self.operands.pop() {
            Some(place) => Ok(place),
            None => {
                let place = self.parts.len();
                self.parts.push(tells(self.start, false))?;
                Ok(place)
            }
        }
    }

    // The condition is one more, and the newest operand.
    fn push(&mut self, condition: Condition) -> Result<(), AllocError>
        ensures stays { StaysUnder self.old self.new }
        ensures pushed { OnOk result (HasPushed condition self.old self.new) }
    {
        let place = self.parts.len();
        self.parts.push(condition)?;
        self.operands.push(place)?;
        Ok(())
    }
}

// Both numbers together. An error where that is no number of a position: memory would be wanting long before.
pub fn sum(one: usize, other: usize) -> Result<usize, AllocError>
    ensures { IfOk result (λ both. both ≡ one + other) }
{
    one.checked_add(other).ok_or(AllocError)
}

// That the value isn't the start value.
fn tells(start: bool, value: bool) -> Condition
    ensures { result ≡ told start value }
{
    if value == start {
        return Condition::Never;
    }
    Condition::Always
}

// That both conditions hold, or either of them: of two formulas that start from true it takes one to be false.
fn pair(start: bool, conjunction: bool, left: usize, right: usize) -> Condition
    ensures { result ≡ two start conjunction left right }
{
    if conjunction == start {
        return Condition::Either(left, right);
    }
    Condition::Both(left, right)
}

// The truth value, `false` of another kind of value.
fn truth_of(value: &Value) -> bool
    ensures { result ≡ truth_meant (value_view value.now) }
{
    match value {
        Value::Bool(truth) => *truth,
        _ => false,
    }
}
