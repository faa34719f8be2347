//! How equations ended in a question: facts of the tree, which stay until the question ends.

ghost use Rattle.std.specs.Prelude.{◌≡◌, ℕ, [], ◌∷◌, ◌++◌, IfNone, IfOk, IfSome, OnOk, reverse};
ghost use Rattle.at_model.specs.of_fixpoints.Fixpoints.{Made};
ghost use Rattle.at_model.specs.of_fixpoints.Formulas.{Formula as Meant};
ghost use Rattle.at_body.specs.Pieces.{asked};
ghost use Rattle.at_search.specs.Recorded.{IsRecordedForm, Recorded, copied_from};

use at_body::{FaultKind, Formula, Inst, Piece};
use at_store::Loc;
use indexmap::IndexMap;
use std::alloc::{AllocError, Global};

/// A fault, and the instance whose own equation has it.
pub struct Fault {
    pub kind: FaultKind,
    pub at: Inst,
}

/// One call, where each exit that lets it go would else have a case for each field.
impl Drop for Fault {
    fn drop(self) {
        let Fault { kind: _, at: _ } = self;
    }
}

impl Fault {
    /// The fault once more. An error where memory is wanting.
    pub fn copy(&self, alloc: Global) -> Result<Fault, AllocError>
        ensures { IfOk result (copied_from self.now) }
    {
        Ok(Fault {
            kind: self.kind,
            at: self.at.copy(alloc)?,
        })
    }

    /// Its kind, and the instance whose own equation has it.
    pub fn into_parts(self) -> (FaultKind, Inst)
        ensures kind { result.0 ≡ self.kind }
        ensures at { result.1 ≡ self.at }
    {
        let Fault { kind, at } = self;
        (kind, at)
    }
}

/// What the equation of a circular attribute came to, the locations that were looked at for it, and the instances whose values that
/// took: those that are kept, and the positions of the others among what the question found.
pub struct Formed {
    pub formula: Formula,
    pub reads: Vec<Loc>,
    pub kept: Vec<Inst>,
    pub finds: Vec<usize>,
}

/// One call, as that of `Fault` is.
impl Drop for Formed {
    fn drop(self) {
        let Formed {
            formula: _,
            reads: _,
            kept: _,
            finds: _,
        } = self;
    }
}

/// How an equation ended, where it isn't a value.
#[derive(Drop)]
pub enum Ending {
    Formed(Formed),
    Spoilt(Fault),
}

/// How an equation ended. Where it `is_whole`, that of each instance to which formulas lead from it has ended, too: then it has an
/// outcome, which is a fault if it isn't known.
pub struct Ended {
    pub ending: Ending,
    pub is_whole: bool,
}

/// One call, as that of `Fault` is.
impl Drop for Ended {
    fn drop(self) {
        let Ended {
            ending: _,
            is_whole: _,
        } = self;
    }
}

/// What the equation of the instance came to, where that is a formula.
pub fn formed_of<'m>(ended: &'m IndexMap<Inst, Ended>, inst: &Inst) -> Option<&'m Formed>
    ensures some { IfSome result (λ f. Recorded ended.now.entries inst.now (Made f.now.formula)) }
    ensures is { IfSome result (λ f. IsRecordedForm ended.now.entries inst.now f.now) }
    ensures none { IfNone result ((f : Meant ℕ) → Recorded ended.now.entries inst.now (Made f) → ⊥) }
{
    match ended.get(inst) {
        Some(ended) => match &ended.ending {
            Ending::Formed(formed) => Some(formed),
            Ending::Spoilt(_) => None,
        },
        None => None,
    }
}

// The instances of the formula come to those to do, so that the first is the next one.
pub fn add_atoms(alloc: Global, pieces: &[Piece], todo: &mut Vec<Inst>) -> Result<(), AllocError>
    ensures { OnOk result (reverse todo.new.items ≡ asked pieces.now ++ reverse todo.old.items) }
{
    let mut count = pieces.len();
    while count > 0 {
        add_atom(alloc, &pieces[count - 1], todo)?;
        count -= 1;
    }
    Ok(())
}

// The instance of the piece, if it has one, comes to those to do.
fn add_atom(alloc: Global, piece: &Piece, todo: &mut Vec<Inst>) -> Result<(), AllocError>
    ensures { OnOk result (reverse todo.new.items ≡ asked (piece.now ∷ []) ++ reverse todo.old.items) }
{
    if let Piece::Asks(inst) = piece {
        todo.push(inst.copy(alloc)?)?;
    }
    Ok(())
}
