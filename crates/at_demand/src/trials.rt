//! The trials that are kept beside a question while its turns follow each other, and what one try comes to.

ghost use Rattle.std.specs.Prelude.{◌≡◌, ◌++◌, ◌∷◌, [], ◌⊎◌, IfOk, IfSome, OnErr, OnOk, None};
ghost use Rattle.indexmap.specs.IndexMap.{insert_entry};
ghost use Rattle.at_body.specs.Same.{same_instance};
ghost use Rattle.at_search.specs.Recorded.{copied_from};
ghost use Rattle.at_demand.specs.KeptTrials.{HasDropped, HasEndedLast, HasLast, HasNoted, IsNotedAs};

use crate::evaluation::Find;
use crate::trying::Trying;
use at_body::{FaultKind, Inst, Value};
use at_search::Fault;
use indexmap::IndexMap;
use std::alloc::{AllocError, Global};
use std::mem;

// What one try comes to of an instance whose attribute isn't circular: its value, which is kept or found, its fault, or another instance, whose
// value isn't known.
#[derive(Drop)]
pub enum Attempt {
    Kept(Value),
    Found(Find),
    Fails(FaultKind),
    Needs(Inst),
}

// The trials of the last ones of a chain, in order, each of which waits for the next. Where `awaited` stands, the last of them is
// that of the chain's last instance, and waits for it; else that instance has none yet. The faults that are known outcomes of instances are `noted`.
pub struct Trials<'a> {
    pub frames: Vec<Trying<'a>>,
    pub awaited: Option<Inst>,
    pub noted: IndexMap<Inst, Fault>,
}

/// One call, where each exit that lets it go would else have a case for each field.
impl Drop for Trials<'_> {
    fn drop(self) {
        let Trials {
            frames: _,
            awaited: _,
            noted: _,
        } = self;
    }
}

impl<'a> Trials<'a> {
    // None of them.
    pub fn new(alloc: Global) -> Trials<'a>
        ensures frames { result.frames.items ≡ [] }
        ensures awaited { result.awaited ≡ None }
        ensures noted { result.noted.entries ≡ [] }
    {
        Trials {
            frames: Vec::new(alloc),
            awaited: None,
            noted: IndexMap::new(alloc),
        }
    }

    // The fault that is noted of the instance, where one is.
    pub fn noted_of(&self, alloc: Global, inst: &Inst) -> Result<Option<Fault>, AllocError>
        ensures { IfOk result (λ o. IfSome o (IsNotedAs self.now.noted.entries inst.now)) }
    {
        // The map makes the hash of what is looked up in it, empty as it may be.
        if self.noted.is_empty() {
            return Ok(None);
        }
        match self.noted.get(inst) {
            Some(fault) => copied(alloc, fault),
            None => Ok(None),
        }
    }

    // The fault of the instance is noted, where there is memory for that.
    pub fn note(&mut self, alloc: Global, inst: &Inst, fault: &Fault)
        ensures frames { self.new.frames ≡ self.old.frames }
        ensures awaited { self.new.awaited ≡ self.old.awaited }
        ensures noted { (self.new.noted.entries ≡ self.old.noted.entries) ⊎ HasNoted self.old.noted.entries self.new.noted.entries inst.now fault.now }
    {
        let _ = note_in(alloc, &mut self.noted, inst, fault);
    }

    // The trial of the last instance, where there is one, and what it waits for.
    pub fn last(&mut self) -> Option<(Trying<'a>, Inst)>
        ensures { HasLast self.old self.new result }
    {
        let Some(needed) = mem::replace(&mut self.awaited, None) else {
            return None;
        };
        let Some(frame) = self.frames.pop() else {
            return None;
        };
        Some((frame, needed))
    }

    // The trial of the last instance goes, since its equation has ended.
    pub fn drop_last(&mut self)
        ensures { HasDropped self.old self.new }
    {
        let _ = self.frames.pop();
        self.awaited = None;
    }

    // The trial of the last instance goes, where there is one; those of the others stay.
    pub fn end_last(&mut self)
        ensures { HasEndedLast self.old self.new }
    {
        if self.awaited.is_none() {
            return;
        }
        self.drop_last();
    }

    // Lets all of them go.
    pub fn forget(&mut self)
        ensures frames { self.new.frames.items ≡ [] }
        ensures awaited { self.new.awaited ≡ None }
        ensures noted { self.new.noted.entries ≡ self.old.noted.entries }
    {
        self.frames.clear();
        self.awaited = None;
    }

    // The last instance has this trial.
    pub fn push(&mut self, frame: Trying<'a>) -> Result<(), AllocError>
        ensures frames { OnOk result (self.new.frames.items ≡ self.old.frames.items ++ frame.entry ∷ []) }
        ensures awaited { self.new.awaited ≡ self.old.awaited }
        ensures noted { self.new.noted.entries ≡ self.old.noted.entries }
    {
        self.frames.push(frame)?;
        Ok(())
    }
}

// The fault once more.
fn copied(alloc: Global, fault: &Fault) -> Result<Option<Fault>, AllocError>
    ensures { IfOk result (λ o. IfSome o (copied_from fault.now)) }
{
    let copy = fault.copy(alloc)?;
    Ok(Some(copy))
}

// The fault of the instance is noted; or memory is wanting, and all is as it was.
fn note_in(
    alloc: Global,
    noted: &mut IndexMap<Inst, Fault>,
    inst: &Inst,
    fault: &Fault,
) -> Result<(), AllocError>
    ensures ok { OnOk result (HasNoted noted.old.entries noted.new.entries inst.now fault.now) }
    ensures err { OnErr result (noted.new.entries ≡ noted.old.entries) }
{
    let at = inst.copy(alloc)?;
    let copy = fault.copy(alloc)?;
    put_noted(noted, at, copy)
}

// The fault comes to those that are noted, or memory is wanting.
fn put_noted(noted: &mut IndexMap<Inst, Fault>, inst: Inst, fault: Fault) -> Result<(), AllocError>
    ensures ok { OnOk result (noted.new.entries ≡ insert_entry same_instance noted.old.entries inst fault) }
    ensures err { OnErr result (noted.new.entries ≡ noted.old.entries) }
{
    noted.insert(inst, fault)?;
    Ok(())
}
