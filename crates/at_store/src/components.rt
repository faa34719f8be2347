//! The components of a node.
ghost use Rattle.std.specs.Prelude.{◌≡◌, ◌∷◌, ◌++◌, [], IfOk, OnErr, OnOk, slice_index_or, slice_set, take};
ghost use Rattle.at_store.specs.Held.{held, vacant_slot};

use crate::entry::Slot;
use at_tree::token::TokVal;
use std::alloc::{AllocError, Global};
use std::mem;

/// Places for just so many components.
#[derive(Drop)]
pub struct Row<const N: usize> {
    pub places: [Slot; N],
}

/// What is kept of the components, in a row of just as many places, of which the first so many are filled. So no capacity is kept,
/// and a node takes eight bytes less than with a `Vec`.
#[derive(Drop)]
pub enum Components {
    None,
    One(u8, Box<Row<1>>),
    Two(u8, Box<Row<2>>),
    Three(u8, Box<Row<3>>),
    Four(u8, Box<Row<4>>),
    More(Box<Vec<Slot>>),
}

/// What stands in a place that isn't filled.
fn vacant() -> Slot
    ensures { result ≡ vacant_slot }
{
    Slot::Token(TokVal::Bool(false))
}

/// The places that are filled.
fn filled(count: u8, places: &[Slot]) -> &[Slot]
    ensures { result.now ≡ take count places.now }
{
    if count as usize >= places.len() {
        return places;
    }
    places.split_at(count as usize).0
}

/// Puts a slot into a place of a list: what was there, or the slot itself where there is no such place.
fn replace_in(slots: &mut Vec<Slot>, part: usize, slot: Slot) -> Slot
    ensures taken { result ≡ slice_index_or slots.old.items part slot }
    ensures put { slots.new.items ≡ slice_set slots.old.items part slot }
{
    if part >= slots.len() {
        return slot;
    }
    mem::replace(&mut slots[part], slot)
}

impl<const N: usize> Row<N> {
    /// Puts a slot into a place that is filled: what was there, or the slot itself where there is no such place.
    fn replace(&mut self, count: u8, part: usize, slot: Slot) -> Slot
        ensures taken { result ≡ slice_index_or (take count self.old.places) part slot }
        ensures put { take count self.new.places ≡ slice_set (take count self.old.places) part slot }
    {
        if part >= count as usize {
            return slot;
        }
        if part >= N {
            return slot;
        }
        mem::replace(&mut self.places[part], slot)
    }

    /// Fills one more place: how many are filled then, or want of memory where there is none.
    fn fill(&mut self, count: u8, slot: Slot) -> Result<u8, AllocError>
        ensures pushed { IfOk result (λ more. take more self.new.places ≡ take count self.old.places ++ slot ∷ []) }
        ensures kept { OnErr result (self.new.places ≡ self.old.places) }
    {
        if count == u8::MAX {
            return Err(AllocError);
        }
        if count as usize >= N {
            return Err(AllocError);
        }
        self.places[count as usize] = slot;
        Ok(count + 1)
    }
}

impl Components {
    /// None, and room for so many.
    pub(crate) fn with_room(alloc: Global, parts: usize) -> Result<Components, AllocError>
        ensures { IfOk result (λ cells. held cells ≡ []) }
    {
        match parts {
            0 => Ok(Components::None),
            1 => Ok(Components::One(0, Box::new(alloc, Row { places: [vacant()] })?)),
            2 => Ok(Components::Two(
                0,
                Box::new(
                    alloc,
                    Row {
                        places: [vacant(), vacant()],
                    },
                )?,
            )),
            3 => Ok(Components::Three(
                0,
                Box::new(
                    alloc,
                    Row {
                        places: [vacant(), vacant(), vacant()],
                    },
                )?,
            )),
            4 => Ok(Components::Four(
                0,
                Box::new(
                    alloc,
                    Row {
                        places: [vacant(), vacant(), vacant(), vacant()],
                    },
                )?,
            )),
            _ => Ok(Components::More(Box::new(alloc, Vec::with_capacity(alloc, parts)?)?)),
        }
    }

    /// All of them.
    pub(crate) fn as_slice(&self) -> &[Slot]
        ensures { result.now ≡ held self.now }
    {
        match self {
            Components::None => &[],
            Components::One(count, row) => filled(*count, row.places.as_slice()),
            Components::Two(count, row) => filled(*count, row.places.as_slice()),
            Components::Three(count, row) => filled(*count, row.places.as_slice()),
            Components::Four(count, row) => filled(*count, row.places.as_slice()),
            Components::More(slots) => slots.as_slice(),
        }
    }

    /// Puts a slot into a place: what was there, or the slot itself where there is no such place.
    fn replace(&mut self, part: usize, slot: Slot) -> Slot
        ensures taken { result ≡ slice_index_or (held self.old) part slot }
        ensures put { held self.new ≡ slice_set (held self.old) part slot }
    {
        match self {
            Components::None => slot,
            Components::One(count, row) => row.replace(*count, part, slot),
            Components::Two(count, row) => row.replace(*count, part, slot),
            Components::Three(count, row) => row.replace(*count, part, slot),
            Components::Four(count, row) => row.replace(*count, part, slot),
            Components::More(slots) => replace_in(slots, part, slot),
        }
    }

    /// Takes what stands in a place out of it, till it is put back.
    pub(crate) fn take(&mut self, part: usize) -> Slot
        ensures taken { result ≡ slice_index_or (held self.old) part vacant_slot }
        ensures left { held self.new ≡ slice_set (held self.old) part vacant_slot }
    {
        self.replace(part, vacant())
    }

    /// Puts a slot into a place, where there is such a place.
    pub(crate) fn put(&mut self, part: usize, slot: Slot)
        ensures { held self.new ≡ slice_set (held self.old) part slot }
    {
        self.replace(part, slot);
    }

    /// One more behind them, or want of memory where there is no room for it.
    pub(crate) fn push(&mut self, slot: Slot) -> Result<(), AllocError>
        ensures pushed { OnOk result (held self.new ≡ held self.old ++ slot ∷ []) }
        ensures kept { OnErr result (held self.new ≡ held self.old) }
    {
        match self {
            Components::None => return Err(AllocError),
            Components::One(count, row) => *count = row.fill(*count, slot)?,
            Components::Two(count, row) => *count = row.fill(*count, slot)?,
            Components::Three(count, row) => *count = row.fill(*count, slot)?,
            Components::Four(count, row) => *count = row.fill(*count, slot)?,
            Components::More(slots) => slots.push(slot)?,
        }
        Ok(())
    }
}
