//! Where entries are likely to stand.

use at_body::Inst;
use at_index::edge::Slot;
use std::alloc::Global;

// How many marks a node has. Its instances share them, by the positions of their attributes.
const WIDTH: usize = 4;

/// Where the entries of instances are likely to stand, so that most need no look-up by a hash. Nothing rests on it.
#[derive(Drop)]
pub struct Likely {
    marks: Vec<Slot>,
}

// Which mark the instance has.
fn position_of(instance: &Inst) -> usize {
    let attribute = instance.attribute().index();
    let mark = (attribute ^ attribute / WIDTH) % WIDTH;
    instance
        .node()
        .index()
        .wrapping_mul(WIDTH)
        .wrapping_add(mark)
}

impl Likely {
    /// Nothing is known of any.
    pub fn new(alloc: Global) -> Likely {
        Likely {
            marks: Vec::new(alloc),
        }
    }

    /// The place at which the entry of the instance is likely to stand.
    pub fn place_of(&self, instance: &Inst) -> usize {
        match self.marks.get(position_of(instance)) {
            Some(mark) => *mark as usize,
            None => 0,
        }
    }

    /// The entry of the instance came into that slot, which mostly is its place, too. Where memory is wanting that isn't noted.
    #[inline(always)]
    pub fn note(&mut self, instance: &Inst, slot: Slot) {
        let position = position_of(instance);
        match self.marks.get_mut(position) {
            Some(mark) => *mark = slot,
            None => self.note_first(position, slot),
        }
    }

    // The same of a node that has no marks yet.
    #[inline(never)]
    fn note_first(&mut self, position: usize, slot: Slot) {
        let _ = self.marks.resize(position.saturating_add(1), 0);
        if let Some(mark) = self.marks.get_mut(position) {
            *mark = slot;
        }
    }
}
