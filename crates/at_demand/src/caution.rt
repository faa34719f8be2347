//! Whether the last instance of a question is to be evaluated in one go: hints, on which no answer rests.

use crate::question::Question;
use at_rules::{AttrId, Rules};

// How many instances are left to turns behind one at which an evaluation in one go gave up; they are four times as many where the next one gives up.
const FEW: u32 = 3;

// How many instances are left to turns before one is evaluated in one go again, and how many they are once that gives up: what can't be had in one
// go isn't begun over and over along a chain.
pub struct Caution {
    left: u32,
    next: u32,
}

/// One call, where each exit that lets it go would else have a case for each field.
impl Drop for Caution {
    fn drop(self) {
        let Caution { left: _, next: _ } = self;
    }
}

impl Caution {
    // None gave up yet.
    pub fn new() -> Caution {
        Caution { left: 0, next: FEW }
    }

    // A question for an instance of the attribute begins, which couldn't be evaluated in one go. Where formulas come of it that wasn't tried.
    pub fn begin(&mut self, rules: &Rules, attribute: AttrId) {
        self.left = 0;
        self.next = FEW;
        if rules.start_of(attribute).is_none() {
            self.note(true);
        }
    }

    // Whether the last instance of the question is to be evaluated in one go: as many wait as are due; or its trial hasn't begun, others wait for it,
    // its value is kept, no formula comes of it, and it isn't left to turns.
    pub fn is_worth(
        &mut self,
        rules: &Rules,
        question: &Question,
        is_new: bool,
        due: usize,
    ) -> bool {
        let waiting = question.waiting.len();
        if due <= waiting {
            return true;
        }
        if !is_new || waiting == 0 {
            return false;
        }
        is_final(rules, question.inst.attribute()) && self.allows()
    }

    // Whether the next instance isn't left to turns.
    fn allows(&mut self) -> bool {
        if self.left == 0 {
            return true;
        }
        self.left -= 1;
        false
    }

    // An instance was evaluated in one go, or that gave up.
    pub fn note(&mut self, gave_up: bool) {
        if !gave_up {
            self.next = FEW;
            return;
        }
        self.left = self.next;
        self.next = self.next.saturating_mul(4);
    }
}

// Whether the attribute's values are kept, and its equations come to no formulas.
fn is_final(rules: &Rules, attribute: AttrId) -> bool {
    rules.is_lazy(attribute) && rules.start_of(attribute).is_none()
}
