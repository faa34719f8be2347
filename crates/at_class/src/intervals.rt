//! Numbers of the classes, depth first: those below a class have the numbers that follow its own, so that two comparisons tell
//! whether a class is below another one.
use crate::chain::parent_of;
use crate::class::Class;
use crate::descent::downward;
use crate::part::ClassId;
use std::alloc::{AllocError, Global};

/// The numbers of a class and of those below it: from its own up to the one that follows them all. Empty where it has none.
#[derive(Clone, Copy)]
pub struct Interval {
    pub first: usize,
    pub end: usize,
}

impl Interval {
    ghost use Rattle.std.specs.Prelude.{◌≡◌};
    ghost use Rattle.at_class.specs.Intervals.{has, is_empty};

    /// Whether no number is in it.
    pub fn is_empty(self) -> bool
        ensures { result ≡ is_empty self }
    {
        self.end <= self.first
    }

    /// Whether the number is in it.
    pub fn has(self, number: usize) -> bool
        ensures { result ≡ has self number }
    {
        self.first <= number && number < self.end
    }
}

/// The classes that were numbered so far. An interval that isn't closed ends behind all numbers.
#[derive(Drop)]
struct Numbering {
    intervals: Vec<Interval>,
    // The lowest class whose interval isn't closed; the others are those above it.
    lowest: Option<ClassId>,
    end: usize,
}

impl Numbering {
    ghost use Rattle.std.specs.Prelude.{◌≡◌, ◌+◌, ◌<◌, IfOk, IsTrue, length, true};
    ghost use Rattle.at_model.specs.WellFormed.{IsHierarchy};
    ghost use Rattle.at_class.specs.View.{classes_view};
    ghost use Rattle.at_class.specs.Ways.{AreLed};
    ghost use Rattle.at_class.specs.Intervals.{IsNumbering, interval_at, is_empty};

    /// No class has a number yet; all numbers will be below `end`.
    fn new(alloc: Global, classes: &[Class], end: usize) -> Result<Numbering, AllocError>
        requires { IsHierarchy (classes_view classes.now) × AreLed (classes_view classes.now) }
        ensures numbered { IfOk result (IsNumbering (classes_view classes.now) 0) }
        ensures end { IfOk result (λ k. k.end ≡ end) }
    {
        let intervals = no_intervals(alloc, classes.len())?;
        Ok(Numbering {
            intervals,
            lowest: None,
            end,
        })
    }

    // Gives the class the number, where it has none and its superclass is open. Else it gets none.
    fn enter(&mut self, classes: &[Class], class: ClassId, number: usize)
        requires { (number < self.now.end) × IsNumbering (classes_view classes.now) number self.now }
        ensures numbered { IsNumbering (classes_view classes.now) (number + 1) self.new }
        ensures end { self.new.end ≡ self.old.end }
    {
        let superclass = parent_of(classes, class);
        self.close_to(classes, superclass, number);
        if self.lowest == superclass && self.is_new(class) {
            put(
                &mut self.intervals,
                class,
                Interval {
                    first: number,
                    end: self.end,
                },
            );
            self.lowest = Some(class);
        }
    }

    // Closes the intervals of the classes below the superclass; the number is the one that follows them.
    fn close_to(&mut self, classes: &[Class], superclass: Option<ClassId>, number: usize)
        requires { (number < self.now.end) × IsNumbering (classes_view classes.now) number self.now }
        ensures numbered { IsNumbering (classes_view classes.now) number self.new }
        ensures end { self.new.end ≡ self.old.end }
    {
        for step in 0..classes.len() {
            if self.lowest == superclass {
                return;
            }
            let Some(class) = self.lowest else { return };
            let first = interval_of(&self.intervals, class).first;
            put(&mut self.intervals, class, Interval { first, end: number });
            self.lowest = parent_of(classes, class);
        }
    }

    // Whether the class is there, and has no number.
    fn is_new(&self, class: ClassId) -> bool
        ensures { IsTrue result → (class < length self.now.intervals.items) × (is_empty (interval_at self.now.intervals.items class) ≡ true) }
    {
        match self.intervals.get(class.index()) {
            Some(interval) => interval.is_empty(),
            None => false,
        }
    }
}

ghost use Rattle.std.specs.Prelude.{◌≡◌, IfOk, replicate, set};
ghost use Rattle.at_class.specs.View.{classes_view};
ghost use Rattle.at_class.specs.Ways.{AreLed};
ghost use Rattle.at_model.specs.WellFormed.{IsHierarchy};
ghost use Rattle.at_class.specs.Intervals.{AreIntervals, empty, interval_at};

fn no_intervals(alloc: Global, count: usize) -> Result<Vec<Interval>, AllocError>
    ensures { IfOk result (λ v. v.items ≡ replicate count empty) }
{
    let mut intervals = Vec::new(alloc);
    intervals.resize(count, Interval { first: 0, end: 0 })?;
    Ok(intervals)
}

/// The class's interval; of a number that no class has it is empty.
pub fn interval_of(intervals: &[Interval], class: ClassId) -> Interval
    ensures { result ≡ interval_at intervals.now class }
{
    match intervals.get(class.index()) {
        Some(interval) => *interval,
        None => Interval { first: 0, end: 0 },
    }
}

fn put(intervals: &mut Vec<Interval>, class: ClassId, interval: Interval)
    ensures { intervals.new.items ≡ set intervals.old.items class interval }
{
    if class.index() < intervals.len() {
        intervals[class.index()] = interval;
    }
}

/// The interval of each class.
pub fn intervals_of(alloc: Global, classes: &[Class]) -> Result<Vec<Interval>, AllocError>
    requires { IsHierarchy (classes_view classes.now) × AreLed (classes_view classes.now) }
    ensures { IfOk result (λ v. AreIntervals (classes_view classes.now) v.items) }
{
    let order = downward(alloc, classes)?;
    let mut numbering = Numbering::new(alloc, classes, order.len())?;
    for (number, class) in order.iter().enumerate() {
        numbering.enter(classes, *class, number);
    }
    Ok(numbering.intervals)
}
