//! Which classes are above themselves. What is found on a way up is kept, so that no class is climbed from twice.
use crate::chain::parent_of;
use crate::class::Class;
use crate::part::ClassId;
use std::alloc::{AllocError, Global};

/// What is known of a class.
#[derive(Clone, Copy)]
pub enum Mark {
    /// Nothing yet.
    Unmet,
    /// It is on the way up that is gone now.
    OnWay,
    /// It isn't above itself.
    Clear,
    /// It is above itself.
    Circular,
}

/// What is known of each class, and the classes on the way up that is gone now.
pub struct Circles {
    marks: Vec<Mark>,
    way: Vec<ClassId>,
}

/// One call, where each exit that lets it go would else have a case for each collection.
impl Drop for Circles {
    fn drop(self) {
        let Circles { marks: _, way: _ } = self;
    }
}

impl Circles {
    ghost use Rattle.std.specs.Prelude.{◌≡◌, ℕ, ◌<◌, true, length, set, IfOk, OnOk};
    ghost use Rattle.at_model.specs.Classes.{Classes};
    ghost use Rattle.at_class.specs.View.{classes_view};
    ghost use Rattle.at_class.specs.Climbs.{Climbed, Descending, IsResting, is_above_itself, is_settled, mark_at};

    /// Nothing is known of these classes.
    pub fn new(alloc: Global, classes: &[Class]) -> Result<Circles, AllocError>
        ensures { IfOk result (IsResting (classes_view classes.now)) }
    {
        let marks = unmet(alloc, classes.len())?;
        Ok(Circles {
            marks,
            way: Vec::new(alloc),
        })
    }

    /// Whether the class is above itself.
    pub fn is_above_itself(&mut self, classes: &[Class], class: ClassId) -> Result<bool, AllocError>
        requires { IsResting (classes_view classes.now) self.now }
        ensures kept { OnOk result (IsResting (classes_view classes.now) self.new) }
        ensures told { IfOk result (λ is. is ≡ is_above_itself (classes_view classes.now) class) }
    {
        let end = self.climb(classes, class)?;
        self.go_round(classes, end);
        self.descend();
        Ok(is_circular(self.mark_of(class)))
    }

    // Goes up to the first class that was met before, and answers it.
    fn climb(&mut self, classes: &[Class], from: ClassId) -> Result<Option<ClassId>, AllocError>
        requires { IsResting (classes_view classes.now) self.now }
        ensures { IfOk result (Climbed (classes_view classes.now) from self.new.marks.items self.new.way.items) }
    {
        let mut next = Some(from);
        while let Some(class) = next {
            if is_met(self.mark_of(class)) {
                return Ok(Some(class));
            }
            self.way.push(class)?;
            self.mark(class, Mark::OnWay);
            next = parent_of(classes, class);
        }
        Ok(None)
    }

    // Marks the circle at the end of the way, if there is one.
    fn go_round(&mut self, classes: &[Class], end: Option<ClassId>)
        ensures { (from : ℕ) → Climbed (classes_view classes.now) from self.old.marks.items self.old.way.items end
            → Descending (classes_view classes.now) from self.new.marks.items self.new.way.items }
    {
        let mut next = end;
        while let Some(class) = next {
            if is_settled(self.mark_of(class)) {
                return;
            }
            self.mark(class, Mark::Circular);
            next = parent_of(classes, class);
        }
    }

    // Goes the way back down: what isn't settled there is below a circle, or there is none.
    fn descend(&mut self)
        ensures { (classes : Classes) (from : ℕ) → Descending classes from self.old.marks.items self.old.way.items → IsResting classes self.new
            × (is_settled (mark_at self.new.marks.items from) ≡ true) }
    {
        while let Some(class) = self.way.pop() {
            if !is_settled(self.mark_of(class)) {
                self.mark(class, Mark::Clear);
            }
        }
    }

    // A number that no class has isn't above itself.
    fn mark_of(&self, class: ClassId) -> Mark
        ensures { result ≡ mark_at self.now.marks.items class }
    {
        match self.marks.get(class.index()) {
            Some(mark) => *mark,
            None => Mark::Clear,
        }
    }

    fn mark(&mut self, class: ClassId, mark: Mark)
        requires { class < length self.now.marks.items }
        ensures marks { self.new.marks.items ≡ set self.old.marks.items class mark }
        ensures way { self.new.way.items ≡ self.old.way.items }
    {
        self.marks[class.index()] = mark;
    }
}

ghost use Rattle.std.specs.Prelude.{◌≡◌, IfOk, replicate};
ghost use Rattle.at_class.specs.Climbs.{is_circular, is_met, is_settled};

fn unmet(alloc: Global, count: usize) -> Result<Vec<Mark>, AllocError>
    ensures { IfOk result (λ v. v.items ≡ replicate count Mark.Unmet) }
{
    let mut marks = Vec::new(alloc);
    for position in 0..count {
        marks.push(Mark::Unmet)?;
    }
    Ok(marks)
}

fn is_met(mark: Mark) -> bool
    ensures { result ≡ is_met mark }
{
    !matches!(mark, Mark::Unmet)
}

fn is_settled(mark: Mark) -> bool
    ensures { result ≡ is_settled mark }
{
    matches!(mark, Mark::Clear | Mark::Circular)
}

fn is_circular(mark: Mark) -> bool
    ensures { result ≡ is_circular mark }
{
    matches!(mark, Mark::Circular)
}
