//! An order of the classes in which the way from one to the next is short: what is below a class follows it at once.
use crate::chain::parent_of;
use crate::class::Class;
use crate::part::ClassId;
use std::alloc::{AllocError, Global};

/// Lists of the classes below each class, as links: the first of them, and the next one below the same class.
struct Kin {
    below: Vec<Option<ClassId>>,
    beside: Vec<Option<ClassId>>,
    highest: Option<ClassId>,
}

/// One call, where each exit that lets it go would else have a case for each collection.
impl Drop for Kin {
    fn drop(self) {
        let Kin {
            below: _,
            beside: _,
            highest: _,
        } = self;
    }
}

impl Kin {
    fn of(alloc: Global, classes: &[Class]) -> Result<Kin, AllocError> {
        let mut kin = Kin {
            below: no_links(alloc, classes.len())?,
            beside: no_links(alloc, classes.len())?,
            highest: None,
        };
        for position in 0..classes.len() {
            let class = ClassId::new(position);
            kin.add(class, parent_of(classes, class));
        }
        Ok(kin)
    }

    // The class comes first in the list of its superclass, or of those that have none.
    fn add(&mut self, class: ClassId, superclass: Option<ClassId>) {
        match superclass {
            None => {
                link(&mut self.beside, class, self.highest);
                self.highest = Some(class);
            }
            Some(above) => {
                link(&mut self.beside, class, linked(&self.below, above));
                link(&mut self.below, above, Some(class));
            }
        }
    }
}

fn no_links(alloc: Global, count: usize) -> Result<Vec<Option<ClassId>>, AllocError> {
    let mut links = Vec::new(alloc);
    links.resize(count, None)?;
    Ok(links)
}

fn linked(links: &[Option<ClassId>], class: ClassId) -> Option<ClassId> {
    *links.get(class.index())?
}

fn link(links: &mut Vec<Option<ClassId>>, class: ClassId, to: Option<ClassId>) {
    if class.index() < links.len() {
        links[class.index()] = to;
    }
}

fn push_some(pending: &mut Vec<ClassId>, class: Option<ClassId>) -> Result<(), AllocError> {
    let Some(there) = class else { return Ok(()) };
    pending.push(there)?;
    Ok(())
}

/// The classes, each behind its superclass and before all that isn't below that. Who goes over them in this order has short ways;
/// nothing else rests on it, so nothing is promised.
pub fn downward(alloc: Global, classes: &[Class]) -> Result<Vec<ClassId>, AllocError> {
    let kin = Kin::of(alloc, classes)?;
    let mut order = Vec::new(alloc);
    let mut pending = Vec::new(alloc);
    push_some(&mut pending, kin.highest)?;
    for step in 0..classes.len() {
        let Some(class) = pending.pop() else {
            return Ok(order)
        };
        order.push(class)?;
        push_some(&mut pending, linked(&kin.beside, class))?;
        push_some(&mut pending, linked(&kin.below, class))?;
    }
    Ok(order)
}
