//! Components that are fixed.
ghost use Rattle.std.specs.Prelude.{◌≡◌, IfOk, map};
ghost use Rattle.std.specs.List.{AllByRecursion};
ghost use Rattle.at_model.specs.SyntaxTrees.{CellIsTokens};
ghost use Rattle.at_class.specs.View.{class_view, classes_view};
ghost use Rattle.at_class.specs.TreeView.{cell_view};
ghost use Rattle.at_class.specs.Fixing.{fixed_as, fixed_view, with_fixed, with_part, IsWritten};

use crate::class::Class;
use crate::part::ClassId;
use crate::tree::Cell;
use std::alloc::{AllocError, Global};

/// What is to stand in a component in each tree, which is known by its position among those that the class itself declares.
#[derive(Drop)]
pub struct Fixed {
    pub class: ClassId,
    pub part: usize,
    pub cell: Cell,
}

fn fix_part(class: &mut Class, part: usize, cell: Cell)
    ensures { class_view class.new ≡ with_part part (cell_view cell) (class_view class.old) }
{
    if let Some(part) = class.own.get_mut(part) {
        part.fixed = Some(cell);
    }
}

fn fix(classes: &mut Vec<Class>, class: ClassId, part: usize, cell: Cell)
    ensures { classes_view classes.new.items ≡ with_fixed (record { class = class; part = part; cell = cell_view cell }) (classes_view classes.old.items) }
{
    if let Some(class) = classes.get_mut(class.index()) {
        fix_part(class, part, cell);
    }
}

/// The classes in which all of that is fixed, one after the other.
pub(crate) fn fix_all(
    alloc: Global,
    classes: Vec<Class>,
    fixed: &[Fixed],
) -> Result<Vec<Class>, AllocError>
    ensures fixed { IfOk result (λ v. classes_view v.items ≡ fixed_as (map fixed_view fixed.now) (classes_view classes.items)) }
    ensures tokens { IfOk result (λ _. AllByRecursion IsWritten (map fixed_view fixed.now)) }
{
    let mut classes = classes;
    for one in fixed {
        fix(&mut classes, one.class, one.part, one.cell.written(alloc)?);
    }
    Ok(classes)
}
