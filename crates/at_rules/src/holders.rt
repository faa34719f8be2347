//! Which classes have an equation for an inherited attribute's name, and which of them is the first upward.

use crate::body::Body;
use crate::dispatch::{Cell, Dispatch, Precedence};
use at_class::{ClassId, ClassTable};
use indexmap::IndexMap;
use std::alloc::{AllocError, Global};

/// The classes with equations for names, by class and name, and for each class and name the first of them upward.
pub struct Holders {
    held: IndexMap<(usize, usize), ()>,
    table: Dispatch,
}

/// One call, where each exit that lets it go would else have a case for each collection.
impl Drop for Holders {
    fn drop(self) {
        let Holders { held: _, table: _ } = self;
    }
}

impl Holders {
    ghost use Rattle.std.specs.Prelude.{◌≡◌, ℕ, option_and_then};
    ghost use Rattle.std.specs.Map.{keys_of};
    ghost use Rattle.at_rules.specs.Dispatch.{cell_at, cell_view};
    ghost use Rattle.at_rules.specs.Holding.{class_at, has_equation, is_held, AreHolders};

    /// Those of the equations, for names with numbers below the width. Where memory is wanting nothing is known of them.
    pub fn of(
        alloc: Global,
        classes: &ClassTable,
        inherited: &IndexMap<(usize, Option<usize>, usize), Body>,
        width: usize,
    ) -> Holders
        ensures { AreHolders classes.now inherited.now.entries result.held.entries result.table.rows.items }
    {
        match held_in(alloc, inherited) {
            Ok(held) => Holders::over(alloc, classes, held, width),
            Err(_) => Holders {
                held: IndexMap::new(alloc),
                table: Dispatch::empty(alloc),
            },
        }
    }

    /// Those with these keys.
    fn over(
        alloc: Global,
        classes: &ClassTable,
        held: IndexMap<(usize, usize), ()>,
        width: usize,
    ) -> Holders
        ensures { (es : List ((ℕ × Option ℕ × ℕ) × BodyValue)) → ((c n : ℕ) → has_equation (keys_of es) c n ≡ is_held (keys_of held.entries) c n)
            → AreHolders classes.now es result.held.entries result.table.rows.items }
    {
        let table = Dispatch::new(alloc, classes, &held, width, Precedence::Nearest);
        Holders { held, table }
    }

    /// What is known of the first class upward from the class that has an equation for the name.
    pub fn cell(&self, class: ClassId, name: usize) -> Option<Cell>
        ensures { result ≡ cell_at self.now.table.rows.items class name }
    {
        self.table.cell(class, name)
    }

    /// The class that the cell tells of.
    pub fn class_at(&self, cell: Cell) -> Option<ClassId>
        ensures { result ≡ option_and_then (class_at self.now.held.entries) (cell_view cell) }
    {
        match self.held.get_index(cell.position()?) {
            Some((key, _)) => Some(ClassId::new(key.0)),
            None => None,
        }
    }
}

ghost use Rattle.std.specs.Prelude.{◌≡◌, ℕ, ◌&&◌, ◌||◌, List, Option, nat_eq, IfOk, OnOk};
ghost use Rattle.std.specs.Map.{keys_of};
ghost use Rattle.at_rules.specs.declared.body.Body.{Body as BodyValue};
ghost use Rattle.at_rules.specs.Holding.{has_equation, is_held};

/// The classes and names of the equations, each once.
fn held_in(
    alloc: Global,
    inherited: &IndexMap<(usize, Option<usize>, usize), Body>,
) -> Result<IndexMap<(usize, usize), ()>, AllocError>
    ensures { IfOk result (λ held. (c n : ℕ) → has_equation (keys_of inherited.now.entries) c n ≡ is_held (keys_of held.entries) c n) }
{
    let mut held = IndexMap::new(alloc);
    for position in 0..inherited.len() {
        if let Some((key, _)) = inherited.get_index(position) {
            hold(&mut held, key.0, key.2)?;
        }
    }
    Ok(held)
}

/// Notes that the class has an equation for the name.
fn hold(
    held: &mut IndexMap<(usize, usize), ()>,
    class: usize,
    name: usize,
) -> Result<(), AllocError>
    ensures { OnOk result ((c n : ℕ) → is_held (keys_of held.new.entries) c n ≡ (is_held (keys_of held.old.entries) c n || (nat_eq c class && nat_eq n name))) }
{
    held.insert((class, name), ())?;
    Ok(())
}
