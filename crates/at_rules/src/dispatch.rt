//! Dispatch tables: what is found for a class and a number on the way up from the class, in one step.

use at_class::{ClassId, ClassTable};
use indexmap::IndexMap;
use std::alloc::{AllocError, Global};

/// A table has at most so many cells for each class, key and number, so that its memory is linear in what the declarations give.
const MAX_CELLS_FOR_EACH: usize = 64;

/// A position or none, in four bytes: 0 stands for none.
#[derive(Clone, Copy)]
pub struct Cell(u32);

/// Whose find stands, where both a class and a class above it have one: that of the class itself, or the lesser position.
#[derive(Clone, Copy)]
pub enum Precedence {
    Nearest,
    Earliest,
}

/// For each class a row, with a cell for each number. A row may be short, where a look-up has to climb.
#[derive(Drop)]
pub struct Dispatch {
    rows: Vec<Vec<Cell>>,
}

impl Cell {
    ghost use Rattle.std.specs.Prelude.{◌≡◌, IfSome};
    ghost use Rattle.at_rules.specs.Dispatch.{cell_view};

    /// The cell that holds the position; `None` where it is too great for one.
    fn of(position: Option<usize>) -> Option<Cell>
        ensures { IfSome result (λ cell. cell_view cell ≡ position) }
    {
        match position {
            None => Some(Cell(0)),
            Some(position) => holding(position),
        }
    }

    /// The position that it holds.
    pub fn position(self) -> Option<usize>
        ensures { result ≡ cell_view self }
    {
        let held = self.0 as usize;
        if held == 0 { None } else { Some(held - 1) }
    }
}

impl Precedence {
    ghost use Rattle.std.specs.Prelude.{◌≡◌};
    ghost use Rattle.at_rules.specs.Dispatch.{chosen};

    /// What is found of what the class has and what is found above it.
    fn choose(self, here: Option<usize>, above: Option<usize>) -> Option<usize>
        ensures { result ≡ chosen self here above }
    {
        match self {
            Precedence::Nearest => here.or(above),
            Precedence::Earliest => earlier(here, above),
        }
    }
}

impl Dispatch {
    ghost use Rattle.std.specs.Prelude.{◌≡◌, ℕ, IfOk, IfSome, OnOk, Option, None, length, slice_get};
    ghost use Rattle.std.specs.Map.{keys_of};
    ghost use Rattle.at_model.specs.Classes.{AreSound};
    ghost use Rattle.at_model.specs.WellFormed.{IsHierarchy};
    ghost use Rattle.at_rules.specs.Dispatch.{above_in, cell_at, cell_view, found_up, AreRight, IsRight};

    /// The table of the positions of keys, which are classes with numbers below the width. Rows are missing where memory is wanting,
    /// and all of them where there is no key or the table would be too large.
    pub fn new<V>(
        alloc: Global,
        classes: &ClassTable,
        keys: &IndexMap<(usize, usize), V>,
        width: usize,
        precedence: Precedence,
    ) -> Dispatch
        ensures right { AreRight (found_up precedence (keys_of keys.now.entries) classes.now) result.rows.items }
        ensures sound { AreSound classes.now }
        ensures hierarchy { IsHierarchy classes.now }
    {
        if !is_affordable(classes.len(), keys.len(), width) {
            return Dispatch::empty(alloc);
        }
        match Dispatch::filled(alloc, classes, keys, width, precedence) {
            Ok(table) => table,
            Err(_) => Dispatch::empty(alloc),
        }
    }

    /// A table that says nothing.
    pub fn empty(alloc: Global) -> Dispatch
        ensures { (c k : ℕ) → cell_at result.rows.items c k ≡ None }
    {
        Dispatch {
            rows: Vec::new(alloc),
        }
    }

    /// The cell of the class and the number; `None` where the table says nothing of them.
    pub fn cell(&self, class: ClassId, number: usize) -> Option<Cell>
        ensures { result ≡ cell_at self.now.rows.items class number }
    {
        Some(*self.rows.get(class.index())?.get(number)?)
    }

    /// A class gets its row behind its superclass: as long as one gets its row there may be another. The classes are gone over
    /// forwards and backwards by turns, so that two passes do where all superclasses stand last.
    fn filled<V>(
        alloc: Global,
        classes: &ClassTable,
        keys: &IndexMap<(usize, usize), V>,
        width: usize,
        precedence: Precedence,
    ) -> Result<Dispatch, AllocError>
        ensures { IfOk result (λ t. AreRight (found_up precedence (keys_of keys.now.entries) classes.now) t.rows.items) }
    {
        let count = classes.len();
        let mut table = Dispatch::with_rows(alloc, count)?;
        for pass in 0..count {
            let backwards = pass % 2 == 1;
            if !table.fill(alloc, classes, keys, width, precedence, backwards)? {
                return Ok(table);
            }
        }
        Ok(table)
    }

    /// So many rows without cells.
    fn with_rows(alloc: Global, count: usize) -> Result<Dispatch, AllocError>
        ensures { IfOk result (λ t. (c k : ℕ) → cell_at t.rows.items c k ≡ None) }
    {
        let mut rows: Vec<Vec<Cell>> = Vec::new(alloc);
        for class in 0..count {
            rows.push(Vec::new(alloc))?;
        }
        Ok(Dispatch { rows })
    }

    /// Gives each class its row, where that of its superclass is there; whether one got cells.
    fn fill<V>(
        &mut self,
        alloc: Global,
        classes: &ClassTable,
        keys: &IndexMap<(usize, usize), V>,
        width: usize,
        precedence: Precedence,
        backwards: bool,
    ) -> Result<bool, AllocError>
        requires hierarchy { IsHierarchy classes.now }
        requires right { AreRight (found_up precedence (keys_of keys.now.entries) classes.now) self.old.rows.items }
        ensures { OnOk result (AreRight (found_up precedence (keys_of keys.now.entries) classes.now) self.new.rows.items) }
    {
        let mut grows = false;
        let count = classes.len();
        for position in 0..count {
            let class = class_at(position, count, backwards);
            if self.fill_row(alloc, classes, keys, width, precedence, class)? {
                grows = true;
            }
        }
        Ok(grows)
    }

    /// Gives the class its row, where it has none and that of its superclass is there; whether it got cells.
    fn fill_row<V>(
        &mut self,
        alloc: Global,
        classes: &ClassTable,
        keys: &IndexMap<(usize, usize), V>,
        width: usize,
        precedence: Precedence,
        class: ClassId,
    ) -> Result<bool, AllocError>
        requires hierarchy { IsHierarchy classes.now }
        requires right { AreRight (found_up precedence (keys_of keys.now.entries) classes.now) self.old.rows.items }
        ensures { OnOk result (AreRight (found_up precedence (keys_of keys.now.entries) classes.now) self.new.rows.items) }
    {
        if self.count(class) >= width {
            return Ok(false);
        }
        let row = self.row(alloc, classes, keys, width, precedence, class)?;
        let grows = !row.is_empty();
        self.put(class, row);
        Ok(grows)
    }

    /// How many cells the class has.
    fn count(&self, class: ClassId) -> usize {
        match self.rows.get(class.index()) {
            Some(row) => row.len(),
            None => 0,
        }
    }

    /// Puts the row of a class in its place.
    fn put(&mut self, class: ClassId, row: Vec<Cell>)
        ensures { (answer : ℕ → ℕ → Option ℕ) → AreRight answer self.old.rows.items → IsRight (answer class) row.items → AreRight answer self.new.rows.items }
    {
        if let Some(place) = self.rows.get_mut(class.index()) {
            *place = row;
        }
    }

    /// The cells of the class, up to the first of which nothing is known above.
    fn row<V>(
        &self,
        alloc: Global,
        classes: &ClassTable,
        keys: &IndexMap<(usize, usize), V>,
        width: usize,
        precedence: Precedence,
        class: ClassId,
    ) -> Result<Vec<Cell>, AllocError>
        requires hierarchy { IsHierarchy classes.now }
        requires right { AreRight (found_up precedence (keys_of keys.now.entries) classes.now) self.now.rows.items }
        ensures { IfOk result (λ row. IsRight (found_up precedence (keys_of keys.now.entries) classes.now class) row.items) }
    {
        let mut row = Vec::new(alloc);
        for number in 0..width {
            let Some(cell) = self.next(classes, keys, precedence, class, number) else {
                return Ok(row)
            };
            row.push(cell)?;
        }
        Ok(row)
    }

    /// The cell of the class and the number, by that of its superclass.
    fn next<V>(
        &self,
        classes: &ClassTable,
        keys: &IndexMap<(usize, usize), V>,
        precedence: Precedence,
        class: ClassId,
        number: usize,
    ) -> Option<Cell>
        requires hierarchy { IsHierarchy classes.now }
        requires right { AreRight (found_up precedence (keys_of keys.now.entries) classes.now) self.now.rows.items }
        ensures { IfSome result (λ cell. cell_view cell ≡ found_up precedence (keys_of keys.now.entries) classes.now class number) }
    {
        let above = self.above(classes, class, number)?;
        let here = keys.get_index_of(&(class.index(), number));
        Cell::of(precedence.choose(here, above.position()))
    }

    /// The cell of the superclass, which holds nothing where there is no superclass.
    fn above(&self, classes: &ClassTable, class: ClassId, number: usize) -> Option<Cell>
        ensures above { result ≡ above_in self.now.rows.items classes.now class number }
        ensures sound { AreSound classes.now }
    {
        match classes.parent(class) {
            Some(parent) => self.cell(parent, number),
            None => Some(Cell(0)),
        }
    }
}

// The class at the position, counted from the last one backwards. Nothing rests on which it is.
fn class_at(position: usize, count: usize, backwards: bool) -> ClassId {
    if backwards {
        ClassId::new(count.saturating_sub(position).saturating_sub(1))
    } else {
        ClassId::new(position)
    }
}

ghost use Rattle.std.specs.Prelude.{◌≡◌, IfSome, Some};
ghost use Rattle.at_rules.specs.Dispatch.{cell_view};
ghost use Rattle.at_rules.specs.Upward.{earlier};

/// Whether a table over so many classes, keys and numbers has few enough cells.
fn is_affordable(classes: usize, keys: usize, width: usize) -> bool {
    let most = classes
        .saturating_add(keys)
        .saturating_add(width)
        .saturating_mul(MAX_CELLS_FOR_EACH);
    keys > 0 && classes.saturating_mul(width) <= most
}

/// The cell that holds the position; `None` where it is too great for one.
fn holding(position: usize) -> Option<Cell>
    ensures { IfSome result (λ cell. cell_view cell ≡ Some position) }
{
    if position < u32::MAX as usize {
        Some(Cell((position + 1) as u32))
    } else {
        None
    }
}

/// The lesser of two positions, where they are.
pub fn earlier(found: Option<usize>, other: Option<usize>) -> Option<usize>
    ensures { result ≡ earlier found other }
{
    let Some(i) = found else { return other };
    let Some(j) = other else { return found };
    Some(i.min(j))
}
