ghost use Rattle.std.specs.Prelude.{◌≡◌, IfOk, IfErr, OnOk, Some, map, true};
ghost use Rattle.at_model.specs.Classes.{AreSound};
ghost use Rattle.at_model.specs.Trees.{to_trees};
ghost use Rattle.at_model.specs.Trees.{to_cells as to_tree_cells};
ghost use Rattle.at_class.specs.View.{part_view, shape_view};
ghost use Rattle.at_class.specs.TreeView.{tree_view};
ghost use Rattle.at_class.specs.TreeView.{cell_view as tree_cell_view};
ghost use Rattle.at_tree.specs.View.{term_view, cell_view, to_cells, to_terms};
ghost use Rattle.at_model.specs.Shaping.{names_classes, names_concrete_class, cell_names_classes, terms_name_classes, shaped, cell_shaped, terms_shaped};
ghost use Rattle.at_tree.specs.Shape.{IsShaped, IsMisshaped, IsNoneAtFit, fixed_shaped, parts_shaped};

use super::conforming::{cell_fits, is_of_kind};
use super::{Cell, Tree};
use crate::term::{Term, TermCell};
use at_class::{ClassId, ClassTable, Part, PartShape};
use std::alloc::{AllocError, AllocFailed, Global};

/// Why a term is no tree under a class.
#[derive(Clone, Copy)]
pub enum ShapeFault {
    /// A name in it is that of no class, or of an abstract one.
    Class,
    /// No tree that conforms is written so.
    Fit,
    /// Memory was wanting.
    Memory,
}

impl From<AllocError> for ShapeFault {
    ghost use Rattle.std.specs.Prelude.{◌≡◌};
    ghost use Rattle.at_tree.specs.declared.tree.shaping.ShapeFault.TheVariants.{Memory};

    ghost from_gives = { λ _ e. e ≡ Memory };

    fn from(_: AllocError) -> Self {
        ShapeFault::Memory
    }
}

impl<T: Drop> From<AllocFailed<T>> for ShapeFault {
    ghost use Rattle.std.specs.Prelude.{◌≡◌};
    ghost use Rattle.at_tree.specs.declared.tree.shaping.ShapeFault.TheVariants.{Memory};

    ghost from_gives = { λ _ e. e ≡ Memory };

    fn from(_: AllocFailed<T>) -> Self {
        ShapeFault::Memory
    }
}

/// The tree that conforms under the class and is written as the term.
///
/// # Errors
///
/// `Class` where any name in the term is that of no class, or of an abstract one; else `Fit` where there is no such tree; `Memory`
/// where memory is wanting.
pub fn shape(
    alloc: Global,
    classes: &ClassTable,
    term: &Term,
    under: ClassId,
) -> Result<Tree, ShapeFault>
    // The table's classes are sound: each has a name of its own, so that a tree is known from its term.
    ensures sound { AreSound classes.now }
    ensures known { OnOk result (names_classes classes.now (term_view term.now) ≡ true) }
    ensures found { IfOk result (λ t. IsShaped classes.now (term_view term.now) under (tree_view t)) }
    ensures refused { IfErr result (IsMisshaped classes.now (term_view term.now) under) }
{
    match shape_tree(alloc, classes, term, under) {
        Ok(tree) => Ok(tree),
        // A name that is no class's counts before all else, and is looked for only where there is no tree.
        Err(fault) => {
            if is_known(classes, term) {
                Err(fault)
            } else {
                Err(ShapeFault::Class)
            }
        }
    }
}

fn is_known_name(classes: &ClassTable, name: &str) -> bool
    ensures { result ≡ names_concrete_class classes.now name.now }
{
    match classes.id_of(name) {
        None => false,
        Some(class) => !classes.is_abstract(class),
    }
}

#[cycle(known)]
fn is_known(classes: &ClassTable, term: &Term) -> bool
    ensures { result ≡ names_classes classes.now (term_view term.now) }
{
    if !is_known_name(classes, term.name.as_str()) {
        return false;
    }
    for cell in &term.cells {
        if !is_cell_known(classes, cell) {
            return false;
        }
    }
    true
}

#[cycle(known)]
fn is_cell_known(classes: &ClassTable, cell: &TermCell) -> bool
    ensures { result ≡ cell_names_classes classes.now (cell_view cell.now) }
{
    match cell {
        TermCell::One(term) => is_known(classes, term),
        TermCell::Many(terms) => are_known(classes, terms),
        TermCell::Empty => true,
        TermCell::Holds(_) => true,
    }
}

#[cycle(known)]
fn are_known(classes: &ClassTable, terms: &[Term]) -> bool
    ensures { result ≡ terms_name_classes classes.now (to_terms (map term_view terms.now)) }
{
    for term in terms {
        if !is_known(classes, term) {
            return false;
        }
    }
    true
}

#[cycle(shape)]
fn shape_tree(
    alloc: Global,
    classes: &ClassTable,
    term: &Term,
    under: ClassId,
) -> Result<Tree, ShapeFault>
    ensures sound { AreSound classes.now }
    ensures found { IfOk result (λ t. shaped classes.now (term_view term.now) under ≡ Some (tree_view t)) }
    ensures refused { IfErr result (IsNoneAtFit (shaped classes.now (term_view term.now) under)) }
{
    let Some(class) = classes.id_of(term.name.as_str()) else {
        return Err(ShapeFault::Fit);
    };
    if !classes.fits(class, under) {
        return Err(ShapeFault::Fit);
    }
    let cells = shape_cells(alloc, classes, &term.cells, classes.parts(class))?;
    Ok(Tree { class, cells })
}

/// A copy of what is fixed in a component, where it is of the shape.
fn plant(
    alloc: Global,
    classes: &ClassTable,
    fixed: &Cell,
    shape: PartShape,
) -> Result<Cell, ShapeFault>
    ensures found { IfOk result (λ c. fixed_shaped classes.now (tree_cell_view fixed.now) (shape_view shape) ≡ Some (tree_cell_view c)) }
    ensures refused { IfErr result (IsNoneAtFit (fixed_shaped classes.now (tree_cell_view fixed.now) (shape_view shape))) }
{
    if !cell_fits(classes, fixed, shape) {
        return Err(ShapeFault::Fit);
    }
    Ok(fixed.copied(alloc)?)
}

/// What the components hold: what is fixed in them, and in the others the cells that are written.
#[cycle(shape)]
fn shape_cells(
    alloc: Global,
    classes: &ClassTable,
    written: &[TermCell],
    parts: &[Part],
) -> Result<Vec<Cell>, ShapeFault>
    ensures found { IfOk result
        (λ v. parts_shaped classes.now (to_cells (map cell_view written.now)) (map part_view parts.now) ≡ Some (to_tree_cells (map tree_cell_view v.items))) }
    ensures refused { IfErr result (IsNoneAtFit (parts_shaped classes.now (to_cells (map cell_view written.now)) (map part_view parts.now))) }
{
    let mut cells = Vec::with_capacity(alloc, parts.len())?;
    let mut taken = 0;
    for part in parts {
        if let Some(fixed) = &part.fixed {
            cells.push(plant(alloc, classes, fixed, part.shape)?)?;
            continue;
        }
        if taken >= written.len() {
            return Err(ShapeFault::Fit);
        }
        cells.push(shape_cell(alloc, classes, &written[taken], part.shape)?)?;
        taken += 1;
    }
    if taken < written.len() {
        return Err(ShapeFault::Fit);
    }
    Ok(cells)
}

#[cycle(shape)]
fn shape_cell(
    alloc: Global,
    classes: &ClassTable,
    cell: &TermCell,
    shape: PartShape,
) -> Result<Cell, ShapeFault>
    ensures found { IfOk result (λ c. cell_shaped classes.now (cell_view cell.now) (shape_view shape) ≡ Some (tree_cell_view c)) }
    ensures refused { IfErr result (IsNoneAtFit (cell_shaped classes.now (cell_view cell.now) (shape_view shape))) }
{
    match (cell, shape) {
        (TermCell::One(term), PartShape::One(class)) => Ok(Cell::One(shape_tree(
            alloc, classes, term, class,
        )?)),
        (TermCell::One(term), PartShape::Maybe(class)) => Ok(Cell::Filled(shape_tree(
            alloc, classes, term, class,
        )?)),
        (TermCell::Many(terms), PartShape::Many(class)) => Ok(Cell::Many(shape_list(
            alloc, classes, terms, class,
        )?)),
        (TermCell::Empty, PartShape::Maybe(_)) => Ok(Cell::Empty),
        (TermCell::Holds(value), PartShape::Tok(kind)) => {
            if !is_of_kind(value, kind) {
                return Err(ShapeFault::Fit);
            }
            Ok(Cell::Tok(value.copied(alloc)?))
        }
        _ => Err(ShapeFault::Fit),
    }
}

#[cycle(shape)]
fn shape_list(
    alloc: Global,
    classes: &ClassTable,
    terms: &[Term],
    under: ClassId,
) -> Result<Vec<Tree>, ShapeFault>
    ensures found { IfOk result (λ v. terms_shaped classes.now (to_terms (map term_view terms.now)) under ≡ Some (to_trees (map tree_view v.items))) }
    ensures refused { IfErr result (IsNoneAtFit (terms_shaped classes.now (to_terms (map term_view terms.now)) under)) }
{
    let mut trees = Vec::with_capacity(alloc, terms.len())?;
    for term in terms {
        trees.push(shape_tree(alloc, classes, term, under)?)?;
    }
    Ok(trees)
}
