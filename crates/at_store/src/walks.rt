//! Paths to nodes and from them, and the trees below nodes.
ghost use Rattle.std.specs.Prelude.{◌≡◌, ◌<◌, ◌≤◌, ◌⊎◌, ℕ, IfOk, [], None, Some, length, map, option_and_then, option_map, string_bytes};
ghost use Rattle.std.specs.Option.{option_copied};
ghost use Rattle.at_model.specs.Classes.{Component, parts};
ghost use Rattle.at_model.specs.Names.{IsName};
ghost use Rattle.std.specs.List.{slice_get};
ghost use Rattle.at_model.specs.Paths.{ArePartsApart, IsPath, Node as Place, Path, index_in as index_of, path_of, place_in, step_in, tree_at};
ghost use Rattle.at_model.specs.Trees.{Tree as Numbered, Node as bare, no_cells};
ghost use Rattle.at_class.specs.View.{part_view, shape_view};
ghost use Rattle.at_tree.specs.PathView.{step_view, steps_view};
ghost use Rattle.at_tree.specs.TreeView.{cell_view, tree_view};
ghost use Rattle.at_store.specs.Grown.{grown_cell, shown_below};
ghost use Rattle.at_store.specs.Led.{Led};
ghost use Rattle.at_store.specs.Memory.{Keeps, Kids, StandsOnce, class_in, index_in, kids_in};
ghost use Rattle.at_store.specs.Numbers.{path_in, relabel};
ghost use Rattle.at_store.specs.View.{form_view, kept_view, memory_of};

use crate::entry::{Entry, Form, Slot, class_at, index_at, kid_at, slots_at, up_at};
use crate::node::Node;
use at_class::{ClassId, ClassTable, Part, PartShape};
use at_tree::path::Step;
use at_tree::tree::{Cell, Tree};
use slab::Slab;
use std::alloc::{AllocError, Global};
use std::borrow::CowStr;

/// The position among the children: an index stands exactly for a list.
fn place_in(shape: PartShape, index: Option<u32>) -> Option<usize>
    ensures { result ≡ place_in (shape_view shape) index }
{
    match (shape, index) {
        (PartShape::One(_), None) => Some(0),
        (PartShape::Maybe(_), None) => Some(0),
        (PartShape::Many(_), Some(index)) => Some(index as usize),
        _ => None,
    }
}

/// The component of a class and the position in it to which a step leads.
fn way_by(classes: &ClassTable, class: ClassId, step: &Step<'_>) -> Option<(usize, usize)>
    ensures { result ≡ step_in classes.now (bare class no_cells) (step_view step.now) }
{
    if class.index() >= classes.len() {
        return None;
    }
    let part = classes.part_named(class, step.part.as_str())?;
    let index = place_in(classes.parts(class)[part].shape, step.index)?;
    Some((part, index))
}

/// The node to which one step leads.
fn step_from(slab: &Slab<Entry>, classes: &ClassTable, node: Node, step: &Step<'_>) -> Option<Node>
    ensures { result
        ≡ option_and_then (λ way. slice_get (kids_in (memory_of slab.now node) way.0) way.1)
        (step_in classes.now (bare (class_in (memory_of slab.now) node) no_cells) (step_view step.now)) }
{
    let (part, index) = way_by(classes, class_at(slab, node), step)?;
    kid_at(slab, node, part, index)
}

/// The node to which steps lead.
pub(crate) fn walk(
    slab: &Slab<Entry>,
    classes: &ClassTable,
    from: Node,
    steps: &[Step<'_>],
) -> Option<Node>
    ensures { (s : Numbered) (n : Place) (u : Numbered) → Keeps (memory_of slab.now) s None → path_in from s ≡ Some n → tree_at s n ≡ Some u
        → Led s classes.now n (relabel (class_in (memory_of slab.now)) u) (steps_view steps.now) result }
{
    let mut node = from;
    for step in steps {
        let next = step_from(slab, classes, node, step)?;
        node = next;
    }
    Some(node)
}

/// The index that a step has.
fn step_index(shape: PartShape, index: usize) -> Option<u32>
    requires { index < 16777216 }
    ensures { result ≡ index_of (shape_view shape) index }
{
    match shape {
        PartShape::Many(_) => Some(index as u32),
        _ => None,
    }
}

fn part_in(parts: &[Part], part: usize) -> Option<&Part>
    ensures { option_map part_view (option_copied result) ≡ slice_get (map part_view parts.now) part }
{
    parts.get(part)
}

/// A component of a class.
pub(crate) fn part_of(classes: &ClassTable, class: ClassId, part: usize) -> Option<&Part>
    ensures found { option_map part_view (option_copied result) ≡ slice_get (parts classes.now class) part }
    ensures named { (p : Component) → slice_get (parts classes.now class) part ≡ Some p → IsName p.name }
    ensures apart { ArePartsApart classes.now }
{
    if class.index() >= classes.len() {
        return None;
    }
    part_in(classes.parts(class), part)
}

/// The step by a component to a position.
fn step_by(alloc: Global, part: &Part, index: usize) -> Result<Step<'static>, AllocError>
    requires { index < 16777216 }
    ensures { IfOk result (λ s. step_view s ≡ record { part = string_bytes part.now.name; index = index_of (shape_view part.now.shape) index }) }
{
    Ok(Step {
        part: CowStr::Owned(String::from_str(alloc, part.name.as_str())?),
        index: step_index(part.shape, index),
    })
}

/// The steps from the root to a node, at most so many.
pub(crate) fn steps_to(
    alloc: Global,
    slab: &Slab<Entry>,
    classes: &ClassTable,
    node: Node,
    most: usize,
) -> Result<Vec<Step<'static>>, AllocError>
    requires { (k : ℕ) → StandsOnce (memory_of slab.now) k × (index_in (memory_of slab.now k) < 16777216) }
    ensures written { IfOk result (λ steps. IsPath (steps_view steps.items)) }
    ensures led { IfOk result (λ steps. (s : Numbered) (n : Place) (p : Path) → Keeps (memory_of slab.now) s None → path_in node s ≡ Some n → length n ≤ most
        → path_of classes.now (relabel (class_in (memory_of slab.now)) s) n ≡ Some p → steps_view steps.items ≡ p) }
    ensures apart { IfOk result (λ steps. (s : Numbered) (n : Place) → Keeps (memory_of slab.now) s None → path_in node s ≡ Some n → length n ≤ most
        → (n ≡ []) ⊎ ArePartsApart classes.now) }
{
    if most == 0 {
        return Ok(Vec::new(alloc));
    }
    let Some(place) = up_at(slab, node) else {
        return Ok(Vec::new(alloc));
    };
    let mut steps = steps_to(alloc, slab, classes, place.0, most - 1)?;
    let Some(component) = part_of(classes, class_at(slab, place.0), place.1) else {
        return Ok(steps);
    };
    steps.push(step_by(alloc, component, index_at(slab, node))?)?;
    Ok(steps)
}

/// A copy of the tree below a node, so many levels down.
#[cycle(copy)]
pub(crate) fn tree_at(
    alloc: Global,
    slab: &Slab<Entry>,
    node: Node,
    levels: usize,
) -> Result<Tree, AllocError>
    ensures { IfOk result (λ t. tree_view t ≡ shown_below (memory_of slab.now) levels node) }
{
    let class = class_at(slab, node);
    let mut cells = Vec::new(alloc);
    if levels == 0 {
        return Ok(Tree { class, cells });
    }
    for slot in slots_at(slab, node) {
        cells.push(cell_at(alloc, slab, slot, levels - 1)?)?;
    }
    Ok(Tree { class, cells })
}

#[cycle(copy)]
fn cell_at(
    alloc: Global,
    slab: &Slab<Entry>,
    slot: &Slot,
    levels: usize,
) -> Result<Cell, AllocError>
    ensures { IfOk result (λ c. cell_view c ≡ grown_cell (shown_below (memory_of slab.now) levels) (kept_view slot.now)) }
{
    match slot {
        Slot::Token(value) => Ok(Cell::Tok(value.copied(alloc)?)),
        Slot::Kids(form, _, kids) => kids_cell(alloc, slab, *form, kids.as_slice(), levels),
    }
}

#[cycle(copy)]
fn kids_cell(
    alloc: Global,
    slab: &Slab<Entry>,
    form: Form,
    kids: &[Node],
    levels: usize,
) -> Result<Cell, AllocError>
    ensures { IfOk result (λ c. cell_view c ≡ grown_cell (shown_below (memory_of slab.now) levels) (Kids (form_view form) kids.now)) }
{
    match form {
        Form::List => Ok(Cell::Many(trees_at(alloc, slab, kids, levels)?)),
        Form::Plain => match kids.first() {
            Some(kid) => Ok(Cell::One(tree_at(alloc, slab, *kid, levels)?)),
            None => Ok(Cell::Empty),
        },
        Form::Optional => match kids.first() {
            Some(kid) => Ok(Cell::Filled(tree_at(alloc, slab, *kid, levels)?)),
            None => Ok(Cell::Empty),
        },
    }
}

#[cycle(copy)]
fn trees_at(
    alloc: Global,
    slab: &Slab<Entry>,
    kids: &[Node],
    levels: usize,
) -> Result<Vec<Tree>, AllocError>
    ensures { IfOk result (λ ts. map tree_view ts.items ≡ map (shown_below (memory_of slab.now) levels) kids.now) }
{
    let mut trees = Vec::new(alloc);
    for kid in kids {
        trees.push(tree_at(alloc, slab, *kid, levels)?)?;
    }
    Ok(trees)
}
