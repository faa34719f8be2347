//! The trees that constants stand for.

ghost use Rattle.std.specs.Prelude.{◌≡◌, ◌&&◌, ◌++◌, ◌∷◌, [], nat_le, None, Some, false, true, if◌then◌else◌, map, min, option_map, IfErr, IfOk, OnOk};
ghost use Rattle.at_model.specs.Edits.{usual_nodes};
ghost use Rattle.at_model.specs.Terms.{max_depth};
ghost use Rattle.at_model.specs.Trees.{depth, nodes, to_trees, trees_depth, trees_nodes};
ghost use Rattle.at_model.specs.Shaping.{cell_names_classes, names_classes, shaped, terms_name_classes, terms_shaped};
ghost use Rattle.at_class.specs.TreeView.{cell_view, tree_view};
ghost use Rattle.at_tree.specs.View.{cell_view as term_cell_view, term_view, to_terms};
ghost use Rattle.at_java.specs.Seen.{constant_view};
ghost use Rattle.at_start.specs.Constants.{cell_over, cell_under, fixed_in, is_moderate, made_over, stands};
ghost use Rattle.at_start.specs.Unmade.{IsUnknown, IsUnmade};

use at_class::{ClassId, ClassTable};
use at_java::Constant;
use at_store::USUAL_NODES;
use at_tree::reader::MAX_DEPTH;
use at_tree::term::{Term, TermCell};
use at_tree::tree::{Cell, ShapeFault, Tree, depth, nodes, shape};
use std::alloc::{AllocError, AllocFailed, Global};

/// Why nothing is made of what is written of a constant.
#[derive(Drop)]
pub enum CellFault {
    /// A name in it isn't that of a class of which there are nodes.
    Class,
    /// It makes no tree, or no list.
    Fit,
    /// Want of memory.
    Memory,
}

/// Whether it has no more nodes and levels than trees may have where nothing else is said.
pub fn is_moderate(cell: &Cell) -> bool
    ensures { result ≡ is_moderate (cell_view cell.now) }
{
    match cell {
        Cell::One(tree) => is_small(tree),
        Cell::Filled(tree) => is_small(tree),
        Cell::Many(trees) => are_small(trees),
        Cell::Empty => true,
        Cell::Tok(_) => true,
    }
}

/// Whether the tree has no more of them.
fn is_small(tree: &Tree) -> bool
    ensures { result ≡ (nat_le (nodes (tree_view tree.now)) usual_nodes && nat_le (depth (tree_view tree.now)) max_depth) }
{
    nodes(tree) <= USUAL_NODES as usize && depth(tree) <= MAX_DEPTH
}

/// Whether the trees together have no more of them.
fn are_small(trees: &[Tree]) -> bool
    ensures { result ≡ (nat_le (trees_nodes (to_trees (map tree_view trees.now))) usual_nodes
        && nat_le (trees_depth (to_trees (map tree_view trees.now))) max_depth) }
{
    all_nodes(trees) <= USUAL_NODES as usize && all_depth(trees) <= MAX_DEPTH
}

/// How many nodes the trees have together, or the greatest number where they have more.
fn all_nodes(trees: &[Tree]) -> usize
    ensures { result ≡ min (trees_nodes (to_trees (map tree_view trees.now))) usize.MAX }
{
    let mut count: usize = 0;
    for tree in trees {
        count = count.saturating_add(nodes(tree));
    }
    count
}

/// How many levels the deepest of them has, or the greatest number where it has more.
fn all_depth(trees: &[Tree]) -> usize
    ensures { result ≡ min (trees_depth (to_trees (map tree_view trees.now))) usize.MAX }
{
    let mut deepest: usize = 0;
    for tree in trees {
        deepest = deepest.max(depth(tree));
    }
    deepest
}

/// What is made of the constant over the classes, where it isn't too large; or want of memory.
pub fn cell_over(
    alloc: Global,
    classes: &ClassTable,
    constant: &Constant,
) -> Result<Option<Cell>, AllocError>
    ensures { IfOk result (λ o. option_map cell_view o ≡ cell_over classes.now (constant_view constant.now)) }
{
    let Some(cell) = made_over(alloc, classes, constant)? else {
        return Ok(None);
    };
    if is_moderate(&cell) {
        return Ok(Some(cell));
    }
    Ok(None)
}

/// What is made of the constant over the classes; or want of memory.
pub fn made_over(
    alloc: Global,
    classes: &ClassTable,
    constant: &Constant,
) -> Result<Option<Cell>, AllocError>
    ensures { IfOk result (λ o. option_map cell_view o ≡ made_over classes.now (constant_view constant.now)) }
{
    let Some(kind) = classes.id_of(constant.kind.text.as_str()) else {
        return Ok(None);
    };
    match cell_shaped(alloc, classes, &constant.cell, kind) {
        Ok(cell) => Ok(Some(cell)),
        Err(CellFault::Class) => Ok(None),
        Err(CellFault::Fit) => Ok(None),
        Err(CellFault::Memory) => Err(AllocError),
    }
}

/// The tree that a term makes under the class, or the list that terms make.
///
/// # Errors
///
/// `Class` where a name is no class's, and else `Fit`. `Memory` for want of memory.
pub fn cell_shaped(
    alloc: Global,
    classes: &ClassTable,
    cell: &TermCell,
    kind: ClassId,
) -> Result<Cell, CellFault>
    ensures found { IfOk result (λ d. cell_under classes.now (term_cell_view cell.now) kind ≡ Some (cell_view d)) }
    ensures refused { IfErr result (IsUnmade (cell_names_classes classes.now (term_cell_view cell.now))
        (cell_under classes.now (term_cell_view cell.now) kind)) }
{
    match cell {
        TermCell::One(term) => Ok(Cell::One(tree_shaped(alloc, classes, term, kind)?)),
        TermCell::Many(terms) => Ok(Cell::Many(list_shaped(alloc, classes, terms, kind)?)),
        TermCell::Empty => Err(CellFault::Fit),
        TermCell::Holds(_) => Err(CellFault::Fit),
    }
}

fn tree_shaped(
    alloc: Global,
    classes: &ClassTable,
    term: &Term,
    kind: ClassId,
) -> Result<Tree, CellFault>
    ensures known { OnOk result (names_classes classes.now (term_view term.now) ≡ true) }
    ensures found { IfOk result (λ u. shaped classes.now (term_view term.now) kind ≡ Some (tree_view u)) }
    ensures refused { IfErr result (IsUnmade (names_classes classes.now (term_view term.now)) (shaped classes.now (term_view term.now) kind)) }
{
    match shape(alloc, classes, term, kind) {
        Ok(tree) => Ok(tree),
        Err(ShapeFault::Class) => Err(CellFault::Class),
        Err(ShapeFault::Fit) => Err(CellFault::Fit),
        Err(ShapeFault::Memory) => Err(CellFault::Memory),
    }
}

/// The trees that the terms make. A name that is no class's counts before all else.
fn list_shaped(
    alloc: Global,
    classes: &ClassTable,
    terms: &[Term],
    kind: ClassId,
) -> Result<Vec<Tree>, CellFault>
    ensures found { IfOk result (λ us. terms_shaped classes.now (to_terms (map term_view terms.now)) kind ≡ Some (to_trees (map tree_view us.items))) }
    ensures refused { IfErr result (IsUnmade (terms_name_classes classes.now (to_terms (map term_view terms.now)))
        (terms_shaped classes.now (to_terms (map term_view terms.now)) kind)) }
{
    let mut trees = Vec::new(alloc);
    let mut fit = true;
    for term in terms {
        let is_made = append_tree(alloc, classes, term, kind, &mut trees)?;
        if is_made {
            continue;
        }
        fit = false;
    }
    if fit {
        return Ok(trees);
    }
    Err(CellFault::Fit)
}

/// Adds the term's tree, and says whether it makes one.
fn append_tree(
    alloc: Global,
    classes: &ClassTable,
    term: &Term,
    kind: ClassId,
    trees: &mut Vec<Tree>,
) -> Result<bool, CellFault>
    ensures known { OnOk result (names_classes classes.now (term_view term.now) ≡ true) }
    ensures added { IfOk result (λ made. option_map (λ u. map tree_view trees.old.items ++ u ∷ []) (shaped classes.now (term_view term.now) kind)
        ≡ (if made then Some (map tree_view trees.new.items) else None)) }
    ensures refused { IfErr result (IsUnknown (names_classes classes.now (term_view term.now)) (shaped classes.now (term_view term.now) kind)) }
{
    match tree_shaped(alloc, classes, term, kind) {
        Ok(tree) => {
            trees.push(tree)?;
            Ok(true)
        }
        Err(CellFault::Fit) => Ok(false),
        Err(CellFault::Class) => Err(CellFault::Class),
        Err(CellFault::Memory) => Err(CellFault::Memory),
    }
}

impl From<AllocError> for CellFault {
    ghost use Rattle.at_start.specs.declared.constants.shaping.CellFault.TheVariants.{Memory};

    ghost from_gives = { λ _ e. e ≡ Memory };

    fn from(_e: AllocError) -> CellFault {
        CellFault::Memory
    }
}

impl<T: Drop> From<AllocFailed<T>> for CellFault {
    ghost use Rattle.at_start.specs.declared.constants.shaping.CellFault.TheVariants.{Memory};

    ghost from_gives = { λ _ e. e ≡ Memory };

    fn from(_e: AllocFailed<T>) -> CellFault {
        CellFault::Memory
    }
}

/// What is fixed in the constant's component.
fn fixed_in<'a>(classes: &'a ClassTable, constant: &Constant) -> Option<&'a Cell>
    ensures { option_map (λ c. cell_view c.now) result ≡ fixed_in classes.now (constant_view constant.now) }
{
    let class = classes.id_of(constant.class.text.as_str())?;
    let part = classes.part_named(class, constant.name.text.as_str())?;
    classes.parts(class)[part].fixed.as_ref()
}

/// Whether what is made of it over the classes is what is fixed in its component; or want of memory.
pub fn stands(alloc: Global, classes: &ClassTable, constant: &Constant) -> Result<bool, AllocError>
    ensures { IfOk result (λ b. b ≡ stands classes.now (constant_view constant.now)) }
{
    let Some(fixed) = fixed_in(classes, constant) else {
        return Ok(false);
    };
    let Some(cell) = cell_over(alloc, classes, constant)? else {
        return Ok(false);
    };
    Ok(fixed.is_same(&cell))
}
