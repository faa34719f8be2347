//! The tree that a text is written of.
ghost use Rattle.std.specs.Prelude.{◌≡◌, IfOk, IfErr, true};
ghost use Rattle.at_model.specs.Terms.{IsTerm, term_of, tree_text};
ghost use Rattle.at_model.specs.Trees.{Tree as Nodes, conforms};
ghost use Rattle.at_class.specs.TreeView.{tree_view};
ghost use Rattle.at_tree.specs.ReadTrees.{IsReadAs, IsUnread, ReadsTree, ReadsTrees};

use super::Tree;
use super::direct::whole_tree;
use super::shaping::{ShapeFault, shape};
use crate::fault::{TermFault, Untaken};
use crate::reader::read_term;
use at_class::{ClassId, ClassTable};
use std::alloc::Global;

/// Why a text is no tree's under a class.
#[derive(Drop)]
pub enum ReadFault {
    /// It is no term's: the offset in bytes of the first character with which no term's text goes
    /// on, or the end of the text where more was needed.
    Syntax { at: usize },
    /// A name in its term is that of no class, or of an abstract one.
    Class,
    /// No tree that conforms is written as its term.
    Fit,
    /// Memory was wanting.
    Memory,
}

impl From<TermFault> for ReadFault {
    ghost use Rattle.std.specs.Prelude.{◌≡◌};
    ghost use Rattle.at_tree.specs.ReadTrees.{of_term};

    ghost from_gives = { λ f e. e ≡ of_term f };

    fn from(fault: TermFault) -> Self {
        match fault {
            TermFault::Syntax { at } => ReadFault::Syntax { at },
            TermFault::Memory => ReadFault::Memory,
        }
    }
}

impl From<ShapeFault> for ReadFault {
    ghost use Rattle.std.specs.Prelude.{◌≡◌};
    ghost use Rattle.at_tree.specs.ReadTrees.{of_shape};

    ghost from_gives = { λ f e. e ≡ of_shape f };

    fn from(fault: ShapeFault) -> Self {
        match fault {
            ShapeFault::Class => ReadFault::Class,
            ShapeFault::Fit => ReadFault::Fit,
            ShapeFault::Memory => ReadFault::Memory,
        }
    }
}

/// The tree that conforms under the class and that the text is written of, as `read_term` and then
/// `shape` find it. A tree that was written as a term is read again as that tree.
///
/// # Errors
///
/// `Syntax` where the text is no term's; `Class` where any name in its term is that of no class, or
/// of an abstract one; else `Fit` where there is no such tree; `Memory` where memory is wanting.
pub fn read_tree(
    alloc: Global,
    classes: &ClassTable,
    text: &str,
    under: ClassId,
) -> Result<Tree, ReadFault>
    // The text is that of the term that the tree is written as.
    ensures found { IfOk result (λ t. IsReadAs classes.now text.now under (tree_view t)) }
    // Else there is no term, or no tree of it.
    ensures refused { IfErr result (IsUnread classes.now text.now under) }
    // A tree that is written as the text is the one that is read, unless memory runs out.
    ensures again { (u : Nodes) → conforms classes.now u under ≡ true → IsTerm (term_of classes.now u) → tree_text classes.now u ≡ text.now
        → ReadsTree result u }
{
    match whole_tree(alloc, classes, text, under) {
        Ok(tree) => Ok(tree),
        Err(Untaken::Memory) => Err(ReadFault::Memory),
        Err(Untaken::For(_)) => read_by_term(alloc, classes, text, under),
    }
}

/// The same by the text's term, which shows the first fault. It goes over the text and the term several times.
fn read_by_term(
    alloc: Global,
    classes: &ClassTable,
    text: &str,
    under: ClassId,
) -> Result<Tree, ReadFault>
    ensures { ReadsTrees classes.now text.now under result }
{
    let term = read_term(alloc, text)?;
    Ok(shape(alloc, classes, &term, under)?)
}
