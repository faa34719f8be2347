//! The tree of a tree file.

ghost use Rattle.std.specs.Prelude.{◌≡◌, true, IfOk, IfErr};
ghost use Rattle.at_model.specs.Classes.{AreSound};
ghost use Rattle.at_model.specs.Terms.{term_of};
ghost use Rattle.at_model.specs.Trees.{conforms};
ghost use Rattle.at_tree.specs.TreeView.{tree_view};
ghost use Rattle.at_start.specs.Files.{IsText, tree_bytes as most_bytes};
ghost use Rattle.at_start.specs.TreeFiles.{IsTermFile, IsTreeFault, IsWithoutNewline};

use super::files::{text_of, tree_bytes};
use crate::code::Code;
use at_class::ClassTable;
use at_text::fault::Failure;
use at_tree::tree::{ReadFault, Tree, read_tree};
use std::alloc::Global;

/// The tree of a file that is one term and at most one newline after it, as long as that of a tree of so many nodes may be. How many it
/// has is not looked at.
///
/// # Errors
///
/// The code of the first fault: a file that is too long or no UTF-8, a text that is no term, a name that
/// is not that of a concrete class, a term that fits no tree. `Memory` for want of memory.
pub fn tree_of(
    alloc: Global,
    classes: &ClassTable,
    nodes: u32,
    bytes: &[u8],
) -> Result<Tree, Failure<Code>>
    ensures text { IfOk result (λ t. IsText (most_bytes nodes) bytes.now) }
    ensures written { IfOk result (λ t. IsTermFile bytes.now (term_of classes.now (tree_view t))) }
    ensures sound { IfOk result (λ t. AreSound classes.now) }
    ensures whole { IfOk result (λ t. conforms classes.now (tree_view t) 0 ≡ true) }
    ensures refused { IfErr result (IsTreeFault classes.now nodes bytes.now) }
{
    let text = match text_of(bytes, tree_bytes(nodes), Code::TreeLimit, Code::TreeSyntax) {
        Ok(text) => text,
        Err(code) => return Err(Failure::For(code)),
    };
    match read_tree(alloc, classes, without_newline(text), classes.start()) {
        Ok(tree) => Ok(tree),
        Err(ReadFault::Syntax { at: _ }) => Err(Failure::For(Code::TreeSyntax)),
        Err(ReadFault::Class) => Err(Failure::For(Code::TreeClass)),
        Err(ReadFault::Fit) => Err(Failure::For(Code::TreeFit)),
        Err(ReadFault::Memory) => Err(Failure::Memory),
    }
}

/// The text without the newline at its end, where one stands there.
fn without_newline(text: &str) -> &str
    ensures { IsWithoutNewline text.now result.now }
{
    text.strip_suffix('\n').unwrap_or(text)
}
