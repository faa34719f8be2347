//! The rules and the tree that tries are over.

ghost use Rattle.std.specs.Prelude.{map, IfOk};
ghost use Rattle.at_model.specs.Enduring.{AreTokens};
ghost use Rattle.at_model.specs.WellFormed.{AreWellFormed, IsHierarchy};
ghost use Rattle.at_tree.specs.TreeView.{tree_view};
ghost use Rattle.at_jrag.specs.View.{aspect_view};
ghost use Rattle.at_typing.specs.Located.{IsSpelled};
ghost use Rattle.tries.specs.Worlds.{IsSound};

use crate::failure::Failure;
use at_class::{ClassFault, ClassTable, are_named};
use at_grammar::{AstFault, parse_ast};
use at_jrag::{Aspect, Forms, JragFault, parse_jrag};
use at_kinds::Arguments;
use at_rules::Rules;
use at_store::{LoadFault, Store, USUAL_NODES};
use at_tree::tree::{ReadFault, Tree, read_tree};
use at_typing::{RuleFault, build};
use std::alloc::Global;
use std::slice::from_ref;

/// The rules and the tree that tries are over.
pub struct World {
    pub alloc: Global,
    pub rules: Rules,
    pub store: Store,
}

/// One call, where each exit that lets it go would else have a case for each field.
impl Drop for World {
    fn drop(self) {
        let World {
            alloc: _,
            rules: _,
            store: _,
        } = self;
    }
}

/// The world of the three files' texts; in aspects these forms are read.
///
/// # Errors
///
/// The first file that is refused, or want of memory.
pub fn load(
    alloc: Global,
    forms: Forms,
    grammar: &str,
    aspects: &str,
    tree: &str,
) -> Result<World, Failure>
    ensures { IfOk result IsSound }
{
    let rules = rules(alloc, forms, grammar, aspects)?;
    let tree = tree_of(alloc, rules.classes(), tree)?;
    match Store::load(alloc, rules.classes(), tree, USUAL_NODES as usize) {
        Ok(store) => Ok(World {
            alloc,
            rules,
            store,
        }),
        Err(LoadFault::Memory) => Err(Failure::Memory),
        Err(_) => Err(Failure::Tree),
    }
}

fn rules(alloc: Global, forms: Forms, grammar: &str, aspects: &str) -> Result<Rules, Failure>
    ensures { IfOk result AreWellFormed }
{
    let classes = classes(alloc, grammar)?;
    let aspects = aspects_of(alloc, forms, aspects)?;
    match build(alloc, classes, Arguments::Given, from_ref(&aspects)) {
        Ok(rules) => Ok(rules),
        Err(RuleFault::Memory) => Err(Failure::Memory),
        Err(RuleFault::For(_)) => Err(Failure::Aspects),
    }
}

fn classes(alloc: Global, text: &str) -> Result<ClassTable, Failure>
    ensures { IfOk result IsHierarchy }
{
    let grammar = match parse_ast(alloc, text) {
        Ok(grammar) => grammar,
        Err(AstFault::Memory) => return Err(Failure::Memory),
        Err(_) => return Err(Failure::Grammar),
    };
    if !are_named(&grammar) {
        return Err(Failure::Grammar);
    }
    match ClassTable::build(alloc, &grammar) {
        Ok(classes) => Ok(classes),
        Err(ClassFault::Memory) => Err(Failure::Memory),
        Err(_) => Err(Failure::Grammar),
    }
}

fn aspects_of(alloc: Global, forms: Forms, text: &str) -> Result<Vec<Aspect>, Failure>
    ensures { IfOk result (λ v. IsSpelled (map aspect_view v.items)) }
{
    match parse_jrag(alloc, text, forms) {
        Ok(aspects) => Ok(aspects),
        Err(JragFault::Memory) => Err(Failure::Memory),
        Err(_) => Err(Failure::Aspects),
    }
}

/// The tree of a term, behind which a newline may stand.
fn tree_of(alloc: Global, classes: &ClassTable, text: &str) -> Result<Tree, Failure>
    ensures { IfOk result (λ t. AreTokens (tree_view t)) }
{
    let term = text.strip_suffix('\n').unwrap_or(text);
    match read_tree(alloc, classes, term, classes.start()) {
        Ok(tree) => Ok(tree),
        Err(ReadFault::Memory) => Err(Failure::Memory),
        Err(_) => Err(Failure::Tree),
    }
}
