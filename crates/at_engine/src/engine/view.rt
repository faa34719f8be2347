//! What the words of a line are read over.

ghost use Rattle.std.specs.Prelude.{◌≡◌, true};
ghost use Rattle.at_model.specs.Classes.{AreSound};
ghost use Rattle.at_model.specs.Trees.{conforms};
ghost use Rattle.at_store.specs.Shown.{IsIdle, path, tree};
ghost use Rattle.at_engine.specs.Marks.{AreThere};
ghost use Rattle.at_evaluate.specs.OneProof.{idle_prop};
ghost use Rattle.at_engine.specs.OneProof.{classes_prop, there_prop};

use crate::marks::Lookup;
use at_rules::Rules;
use at_store::Store;
use std::alloc::Global;

/// What the words of a line are read over: rules, a tree that conforms to them, in which no edit waits, and marks of nodes that
/// are there.
#[derive(Drop)]
pub struct View<'e, M: Lookup> {
    pub(super) alloc: Global,
    pub(super) rules: &'e Rules,
    pub(super) store: &'e Store,
    pub(super) marks: &'e M,
    ghost idle: { IsIdle store.now } by { idle_prop store.now },
    ghost sound: { AreSound rules.now.classes } by { classes_prop rules.now.classes },
    ghost conforming: { conforms rules.now.classes (tree store.now) 0 ≡ true },
    ghost there: { AreThere (path store.now) (M.marks marks.now) } by { there_prop (path store.now) (M.marks marks.now) },
}
