//! Laws of trees and the terms that they are written as: each is the contract of a function that does nothing. The classes of
//! a table are sound, as its `len` says.
ghost use Rattle.at_model.specs.Classes.{AreSound, Classes};
ghost use Rattle.at_tree.specs.TreeLaws.{OneTreeForATerm, TreesAreTerms};

/// No two trees that conform under one class are written as the same term.
pub fn one_tree_for_a_term()
    ensures { (classes : Classes) → AreSound classes → OneTreeForATerm classes }
{}

/// What is written of a conforming tree is a term, where the tree has at most 512 levels.
pub fn trees_are_terms()
    ensures { (classes : Classes) → AreSound classes → TreesAreTerms classes }
{}
