//! Worked cases on the samples: each function's contract has a few, and computing proves them.

ghost use Rattle.std.specs.Prelude.{◌≡◌, ◌∷◌, None, Some, [], codes, false, negsuc, option_map, pos, true};
ghost use Rattle.at_model.specs.Terms.{tree_text};
ghost use Rattle.at_model.specs.Paths.{Node, path_of, path_text, tree_at};
ghost use Rattle.at_model.specs.Run.{Idx, Instance, Int, Is, Null, Ref, Slot, Text, Tok, Truth, Up, Zero};
ghost use Rattle.at_model.specs.Bodies.{IntLiteral};
ghost use Rattle.at_model.specs.Rules.{Exposed, inherited_equation, source_of};
ghost use Rattle.at_model.specs.Meaning.{
  Answers,
  Circle,
  Circular,
  Comes,
  Faults,
  Finds,
  Outcomes,
  content,
  equations,
};
ghost use Rattle.at_model.specs.Support.{Supports};
ghost use Rattle.at_model.specs.Samples.{
  Gets,
  Replies,
  block,
  calc,
  calc_classes,
  calc_tree,
  calc_without_root,
  init_of,
  layered,
  left_of,
  of_node,
  of_node_with,
  printed,
  reads_of,
  right_of,
  root,
  statement,
  sum_rules,
  sum_tree,
  tree_of_ones,
  tree_with_circle,
  tree_without_decl,
};

/// The sample tree as a term, and a node of it as a path.
pub fn sample_texts()
    ensures tree { tree_text calc_classes calc_tree ≡ codes "Program(Block([Decl(\"x\",Num(1)),Print(Add(Use(\"x\"),Num(2)))]))" }
    ensures path { option_map path_text (path_of calc_classes calc_tree (left_of 1)) ≡ Some (codes "/Block/Stmt:1/Expr/Left") }
{}

/// `total()` of the other sample: 3 + 4 * 2.
pub fn total()
    ensures tree { tree_text sum_rules.classes sum_tree ≡ codes "Sum(Num(3),Num(4))" }
    ensures value { Answers (content sum_tree) (equations sum_rules) (of_node root 0) (Outcomes (Finds (Int (pos 11)))) }
{}

/// `value()` of the sum, `decl()` of the use in it, and a name that is not declared.
pub fn names_and_values()
    ensures value { Gets calc_tree (of_node (printed 1) 5) (Int (pos 3)) }
    ensures decl { Gets calc_tree (of_node (left_of 1) 4) (Ref (Some (statement 0))) }
    ensures undeclared { Gets calc_tree (of_node_with block 2 (codes "q")) (Ref None) }
{}

/// Without the declaration its use has none, and the value of the use fails in its own equation.
pub fn dropped_declaration()
    ensures decl { Gets tree_without_decl (of_node (left_of 0) 4) (Ref None) }
    ensures own { Replies tree_without_decl (of_node (left_of 0) 5) (Outcomes (Faults Null (of_node (left_of 0) 5))) }
    ensures inner { Replies tree_without_decl (of_node (printed 0) 5) (Outcomes (Faults Null (of_node (left_of 0) 5))) }
{}

/// A declaration whose initial value uses it: the chain comes back to the declaration's value, not
/// to the question.
pub fn circle()
    ensures { Replies tree_with_circle (of_node (printed 1) 5) (Circle (of_node (statement 0) 6)) }
{}

/// `&&` stops when it is decided, the first fault ends the evaluation, and a circle that comes
/// before a fault is the answer.
pub fn first_come()
    ensures decided { Gets calc_tree (of_node root 11) (Truth false) }
    ensures fault { Replies calc_tree (of_node root 12) (Outcomes (Faults Zero (of_node root 12))) }
    ensures circle { Replies calc_tree (of_node root 13) (Circle (of_node root 9)) }
{}

/// Nodes of the same content are not the same node.
pub fn same_nodes()
    ensures content { tree_at tree_of_ones (left_of 1) ≡ tree_at tree_of_ones (right_of 1) }
    ensures same { Gets tree_of_ones (of_node (printed 1) 7) (Truth false) }
    ensures alike { Gets tree_of_ones (of_node (printed 1) 8) (Truth true) }
{}

/// Ints wrap at 32 bits, and join a text in decimal.
pub fn ints()
    ensures big { Gets calc_tree (of_node root 14) (Int (negsuc 2147483647)) }
    ensures join { Gets calc_tree (of_node root 15) (Text (codes "n0-7")) }
{}

/// The index of a statement, and the equation for the block that is no element of a list.
pub fn positions()
    ensures statement { Gets calc_tree (of_node (statement 1) 16) (Int (pos 1)) }
    ensures block { Gets calc_tree (of_node block 16) (Int (negsuc 0)) }
{}

/// The inherited equation of a use stands at the nearest node above that has one for the child on
/// the way, neither at its parent nor at the root.
pub fn nearest_above()
    ensures node { option_map (λ s. s.1) (source_of calc calc_tree (codes "lookup") (left_of 1)) ≡ Some block }
    ensures step { option_map (λ s. s.2) (source_of calc calc_tree (codes "lookup") (left_of 1)) ≡ Some (0, 1) }
{}

/// In one class the equation for a component comes before that for every component, and the
/// nearest class comes first.
pub fn nearest_class()
    ensures every { inherited_equation layered 2 0 (codes "a") ≡ Some (IntLiteral (pos 2)) }
    ensures one { inherited_equation layered 3 1 (codes "a") ≡ Some (IntLiteral (pos 4)) }
    ensures other { inherited_equation layered 3 0 (codes "a") ≡ Some (IntLiteral (pos 3)) }
    ensures above { inherited_equation layered 4 0 (codes "a") ≡ Some (IntLiteral (pos 1)) }
    ensures none { inherited_equation layered 4 1 (codes "a") ≡ None }
{}

/// Without the program's equation a block may stand where its `lookup` has none, and with it none does.
pub fn exposed_block()
    ensures without { Exposed calc_without_root (codes "lookup") 2 }
    ensures with { Exposed calc (codes "lookup") 2 → ⊥ }
{}

/// What an evaluation reads: the instance's class and the slots that it goes through; the way up to
/// an inherited equation; a fold's list, and not the classes of its elements; an index.
pub fn what_is_read()
    ensures sum { reads_of calc_tree (of_node (printed 1) 5) ≡ Is (printed 1) ∷ Slot (printed 1) 0 ∷ Slot (printed 1) 1 ∷ [] }
    ensures way_up { reads_of calc_tree (of_node_with (left_of 1) 0 (codes "x"))
        ≡ Is (left_of 1) ∷ Up (left_of 1) ∷ Is (printed 1) ∷ Up (printed 1) ∷ Is (statement 1) ∷ Up (statement 1) ∷ Is block ∷ [] }
    ensures fold { reads_of tree_without_decl (of_node_with block 2 (codes "x")) ≡ Is block ∷ Slot block 0 ∷ [] }
    ensures cast { reads_of calc_tree (of_node_with block 2 (codes "x")) ≡ Is block ∷ Slot block 0 ∷ Is (statement 0) ∷ [] }
    ensures index { reads_of calc_tree (of_node (statement 1) 16) ≡ Is (statement 1) ∷ Up (statement 1) ∷ Is block ∷ Idx (statement 1) ∷ [] }
    ensures token { reads_of calc_tree (of_node (right_of 1) 5) ≡ Is (right_of 1) ∷ Tok (right_of 1) 0 ∷ [] }
{}

/// A second demand of an instance is no circle: the equation of `lookup` demands `local` twice.
pub fn second_demand()
    ensures value { Gets calc_tree (of_node_with (left_of 1) 0 (codes "x")) (Ref (Some (statement 0))) }
    ensures comes { Comes (content calc_tree) (equations calc) (of_node_with (left_of 1) 0 (codes "x")) (of_node_with block 2 (codes "x")) }
    ensures no_circle { (j : Instance Node) → Circular (content calc_tree) (equations calc) (of_node_with (left_of 1) 0 (codes "x")) j → ⊥ }
{}

/// The value of the sum rests on the list of statements and on the number in the declaration.
pub fn support()
    ensures list { Supports (content calc_tree) (equations calc) (Slot block 0) (of_node (printed 1) 5) }
    ensures number { Supports (content calc_tree) (equations calc) (Tok (init_of 0) 0) (of_node (printed 1) 5) }
{}
