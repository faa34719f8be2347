//! Worked cases of lists of nodes: what they hold, each node once, and what is read.

ghost use Rattle.std.specs.Prelude.{◌≡◌, ◌∷◌, [], false, None, pos, Some, true};
ghost use Rattle.at_model.specs.Run.{Faulted, Int, Is, Nodes, Null, Ref, Slot, Truth, Up, Valued};
ghost use Rattle.at_model.specs.Bodies.{
  AnyOf,
  Child,
  Children,
  Choose,
  Close,
  Contains,
  Element,
  FirstOf,
  Gather,
  InstanceOf,
  IntLiteral,
  Listed,
  Name,
  NullLiteral,
  Only,
  Over,
  Parent,
  SumOf,
  This,
  Union,
};
ghost use Rattle.at_model.specs.Samples.{block, calc_tree, evaluated, init_of, left_of, looked, printed, right_of, root, statement};

/// Lists, each node once and in the order in which they come up; folds over them, and what is reached.
pub fn lists()
    ensures listed { evaluated calc_tree block (Listed This 0) ≡ Valued (Nodes (statement 0 ∷ statement 1 ∷ [])) }
    ensures alone { evaluated calc_tree block (Only This) ≡ Valued (Nodes (block ∷ [])) }
    ensures none { evaluated calc_tree block (Only NullLiteral) ≡ Valued (Nodes []) }
    ensures once { evaluated calc_tree block (Union (Only (Element This 0 (IntLiteral (pos 1)))) (Listed This 0))
        ≡ Valued (Nodes (statement 1 ∷ statement 0 ∷ [])) }
    ensures among { evaluated calc_tree block (Contains (Listed This 0) (Element This 0 (IntLiteral (pos 1)))) ≡ Valued (Truth true) }
    ensures not_among { evaluated calc_tree block (Contains (Listed This 0) This) ≡ Valued (Truth false) }
    ensures no_null { evaluated calc_tree block (Contains (Listed This 0) NullLiteral) ≡ Valued (Truth false) }
    ensures chosen { evaluated calc_tree block (Over Gather (Listed This 0) (Choose (InstanceOf (Name 0) 4) (Only (Name 0)) (Only NullLiteral)))
        ≡ Valued (Nodes (statement 1 ∷ [])) }
    ensures any { evaluated calc_tree block (Over AnyOf (Listed This 0) (InstanceOf (Name 0) 4)) ≡ Valued (Truth true) }
    ensures first { evaluated calc_tree block (Over FirstOf (Listed This 0) (InstanceOf (Name 0) 4)) ≡ Valued (Ref (Some (statement 1))) }
    ensures size { evaluated calc_tree block (Over SumOf (Listed This 0) (IntLiteral (pos 1))) ≡ Valued (Int (pos 2)) }
    ensures up { evaluated calc_tree (statement 1) (Over Close (Only This) (Only (Parent (Name 0))))
        ≡ Valued (Nodes (statement 1 ∷ block ∷ root ∷ [])) }
    ensures down { evaluated calc_tree block (Over Close (Only This) (Children (Name 0)))
        ≡ Valued (Nodes (block ∷ statement 0 ∷ statement 1 ∷ init_of 0 ∷ printed 1 ∷ left_of 1 ∷ right_of 1 ∷ [])) }
    ensures null { evaluated calc_tree root (Listed NullLiteral 0) ≡ Faulted Null }
{}

/// What lists read: a component its slot, the children the class and each slot with trees, a parent the way up.
pub fn what_lists_read()
    ensures listed { looked calc_tree block (Listed This 0) ≡ Slot block 0 ∷ [] }
    ensures children { looked calc_tree (statement 0) (Children This) ≡ Is (statement 0) ∷ Slot (statement 0) 1 ∷ [] }
    ensures parent { looked calc_tree block (Parent This) ≡ Up block ∷ [] }
    ensures among { looked calc_tree block (Contains (Only This) This) ≡ [] }
    ensures closed { looked calc_tree (statement 1) (Over Close (Only This) (Only (Parent (Name 0)))) ≡ Up (statement 1) ∷ Up block ∷ Up root ∷ [] }
{}
