//! Worked trees with constants: what stands in a fixed component comes with its node, isn't written and can't be edited.

ghost use Rattle.std.specs.Prelude.{◌≡◌, ◌∷◌, [], codes, Err, false, true, Ok, Some};
ghost use Rattle.at_model.specs.Trees.{Text, conforms, nodes, to_cells, Node, Holds, One};
ghost use Rattle.at_model.specs.Terms.{tree_text};
ghost use Rattle.at_model.specs.Shaping.{shaped};
ghost use Rattle.at_model.specs.Edits.{Drop, Fixed, Set, Token, edited};
ghost use Rattle.at_model.specs.SampleFixed.{any_type, constant_classes, program_with, unknown, use_term, use_tree, use_with};

/// A term is the tree with its constants, which are counted, and the tree is written without them.
pub fn constants_come_with_their_node()
    ensures shaped { shaped constant_classes use_term 0 ≡ Some use_tree }
    ensures counted { nodes use_tree ≡ 5 }
    ensures written { tree_text constant_classes use_tree ≡ codes "Program([Use(\"a\")])" }
{}

/// A tree in which something else stands in a fixed component doesn't conform.
pub fn only_the_constant_conforms()
    ensures whole { conforms constant_classes use_tree 0 ≡ true }
    ensures other { conforms constant_classes (program_with (Node 2 (to_cells (Holds (Text (codes "b")) ∷ One any_type ∷ []))) any_type) 0 ≡ false }
{}

/// An edit of a constant, or of what stands below one, is refused as fixed; one beside it isn't.
pub fn constants_are_not_edited()
    ensures set { edited constant_classes use_tree (Set ((0, 0) ∷ []) unknown) ≡ Err Fixed }
    ensures below { edited constant_classes use_tree (Set ((0, 0) ∷ (1, 0) ∷ []) any_type) ≡ Err Fixed }
    ensures inner { edited constant_classes use_tree (Set ((1, 0) ∷ (1, 0) ∷ []) any_type) ≡ Err Fixed }
    ensures drop { edited constant_classes use_tree (Drop ((0, 0) ∷ [])) ≡ Err Fixed }
    ensures token { edited constant_classes use_tree (Token ((0, 0) ∷ []) 0 (Text (codes "b"))) ≡ Err Fixed }
    ensures beside { edited constant_classes use_tree (Set ((1, 0) ∷ []) (use_with any_type)) ≡ Ok use_tree }
{}
