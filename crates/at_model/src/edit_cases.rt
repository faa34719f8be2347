//! What each edit touches, and where the nodes go.

ghost use Rattle.std.specs.Prelude.{◌≡◌, ◌∷◌, [], codes, Err, false, None, pos, Some, true};
ghost use Rattle.std.specs.List.{list_all, list_any};
ghost use Rattle.at_model.specs.Trees.{Int, Text};
ghost use Rattle.at_model.specs.Run.{Idx, Is, Slot, Tok, Up};
ghost use Rattle.at_model.specs.Edits.{Component, Drop, Fit, Fixed, Index, Insert, Put, Set, Taken, Token, carried, edited};
ghost use Rattle.at_model.specs.Touches.{touches};
ghost use Rattle.at_model.specs.Samples.{bare_tree, block, calc_classes, calc_tree, init_of, num, print_sum, printed, right_of, root, statement};

/// A subtree that is replaced is touched whole, with the slot around it; of the root all is.
pub fn what_a_set_touches()
    ensures child { list_all (touches (Set (init_of 0) (num (pos 7)))) (Slot (statement 0) 1 ∷ Is (init_of 0) ∷ Tok (init_of 0) 0 ∷ Up (init_of 0) ∷ [])
        ≡ true }
    ensures beside { list_any (touches (Set (init_of 0) (num (pos 7))))
        (Is (statement 0) ∷ Tok (statement 0) 0 ∷ Slot block 0 ∷ Idx (statement 0) ∷ Is (statement 1) ∷ [])
        ≡ false }
    ensures element { list_all (touches (Set (statement 0) print_sum))
        (Slot block 0 ∷ Is (statement 0) ∷ Slot (statement 0) 1 ∷ Idx (statement 0) ∷ Is (init_of 0) ∷ [])
        ≡ true }
    ensures others { list_any (touches (Set (statement 0) print_sum)) (Idx (statement 1) ∷ Up (statement 1) ∷ Is (statement 1) ∷ Is block ∷ Slot root 0 ∷ [])
        ≡ false }
    ensures root { list_all (touches (Set root calc_tree)) (Is root ∷ Slot root 0 ∷ Up block ∷ Slot block 0 ∷ Idx (statement 1) ∷ Tok (right_of 1) 0 ∷ [])
        ≡ true }
{}

/// Filling an optional touches its slot alone, emptying it also all that was in it.
pub fn what_an_optional_touches()
    ensures filled { touches (Put (statement 0) 1 (num (pos 7))) (Slot (statement 0) 1) ≡ true }
    ensures unfilled { list_any (touches (Put (statement 0) 1 (num (pos 7))))
        (Is (statement 0) ∷ Tok (statement 0) 0 ∷ Slot block 0 ∷ Slot (statement 0) 0 ∷ Slot (statement 1) 1 ∷ [])
        ≡ false }
    ensures emptied { list_all (touches (Drop (init_of 0))) (Slot (statement 0) 1 ∷ Is (init_of 0) ∷ Tok (init_of 0) 0 ∷ Up (init_of 0) ∷ []) ≡ true }
    ensures unemptied { list_any (touches (Drop (init_of 0))) (Is (statement 0) ∷ Tok (statement 0) 0 ∷ Idx (statement 0) ∷ Slot block 0 ∷ []) ≡ false }
{}

/// A new element touches the slot and the index of every element, also of those before it, and a drop
/// does so too.
pub fn what_a_list_touches()
    ensures inserted { list_all (touches (Insert block 0 1 print_sum)) (Slot block 0 ∷ Idx (statement 0) ∷ Idx (statement 1) ∷ []) ≡ true }
    ensures beside { list_any (touches (Insert block 0 1 print_sum))
        (Is (statement 0) ∷ Is (statement 1) ∷ Up (statement 1) ∷ Slot (statement 0) 1 ∷ Idx (init_of 0) ∷ Is block ∷ Idx block ∷ [])
        ≡ false }
    ensures dropped { list_all (touches (Drop (statement 1)))
        (Slot block 0 ∷ Idx (statement 0) ∷ Idx (statement 1) ∷ Is (statement 1) ∷ Tok (right_of 1) 0 ∷ [])
        ≡ true }
    ensures left { list_any (touches (Drop (statement 1))) (Is (statement 0) ∷ Up (statement 0) ∷ Tok (init_of 0) 0 ∷ Idx (init_of 0) ∷ []) ≡ false }
{}

/// A token touches itself alone.
pub fn what_a_token_touches()
    ensures itself { touches (Token (statement 0) 0 (Text (codes "y"))) (Tok (statement 0) 0) ≡ true }
    ensures others { list_any (touches (Token (statement 0) 0 (Text (codes "y"))))
        (Tok (statement 0) 1 ∷ Tok (statement 1) 0 ∷ Tok (init_of 0) 0 ∷ Is (statement 0) ∷ Slot (statement 0) 0 ∷ Slot block 0 ∷ [])
        ≡ false }
{}

/// What is replaced goes nowhere, with all below it, and the others stay where they are.
pub fn where_nodes_stay()
    ensures replaced { carried (Set (printed 1) (num (pos 7))) (printed 1) ≡ None }
    ensures below { carried (Set (printed 1) (num (pos 7))) (right_of 1) ≡ None }
    ensures above { carried (Set (printed 1) (num (pos 7))) (statement 1) ≡ Some (statement 1) }
    ensures root { carried (Set root calc_tree) block ≡ None }
    ensures whole { carried (Set root calc_tree) root ≡ None }
    ensures filled { carried (Put (statement 0) 1 (num (pos 7))) (statement 0) ≡ Some (statement 0) }
    ensures emptied { carried (Drop (init_of 0)) (init_of 0) ≡ None }
    ensures before { carried (Insert block 0 1 print_sum) (init_of 0) ≡ Some (init_of 0) }
    ensures behind { carried (Insert block 0 1 print_sum) (right_of 1) ≡ Some (right_of 2) }
    ensures token { carried (Token (statement 0) 0 (Text (codes "y"))) (statement 0) ≡ Some (statement 0) }
{}

/// What doesn't fit is refused by the edit itself, and so is each other reason.
pub fn edits_that_are_refused()
    ensures set { edited calc_classes calc_tree (Set block (num (pos 1))) ≡ Err Fit }
    ensures put { edited calc_classes bare_tree (Put (statement 0) 1 print_sum) ≡ Err Fit }
    ensures insert { edited calc_classes calc_tree (Insert block 0 0 (num (pos 1))) ≡ Err Fit }
    ensures token { edited calc_classes calc_tree (Token (statement 0) 0 (Int (pos 5))) ≡ Err Fit }
    ensures component { edited calc_classes calc_tree (Put (statement 1) 0 print_sum) ≡ Err Component }
    ensures index { edited calc_classes calc_tree (Insert block 0 3 print_sum) ≡ Err Index }
    ensures taken { edited calc_classes calc_tree (Put (statement 0) 1 (num (pos 7))) ≡ Err Taken }
    ensures fixed { edited calc_classes calc_tree (Drop block) ≡ Err Fixed }
{}
