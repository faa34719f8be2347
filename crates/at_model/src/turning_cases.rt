//! Worked cases of what a turn looks for: whose value is known, and which instance is ready. Each is the contract of a function
//! that does nothing.

ghost use Rattle.std.specs.Prelude.{◌∷◌, None, Some, [], pos};
ghost use Rattle.at_model.specs.Run.{Int};
ghost use Rattle.at_model.specs.Meaning.{content, equations};
ghost use Rattle.at_model.specs.Samples.{calc, calc_tree, left_of, of_node, printed, right_of, values};
ghost use Rattle.at_model.specs.Turning.{IsKnown, IsReady};

/// The value of the sum's right side is known where it is kept, and where it was found. Where nothing is kept, and at most that of
/// the left side was found, it isn't.
pub fn whose_value_is_known()
    ensures kept { IsKnown (values calc_tree) [] (of_node (right_of 1) 5) }
    ensures found { IsKnown (λ i. None) ((of_node (left_of 1) 5, Int (pos 1)) ∷ (of_node (right_of 1) 5, Int (pos 2)) ∷ []) (of_node (right_of 1) 5) }
    ensures other { IsKnown (λ i. None) ((of_node (left_of 1) 5, Int (pos 1)) ∷ []) (of_node (right_of 1) 5) → ⊥ }
    ensures none { IsKnown (λ i. None) [] (of_node (right_of 1) 5) → ⊥ }
{}

/// The sum is ready, with its value, where those of both sides were found, and not where that of the right one is wanting. It is
/// ready where it is kept itself, with the value that is kept. A number rests on no other instance, and is ready at once.
pub fn which_instance_is_ready()
    ensures both { IsReady (content calc_tree) (equations calc) (λ i. None)
        ((of_node (left_of 1) 5, Int (pos 1)) ∷ (of_node (right_of 1) 5, Int (pos 2)) ∷ []) (of_node (printed 1) 5) (Int (pos 3)) }
    ensures one { IsReady (content calc_tree) (equations calc) (λ i. None)
        ((of_node (left_of 1) 5, Int (pos 1)) ∷ []) (of_node (printed 1) 5) (Int (pos 3)) → ⊥ }
    ensures kept { IsReady (content calc_tree) (equations calc) (λ i. Some (Int (pos 3))) [] (of_node (printed 1) 5) (Int (pos 3)) }
    ensures number { IsReady (content calc_tree) (equations calc) (λ i. None) [] (of_node (right_of 1) 5) (Int (pos 2)) }
{}
