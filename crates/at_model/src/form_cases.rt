//! Worked cases of comparisons, of ints below zero, of joined texts, and of what each form reads.

ghost use Rattle.std.specs.Prelude.{◌≡◌, ◌<◌, ◌≤◌, ◌++◌, ◌∷◌, ℕ, List, [], codes, false, length, negsuc, None, pos, Some, true};
ghost use Rattle.at_model.specs.Run.{
  Faulted,
  Int,
  Is,
  Long,
  Needs,
  Null,
  Ref,
  Slot,
  Text,
  Tok,
  Truth,
  Valued,
  Zero,
  reads,
};
ghost use Rattle.at_model.specs.Bodies.{
  Above,
  And,
  Arithmetic,
  AtLeast,
  AtMost,
  Below,
  Call,
  CastTo,
  Child,
  Choose,
  Compare,
  Count,
  Differ,
  Element,
  Equals,
  Exists,
  First,
  Has,
  InstanceOf,
  IntLiteral,
  Join,
  JoinInt,
  Negate,
  Not,
  Remainder,
  Name,
  NullLiteral,
  Or,
  Divide,
  Add,
  Same,
  Sum,
  TextLiteral,
  This,
  TokenOf,
  TruthLiteral,
  expr,
  no_exprs,
};
ghost use Rattle.at_model.specs.Meaning.{content, equations};
ghost use Rattle.at_model.specs.Samples.{
  bare_tree,
  block,
  calc_tree,
  evaluated,
  init_of,
  left_of,
  looked,
  of_node,
  of_node_with,
  one_by_zero,
  printed,
  right_of,
  root,
  statement,
  tree_of_ones,
  tree_with_circle,
};
ghost use Rattle.at_model.specs.SampleSessions.{calc_with_argument};

/// Each comparison of two equal ints, and of two that differ.
pub fn comparisons()
    ensures below_itself { evaluated calc_tree root (Compare Below (IntLiteral (pos 2)) (IntLiteral (pos 2))) ≡ Valued (Truth false) }
    ensures below { evaluated calc_tree root (Compare Below (IntLiteral (negsuc 0)) (IntLiteral (pos 0))) ≡ Valued (Truth true) }
    ensures at_most_itself { evaluated calc_tree root (Compare AtMost (IntLiteral (negsuc 1)) (IntLiteral (negsuc 1))) ≡ Valued (Truth true) }
    ensures at_most { evaluated calc_tree root (Compare AtMost (IntLiteral (pos 3)) (IntLiteral (pos 2))) ≡ Valued (Truth false) }
    ensures above_itself { evaluated calc_tree root (Compare Above (IntLiteral (pos 2)) (IntLiteral (pos 2))) ≡ Valued (Truth false) }
    ensures above { evaluated calc_tree root (Compare Above (IntLiteral (negsuc 0)) (IntLiteral (negsuc 1))) ≡ Valued (Truth true) }
    ensures at_least_itself { evaluated calc_tree root (Compare AtLeast (IntLiteral (pos 2)) (IntLiteral (pos 2))) ≡ Valued (Truth true) }
    ensures at_least { evaluated calc_tree root (Compare AtLeast (IntLiteral (pos 1)) (IntLiteral (pos 2))) ≡ Valued (Truth false) }
{}

/// `==` and `!=` of two ints, two booleans, and null.
pub fn equality()
    ensures both_true { evaluated calc_tree root (Same (TruthLiteral true) (TruthLiteral true)) ≡ Valued (Truth true) }
    ensures both_false { evaluated calc_tree root (Same (TruthLiteral false) (TruthLiteral false)) ≡ Valued (Truth true) }
    ensures one_false { evaluated calc_tree root (Same (TruthLiteral true) (TruthLiteral false)) ≡ Valued (Truth false) }
    ensures one_true { evaluated calc_tree root (Differ (TruthLiteral false) (TruthLiteral true)) ≡ Valued (Truth true) }
    ensures same_truths { evaluated calc_tree root (Differ (TruthLiteral false) (TruthLiteral false)) ≡ Valued (Truth false) }
    ensures ints { evaluated calc_tree root (Same (IntLiteral (negsuc 0)) (IntLiteral (negsuc 0))) ≡ Valued (Truth true) }
    ensures other_ints { evaluated calc_tree root (Same (IntLiteral (negsuc 0)) (IntLiteral (pos 1))) ≡ Valued (Truth false) }
    ensures nulls { evaluated calc_tree root (Same NullLiteral NullLiteral) ≡ Valued (Truth true) }
    ensures null_and_node { evaluated calc_tree root (Same This NullLiteral) ≡ Valued (Truth false) }
{}

/// The quotient goes toward zero, and the remainder has the sign of the dividend.
pub fn ints_below_zero()
    ensures dividend { evaluated calc_tree root (Arithmetic Divide (IntLiteral (negsuc 6)) (IntLiteral (pos 2))) ≡ Valued (Int (negsuc 2)) }
    ensures divisor { evaluated calc_tree root (Arithmetic Divide (IntLiteral (pos 7)) (IntLiteral (negsuc 1))) ≡ Valued (Int (negsuc 2)) }
    ensures both { evaluated calc_tree root (Arithmetic Divide (IntLiteral (negsuc 6)) (IntLiteral (negsuc 1))) ≡ Valued (Int (pos 3)) }
    ensures nothing { evaluated calc_tree root (Arithmetic Divide (IntLiteral (negsuc 0)) (IntLiteral (pos 2))) ≡ Valued (Int (pos 0)) }
    ensures rest_of_dividend { evaluated calc_tree root (Arithmetic Remainder (IntLiteral (negsuc 6)) (IntLiteral (pos 2))) ≡ Valued (Int (negsuc 0)) }
    ensures rest_of_divisor { evaluated calc_tree root (Arithmetic Remainder (IntLiteral (pos 7)) (IntLiteral (negsuc 1))) ≡ Valued (Int (pos 1)) }
    ensures rest_of_both { evaluated calc_tree root (Arithmetic Remainder (IntLiteral (negsuc 6)) (IntLiteral (negsuc 1))) ≡ Valued (Int (negsuc 0)) }
{}

/// A text that is joined with an int has at most 65,535 bytes too.
pub fn long_decimals()
    ensures long { (a : List ℕ) → 65535 < length (a ++ codes "-7") → evaluated calc_tree root (JoinInt (TextLiteral a) (IntLiteral (negsuc 6))) ≡ Faulted Long }
    ensures text { (a : List ℕ) → length (a ++ codes "-7") ≤ 65535
        → evaluated calc_tree root (JoinInt (TextLiteral a) (IntLiteral (negsuc 6))) ≡ Valued (Text (a ++ codes "-7")) }
{}

/// What the left side doesn't decide, the right side does.
pub fn right_sides()
    ensures and_true { evaluated calc_tree root (And (TruthLiteral true) (TruthLiteral true)) ≡ Valued (Truth true) }
    ensures and_false { evaluated calc_tree root (And (TruthLiteral true) (TruthLiteral false)) ≡ Valued (Truth false) }
    ensures and_fault { evaluated calc_tree root (And (TruthLiteral true) (Same one_by_zero one_by_zero)) ≡ Faulted Zero }
    ensures and_decided { evaluated calc_tree root (And (TruthLiteral false) (Same one_by_zero one_by_zero)) ≡ Valued (Truth false) }
    ensures or_true { evaluated calc_tree root (Or (TruthLiteral false) (TruthLiteral true)) ≡ Valued (Truth true) }
    ensures or_false { evaluated calc_tree root (Or (TruthLiteral false) (TruthLiteral false)) ≡ Valued (Truth false) }
    ensures otherwise { evaluated calc_tree root (Choose (TruthLiteral false) one_by_zero (IntLiteral (pos 7))) ≡ Valued (Int (pos 7)) }
{}

/// What the accessors of a child, a list, an optional and a token read.
pub fn what_accessors_read()
    ensures element { looked calc_tree block (Element This 0 (IntLiteral (pos 1))) ≡ Slot block 0 ∷ [] }
    ensures beyond { looked calc_tree block (Element This 0 (IntLiteral (pos 2))) ≡ Slot block 0 ∷ [] }
    ensures count { looked calc_tree block (Count This 0) ≡ Slot block 0 ∷ [] }
    ensures has { looked calc_tree (statement 0) (Has This 1) ≡ Slot (statement 0) 1 ∷ [] }
    ensures has_none { looked bare_tree (statement 0) (Has This 1) ≡ Slot (statement 0) 1 ∷ [] }
    ensures child { looked calc_tree (statement 0) (Child This 1) ≡ Slot (statement 0) 1 ∷ [] }
    ensures absent { looked bare_tree (statement 0) (Child This 1) ≡ Slot (statement 0) 1 ∷ [] }
    ensures token { looked calc_tree (left_of 1) (TokenOf This 0) ≡ Tok (left_of 1) 0 ∷ [] }
    ensures null { looked calc_tree root (Count NullLiteral 0) ≡ [] }
{}

/// What folds and tests of a class read: a fold the list, and of its elements what its body reads up to
/// where it is decided.
pub fn what_folds_read()
    ensures exists { looked calc_tree block (Exists This 0 (InstanceOf (Name 0) 3)) ≡ Slot block 0 ∷ Is (statement 0) ∷ [] }
    ensures further { looked calc_tree block (Exists This 0 (InstanceOf (Name 0) 4)) ≡ Slot block 0 ∷ Is (statement 0) ∷ Is (statement 1) ∷ [] }
    ensures first { looked calc_tree block (First This 0 (InstanceOf (Name 0) 3)) ≡ Slot block 0 ∷ Is (statement 0) ∷ [] }
    ensures sum { looked calc_tree block (Sum This 0 (IntLiteral (pos 21))) ≡ Slot block 0 ∷ [] }
    ensures instance { looked calc_tree (statement 0) (InstanceOf This 4) ≡ Is (statement 0) ∷ [] }
    ensures cast { looked calc_tree (statement 0) (CastTo 1 This) ≡ Is (statement 0) ∷ [] }
    ensures fault { looked calc_tree block (Arithmetic Add one_by_zero (Count This 0)) ≡ [] }
    ensures arguments { reads (content calc_tree) (λ i. None)
        (equations calc_with_argument (record { node = printed 1; attribute = 17; arguments = Ref (Some (left_of 1)) ∷ Ref None ∷ [] }))
        ≡ Is (printed 1) ∷ Is (left_of 1) ∷ Slot (printed 1) 0 ∷ [] }
{}

/// What a form reads whose operands are all evaluated: what the left one reads, and then what the right one does.
pub fn what_operands_read()
    ensures negate { looked tree_of_ones (left_of 1) (Negate (TokenOf This 0)) ≡ Tok (left_of 1) 0 ∷ [] }
    ensures opposite { looked calc_tree (statement 0) (Not (Has This 1)) ≡ Slot (statement 0) 1 ∷ [] }
    ensures quotient { looked tree_of_ones (printed 1) (Arithmetic Divide (TokenOf (Child This 0) 0) (TokenOf (Child This 1) 0))
        ≡ Slot (printed 1) 0 ∷ Tok (left_of 1) 0 ∷ Slot (printed 1) 1 ∷ Tok (right_of 1) 0 ∷ [] }
    ensures below { looked tree_of_ones (printed 1) (Compare Below (TokenOf (Child This 0) 0) (TokenOf (Child This 1) 0))
        ≡ Slot (printed 1) 0 ∷ Tok (left_of 1) 0 ∷ Slot (printed 1) 1 ∷ Tok (right_of 1) 0 ∷ [] }
    ensures join { looked tree_with_circle (statement 0) (Join (TokenOf This 0) (TokenOf (Child This 1) 0))
        ≡ Tok (statement 0) 0 ∷ Slot (statement 0) 1 ∷ Tok (init_of 0) 0 ∷ [] }
    ensures join_int { looked calc_tree (statement 0) (JoinInt (TokenOf This 0) (TokenOf (Child This 1) 0))
        ≡ Tok (statement 0) 0 ∷ Slot (statement 0) 1 ∷ Tok (init_of 0) 0 ∷ [] }
    ensures equals { looked tree_with_circle (statement 0) (Equals (TokenOf (Child This 1) 0) (TokenOf This 0))
        ≡ Slot (statement 0) 1 ∷ Tok (init_of 0) 0 ∷ Tok (statement 0) 0 ∷ [] }
    ensures same { looked calc_tree (printed 1) (Same (Child This 0) (Child This 1)) ≡ Slot (printed 1) 0 ∷ Slot (printed 1) 1 ∷ [] }
    ensures differ { looked calc_tree (printed 1) (Differ NullLiteral (Child This 1)) ≡ Slot (printed 1) 1 ∷ [] }
{}

/// What the left side decides leaves the right side unread; a choice reads its test, and then the side that is chosen.
pub fn what_sides_read()
    ensures both { looked calc_tree (statement 0) (And (Has This 1) (InstanceOf This 3)) ≡ Slot (statement 0) 1 ∷ Is (statement 0) ∷ [] }
    ensures not_both { looked bare_tree (statement 0) (And (Has This 1) (InstanceOf This 3)) ≡ Slot (statement 0) 1 ∷ [] }
    ensures either { looked bare_tree (statement 0) (Or (Has This 1) (InstanceOf This 3)) ≡ Slot (statement 0) 1 ∷ Is (statement 0) ∷ [] }
    ensures one { looked calc_tree (statement 0) (Or (Has This 1) (InstanceOf This 3)) ≡ Slot (statement 0) 1 ∷ [] }
    ensures chosen { looked calc_tree (statement 0) (Choose (Has This 1) (Child This 1) (CastTo 3 This))
        ≡ Slot (statement 0) 1 ∷ Slot (statement 0) 1 ∷ [] }
    ensures otherwise { looked bare_tree (statement 0) (Choose (Has This 1) (Child This 1) (CastTo 3 This))
        ≡ Slot (statement 0) 1 ∷ Is (statement 0) ∷ [] }
{}

/// Where something is called or an element is taken the receiver comes first, then the arguments from the left,
/// and then that the receiver is null; a fault on the way is the first one.
pub fn what_calls_read()
    ensures call { looked calc_tree (printed 1) (Call (Child This 0) 0 (expr (Child This 1) no_exprs))
        ≡ Slot (printed 1) 0 ∷ Slot (printed 1) 1 ∷ [] }
    ensures of_null { looked calc_tree (printed 1) (Call NullLiteral 0 (expr (Child This 0) (expr (Child This 1) no_exprs)))
        ≡ Slot (printed 1) 0 ∷ Slot (printed 1) 1 ∷ [] }
    ensures null { evaluated calc_tree (printed 1) (Call NullLiteral 0 (expr (Child This 0) no_exprs)) ≡ Faulted Null }
    ensures argument { looked calc_tree (printed 1) (Call NullLiteral 0 (expr (Child This 0) (expr one_by_zero (expr (Child This 1) no_exprs))))
        ≡ Slot (printed 1) 0 ∷ [] }
    ensures first_fault { evaluated calc_tree root (Call NullLiteral 0 (expr one_by_zero no_exprs)) ≡ Faulted Zero }
    ensures index { looked calc_tree root (Element (Child This 0) 0 (Count (Child This 0) 0))
        ≡ Slot root 0 ∷ Slot root 0 ∷ Slot block 0 ∷ Slot block 0 ∷ [] }
    ensures index_of_null { looked calc_tree block (Element NullLiteral 0 (Count This 0)) ≡ Slot block 0 ∷ [] }
    ensures index_fault { evaluated calc_tree root (Element NullLiteral 0 one_by_zero) ≡ Faulted Zero }
{}

/// A fold in a fold: each name is that of its own element, in front of the inner fold and behind it.
pub fn what_inner_folds_read()
    ensures inner { looked calc_tree block (First This 0 (Exists This 0 (And (InstanceOf (Name 0) 4) (InstanceOf (Name 1) 3))))
        ≡ Slot block 0 ∷ Slot block 0 ∷ Is (statement 0) ∷ Is (statement 1) ∷ Is (statement 0) ∷ [] }
    ensures behind { looked calc_tree block (Exists This 0 (And (Exists This 0 (InstanceOf (Name 0) 3)) (InstanceOf (Name 0) 4)))
        ≡ Slot block 0 ∷ Slot block 0 ∷ Is (statement 0) ∷ Is (statement 0) ∷ Slot block 0 ∷ Is (statement 0) ∷ Is (statement 1) ∷ [] }
    ensures sum { looked calc_tree block (Sum This 0 (Choose (InstanceOf (Name 0) 3) (TokenOf (Child (Name 0) 1) 0) (Count This 0)))
        ≡ Slot block 0 ∷ Is (statement 0) ∷ Slot (statement 0) 1 ∷ Tok (init_of 0) 0 ∷ Is (statement 1) ∷ Slot block 0 ∷ [] }
{}

/// Where nothing is known the first demand ends a try: that of the left operand, of the receiver, of an argument, of a fold's first
/// element; a left operand that is known lets the right one come.
pub fn what_is_demanded_first()
    ensures left { evaluated tree_of_ones (printed 1) (Arithmetic Add (Call (Child This 0) 5 no_exprs) (Call (Child This 1) 5 no_exprs))
        ≡ Needs (of_node (left_of 1) 5) }
    ensures right { evaluated tree_of_ones (printed 1) (Arithmetic Add (IntLiteral (pos 1)) (Call (Child This 1) 5 no_exprs))
        ≡ Needs (of_node (right_of 1) 5) }
    ensures receiver { evaluated calc_tree (left_of 1) (Call (Call This 4 no_exprs) 6 no_exprs) ≡ Needs (of_node (left_of 1) 4) }
    ensures argument { evaluated calc_tree (left_of 1) (Call This 0 (expr (Call This 4 no_exprs) no_exprs)) ≡ Needs (of_node (left_of 1) 4) }
    ensures element { evaluated calc_tree block (Exists This 0 (Call (Name 0) 3 (expr (TextLiteral (codes "q")) no_exprs)))
        ≡ Needs (of_node_with (statement 0) 3 (codes "q")) }
{}
