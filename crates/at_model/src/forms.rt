//! Worked cases of the forms of expression.

ghost use Rattle.std.specs.Prelude.{◌≡◌, ◌<◌, ◌≤◌, ◌++◌, ℕ, List, [], codes, false, length, None, negsuc, pos, Some, true};
ghost use Rattle.at_model.specs.Run.{
  Absent,
  Cast,
  Faulted,
  Index,
  Int,
  Long,
  Null,
  Ref,
  Text,
  Truth,
  Valued,
  Zero,
};
ghost use Rattle.at_model.specs.Bodies.{
  Above,
  Arithmetic,
  AtMost,
  CastTo,
  Child,
  Choose,
  Compare,
  Count,
  Element,
  Equals,
  Exists,
  First,
  Has,
  InstanceOf,
  IntLiteral,
  Join,
  Subtract,
  Remainder,
  Name,
  Negate,
  Not,
  NullLiteral,
  Or,
  Divide,
  Same,
  Sum,
  TextLiteral,
  This,
  Multiply,
  TokenOf,
  TruthLiteral,
};
ghost use Rattle.at_model.specs.Samples.{
  bare_tree,
  block,
  calc_tree,
  call_with,
  empty_tree,
  evaluated,
  init_of,
  left_of,
  looked,
  one_by_zero,
  right_of,
  root,
  statement,
};

/// `/` goes toward zero, `%` has the sign of the dividend, and all wraps at 32 bits.
pub fn arithmetic()
    ensures toward_zero { evaluated calc_tree root (Arithmetic Divide (IntLiteral (negsuc 6)) (IntLiteral (pos 2))) ≡ Valued (Int (negsuc 2)) }
    ensures sign { evaluated calc_tree root (Arithmetic Remainder (IntLiteral (negsuc 6)) (IntLiteral (pos 2))) ≡ Valued (Int (negsuc 0)) }
    ensures least { evaluated calc_tree root (Arithmetic Divide (IntLiteral (negsuc 2147483647)) (IntLiteral (negsuc 0))) ≡ Valued (Int (negsuc 2147483647)) }
    ensures nothing_left { evaluated calc_tree root (Arithmetic Remainder (IntLiteral (negsuc 2147483647)) (IntLiteral (negsuc 0))) ≡ Valued (Int (pos 0)) }
    ensures negated { evaluated calc_tree root (Negate (IntLiteral (negsuc 2147483647))) ≡ Valued (Int (negsuc 2147483647)) }
    ensures product { evaluated calc_tree root (Arithmetic Multiply (IntLiteral (pos 65536)) (IntLiteral (pos 32768))) ≡ Valued (Int (negsuc 2147483647)) }
    ensures difference { evaluated calc_tree root (Arithmetic Subtract (IntLiteral (negsuc 2147483647)) (IntLiteral (pos 1))) ≡ Valued (Int (pos 2147483647)) }
    ensures no_remainder { evaluated calc_tree root (Arithmetic Remainder (IntLiteral (pos 1)) (IntLiteral (pos 0))) ≡ Faulted Zero }
{}

/// Children, elements, numbers of elements, and what is absent.
pub fn accessors()
    ensures count { evaluated calc_tree block (Count This 0) ≡ Valued (Int (pos 2)) }
    ensures element { evaluated calc_tree block (Element This 0 (IntLiteral (pos 1))) ≡ Valued (Ref (Some (statement 1))) }
    ensures beyond { evaluated calc_tree block (Element This 0 (IntLiteral (pos 2))) ≡ Faulted Index }
    ensures negative { evaluated calc_tree block (Element This 0 (IntLiteral (negsuc 0))) ≡ Faulted Index }
    ensures filled { evaluated calc_tree (statement 0) (Child This 1) ≡ Valued (Ref (Some (init_of 0))) }
    ensures has { evaluated calc_tree (statement 0) (Has This 1) ≡ Valued (Truth true) }
    ensures absent { evaluated bare_tree (statement 0) (Child This 1) ≡ Faulted Absent }
    ensures has_none { evaluated bare_tree (statement 0) (Has This 1) ≡ Valued (Truth false) }
    ensures token { evaluated calc_tree (left_of 1) (TokenOf This 0) ≡ Valued (Text (codes "x")) }
    ensures equal { evaluated calc_tree (left_of 1) (Equals (TokenOf This 0) (TextLiteral (codes "x"))) ≡ Valued (Truth true) }
{}

/// Folds over a list: some element, the first one, the sum.
pub fn folds()
    ensures exists { evaluated calc_tree block (Exists This 0 (InstanceOf (Name 0) 4)) ≡ Valued (Truth true) }
    ensures none { evaluated calc_tree block (Exists This 0 (InstanceOf (Name 0) 2)) ≡ Valued (Truth false) }
    ensures first { evaluated calc_tree block (First This 0 (InstanceOf (Name 0) 4)) ≡ Valued (Ref (Some (statement 1))) }
    ensures not_one { evaluated calc_tree block (First This 0 (TruthLiteral false)) ≡ Valued (Ref None) }
    ensures sum { evaluated calc_tree block (Sum This 0 (IntLiteral (pos 21))) ≡ Valued (Int (pos 42)) }
    ensures nothing { evaluated empty_tree block (Sum This 0 (IntLiteral (pos 21))) ≡ Valued (Int (pos 0)) }
    ensures stops { evaluated calc_tree block (Exists This 0 (Or (InstanceOf (Name 0) 3) (Same one_by_zero one_by_zero))) ≡ Valued (Truth true) }
{}

/// What is decided evaluates nothing more, and a null receiver is looked at after the arguments.
pub fn order()
    ensures decided { evaluated calc_tree root (Or (TruthLiteral true) (Same one_by_zero one_by_zero)) ≡ Valued (Truth true) }
    ensures chosen { evaluated calc_tree root (Choose (Compare Above (IntLiteral (pos 2)) (IntLiteral (pos 1))) (IntLiteral (pos 7)) one_by_zero)
        ≡ Valued (Int (pos 7)) }
    ensures argument { evaluated calc_tree root (call_with NullLiteral 2 (CastTo 3 This)) ≡ Faulted Cast }
    ensures receiver { evaluated calc_tree root (call_with NullLiteral 2 (TextLiteral (codes "x"))) ≡ Faulted Null }
    ensures index { evaluated calc_tree root (Element NullLiteral 0 one_by_zero) ≡ Faulted Zero }
    ensures null { evaluated calc_tree root (Element NullLiteral 0 (IntLiteral (pos 9))) ≡ Faulted Null }
    ensures left { evaluated calc_tree root (Arithmetic Multiply (Element This 0 (IntLiteral (pos 9))) one_by_zero) ≡ Faulted Index }
{}

/// Null stays null under a cast, is an instance of no class, and reads nothing.
pub fn classes()
    ensures cast { evaluated calc_tree root (CastTo 3 NullLiteral) ≡ Valued (Ref None) }
    ensures wrong { evaluated calc_tree root (CastTo 3 This) ≡ Faulted Cast }
    ensures above { evaluated calc_tree (statement 0) (CastTo 1 This) ≡ Valued (Ref (Some (statement 0))) }
    ensures instance { evaluated calc_tree root (InstanceOf NullLiteral 0) ≡ Valued (Truth false) }
    ensures nothing_read { looked calc_tree root (InstanceOf NullLiteral 0) ≡ [] }
    ensures differ { evaluated calc_tree root (Not (Same NullLiteral This)) ≡ Valued (Truth true) }
    ensures at_most { evaluated calc_tree root (Compare AtMost (IntLiteral (pos 2)) (IntLiteral (pos 2))) ≡ Valued (Truth true) }
{}

/// A text of more than 65,535 bytes is not made.
pub fn long_texts()
    ensures long { (a b : List ℕ) → 65535 < length (a ++ b) → evaluated calc_tree root (Join (TextLiteral a) (TextLiteral b)) ≡ Faulted Long }
    ensures text { (a b : List ℕ) → length (a ++ b) ≤ 65535 → evaluated calc_tree root (Join (TextLiteral a) (TextLiteral b)) ≡ Valued (Text (a ++ b)) }
{}
