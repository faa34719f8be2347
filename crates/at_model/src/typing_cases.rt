//! Rules that are well formed, trees that are sound, and what has no kind: each case is the contract of a function that
//! does nothing.

ghost use Rattle.std.specs.Prelude.{false, List, ℕ, [], ◌∷◌};
ghost use Rattle.at_model.specs.Bodies.{Expr, Join, Same, TextLiteral, This, expr, no_exprs};
ghost use Rattle.at_model.specs.Kinds.{HasKind, HaveKinds, ScopeKinds};
ghost use Rattle.at_model.specs.Rules.{Class, Kind, Rules, Text};
ghost use Rattle.at_model.specs.Samples.{calc, calc_classes, calc_tree, sum_rules, sum_tree};
ghost use Rattle.at_model.specs.WellFormed.{AreWellFormed, IsTreeSound};

/// The rules of sum.jrag, and those of calc.jrag and probe.jrag, are well formed, and the trees of sum.txt and tree.txt
/// are sound.
pub fn the_samples_are_well_formed()
    ensures sum { AreWellFormed sum_rules }
    ensures sum_tree { IsTreeSound sum_rules.classes sum_tree }
    ensures calc { AreWellFormed calc }
    ensures calc_tree { IsTreeSound calc_classes calc_tree }
{}

/// A text that is joined is no argument, no texts stand beside `==`, and a statement that is a block is no
/// declaration: a class has no class below it.
pub fn what_has_no_kind()
    ensures argument { (rules : Rules) (s : ScopeKinds) (a b : Expr) → HaveKinds rules s (expr (Join a b) no_exprs) (Text ∷ []) → ⊥ }
    ensures texts { (rules : Rules) (s : ScopeKinds) (k : Kind) (bytes more : List ℕ) → HasKind rules s (Same (TextLiteral bytes) (TextLiteral more)) k → ⊥ }
    ensures below { HasKind calc (record { this = 2; names = []; has_index = false }) This (Class 3) → ⊥ }
{}
