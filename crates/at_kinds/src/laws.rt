//! Laws of what is judged: each is the contract of a function that does nothing.

ghost use Rattle.std.specs.Prelude.{◌≡◌, ◌↔◌};
ghost use Rattle.at_jrag.specs.Syntax as written;
ghost use Rattle.at_kinds.specs.Judging.{Is, Kinded, Scope, judged};
ghost use Rattle.at_kinds.specs.KindTable.{Gives};
ghost use Rattle.at_kinds.specs.declared.typing.kinds.ExprKind.{ExprKind};

/// An expression is judged to be of a kind, with no fault, exactly where the table of kinds gives it that kind.
pub fn what_is_judged_the_table_gives()
    ensures { (s : Scope) (e : written.Expr) (k : ExprKind) → ((m : Kinded) × (judged s e ≡ Is m) × (m.kind ≡ k)) ↔ Gives s e k }
{}
