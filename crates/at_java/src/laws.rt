//! Laws of what is read: each is the contract of a function that does nothing.

ghost use Rattle.std.specs.Prelude.{◌≡◌, ◌≤◌};
ghost use Rattle.at_text.specs.declared.place.Place.{Place};
ghost use Rattle.at_jrag.specs.Syntax as written;
ghost use Rattle.at_java.specs.Naming.{forms};
ghost use Rattle.at_java.specs.Rewriting.{Means, rewritten};
ghost use Rattle.at_java.specs.Written.{Statements};

/// What a body means has 4,096 forms at most, however often the rest of it stands on more ways than one.
pub fn a_body_means_few_forms()
    ensures { (end : Place) (body : Statements) (e : written.Expr) → rewritten end body ≡ Means e → forms e ≤ 4096 }
{}
