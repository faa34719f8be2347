//! Laws of trials that keep to the kinds: each is the contract of a function that does nothing.

ghost use Rattle.std.specs.Prelude.{◌≡◌, ℕ, Some, false, true};
ghost use Rattle.at_model.specs.Bodies.{Expr};
ghost use Rattle.at_model.specs.Instances.{AnyText};
ghost use Rattle.at_model.specs.Rules.{Rules, own_equation};
ghost use Rattle.at_model.specs.Run.{Instance, Value};
ghost use Rattle.at_model.specs.Terms.{max_depth};
ghost use Rattle.at_model.specs.TypedRuns.{ClassAt, IsOfItsKind, IsWellTyped};
ghost use Rattle.at_model.specs.WellFormed.{AreWellFormed, IsTreeSound};
ghost use Rattle.at_store.specs.Shown.{IsIdle, Shown, contents, tree};
ghost use Rattle.at_body.specs.declared.trial.Trial.{Trial};
ghost use Rattle.at_body.specs.Typed.{IsOver, Takes, WaitsFor, class_shown};
ghost use Rattle.at_body.specs.TypedStart.{HasEquation};

/// What a store shows of a sound tree is of the right kinds, by numbers.
pub fn what_a_store_shows_is_typed()
    ensures { (rules : Rules) (s : Shown) → IsIdle s → AreWellFormed rules → IsTreeSound rules.classes (tree s) → IsOver rules (class_shown s) (contents s) }
{}

/// A trial that waits for the value of an instance may be told each value of the kind of its attribute.
pub fn what_is_told_is_taken()
    ensures { (rules : Rules) (at : ClassAt ℕ) (t : Trial) (j : Instance ℕ) (v : Value ℕ) → WaitsFor rules at t j → IsOfItsKind rules at j v
        → Takes rules at t v }
{}

/// A well-typed instance has an equation: of its node's class or a class above that one, or of a node above its node.
pub fn an_instance_has_an_equation()
    ensures own { (rules : Rules) (s : Shown) → IsIdle s → AreWellFormed rules → IsTreeSound rules.classes (tree s)
        → (i : Instance ℕ) (w : IsWellTyped rules (class_shown s) AnyText i)
        → w.declaration.is_inherited ≡ false → (e : Expr) × (own_equation rules w.class i.attribute ≡ Some e) }
    ensures above { (rules : Rules) (s : Shown) → IsIdle s → AreWellFormed rules → IsTreeSound rules.classes (tree s)
        → (i : Instance ℕ) (w : IsWellTyped rules (class_shown s) AnyText i)
        → w.declaration.is_inherited ≡ true → HasEquation rules (class_shown s) (contents s) w.declaration.name max_depth i.node }
{}
