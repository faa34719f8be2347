//! Laws of evaluations with inner ones: each is the contract of a function that does nothing.

ghost use Rattle.std.specs.Prelude.{◌≡◌, ◌++◌, ◌+◌, Bool, List, None, Some, ℕ};
ghost use Rattle.at_model.specs.Run.{Contents, Instance, Known, Location, Run, Value};
ghost use Rattle.at_model.specs.Meaning.{Equations, Reaches};
ghost use Rattle.at_model.specs.of_fixpoints.Fixpoints.{HasValue};
ghost use Rattle.at_model.specs.of_fixpoints.Formulas.{Forms};
ghost use Rattle.at_model.specs.of_fixpoints.Resting.{Leads};
ghost use Rattle.at_model.specs.Nested.{Evaluates, IsGround, TellsOf, behind};

/// An evaluation with inner ones, none of them circular, comes to the value of its instance over values that hold, be they of circular
/// attributes or of others. All that supports the instance was looked at, or supports what was taken, and nothing else was looked at; the
/// instance leads to all that was taken, and all to which it leads was taken, is led to by what was taken, or is an inner one.
pub fn an_evaluation_with_inner_ones()
    ensures { (look : Contents ℕ) (equation : Equations ℕ) (forms : Forms ℕ) (known : Known ℕ) (inner : Instance ℕ → Bool)
        → IsGround look equation forms known inner
        → (n : ℕ) (i : Instance ℕ) (v : Value ℕ) (ls : List (Location ℕ)) (us : List (Instance ℕ)) → forms.starts i.attribute ≡ None
        → Evaluates look equation known inner n (equation i) v ls us → TellsOf look forms known inner i v ls us }
{}

/// It goes the same way where more is known, and may be nested deeper.
pub fn an_evaluation_goes_the_same_way()
    ensures more { (look : Contents ℕ) (equation : Equations ℕ) (known knows : Known ℕ) (inner : Instance ℕ → Bool)
        → ((j : Instance ℕ) (w : Value ℕ) → known j ≡ Some w → knows j ≡ Some w)
        → (n : ℕ) (r : Run ℕ (Value ℕ)) (v : Value ℕ) (ls : List (Location ℕ)) (us : List (Instance ℕ))
        → Evaluates look equation known inner n r v ls us → Evaluates look equation knows inner n r v ls us }
    ensures deeper { (look : Contents ℕ) (equation : Equations ℕ) (known : Known ℕ) (inner : Instance ℕ → Bool)
        → (n d : ℕ) (r : Run ℕ (Value ℕ)) (v : Value ℕ) (ls : List (Location ℕ)) (us : List (Instance ℕ))
        → Evaluates look equation known inner n r v ls us → Evaluates look equation known inner (d + n) r v ls us }
    ensures within { (look : Contents ℕ) (forms : Forms ℕ) (r : Run ℕ (Value ℕ)) (k : Value ℕ → Run ℕ (Value ℕ)) (j : Instance ℕ)
        → Reaches look (HasValue look forms) r j → Reaches look (HasValue look forms) (behind r k) j }
{}

/// An instance that waits for the value of another one, over however many demands and formulas behind it, has no value where that one leads
/// to it: so it isn't among what comes to be kept while that one is evaluated.
pub fn what_waits_is_not_kept_below()
    ensures { (look : Contents ℕ) (forms : Forms ℕ) (i j k : Instance ℕ) (v : Value ℕ)
        → Reaches look (HasValue look forms) (forms.formula i) j → Leads look forms j k → Leads look forms k i → HasValue look forms i v → ⊥ }
{}

/// One evaluation with inner ones, and then another one with its value, are one with inner ones.
pub fn evaluations_behind_each_other()
    ensures { (look : Contents ℕ) (equation : Equations ℕ) (known : Known ℕ) (inner : Instance ℕ → Bool) (n : ℕ) (r : Run ℕ (Value ℕ))
        (k : Value ℕ → Run ℕ (Value ℕ)) (v w : Value ℕ) (ls ms : List (Location ℕ)) (us ts : List (Instance ℕ))
        → Evaluates look equation known inner n r v ls us → Evaluates look equation known inner n (k v) w ms ts
        → Evaluates look equation known inner n (behind r k) w (ls ++ ms) (us ++ ts) }
{}
