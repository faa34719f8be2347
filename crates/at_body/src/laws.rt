//! What steps come to together.

ghost use Rattle.std.specs.Prelude.{◌≡◌, ℕ, List, [], ◌∷◌, ◌++◌};
ghost use Rattle.at_model.specs.Run.{Value, Instance, Location, Contents, FaultKind, Run, Known, Gives, Fails, Demands};
ghost use Rattle.at_model.specs.Follow.{follow, Ends, Stops, Waits, Past, Has};
ghost use Rattle.at_model.specs.of_fixpoints.Formulas.{Formula, atoms};
ghost use Rattle.at_body.specs.Pieces.{asked, stacked};
ghost use Rattle.at_body.specs.declared.formula.Piece.{Piece};

/// An evaluation that has come past some demands and looks, and then waits and is told a value, has come past one more demand.
pub fn passes()
    ensures { (tree : Contents ℕ) (known : Known ℕ) (r s : Run ℕ (Value ℕ)) (js : List (Instance ℕ))
        (ls seen end : List (Location ℕ)) (j : Instance ℕ) (k : Value ℕ → Run ℕ (Value ℕ)) (v : Value ℕ)
        → Past tree (Has known) r js ls s → follow tree seen s ≡ (Waits j k, end) → Has known j v
        → (new : List (Location ℕ)) × (end ≡ seen ++ new) × Past tree (Has known) r (js ++ j ∷ []) (ls ++ new) (k v) }
{}

/// An evaluation that has come past some demands and looks, and then waits, has come to that demand.
pub fn comes()
    ensures { (tree : Contents ℕ) (known : Known ℕ) (r s : Run ℕ (Value ℕ)) (js : List (Instance ℕ))
        (ls seen end : List (Location ℕ)) (j : Instance ℕ) (k : Value ℕ → Run ℕ (Value ℕ))
        → Past tree (Has known) r js ls s → follow tree seen s ≡ (Waits j k, end)
        → (new : List (Location ℕ)) × (end ≡ seen ++ new) × Past tree (Has known) r js (ls ++ new) (Demands j k) }
{}

/// An evaluation that has come past some demands and looks, and then ends, has come to that value.
pub fn gives()
    ensures { (tree : Contents ℕ) (known : Known ℕ) (r s : Run ℕ (Value ℕ)) (js : List (Instance ℕ)) (ls seen end : List (Location ℕ)) (v : Value ℕ)
        → Past tree (Has known) r js ls s → follow tree seen s ≡ (Ends v, end) → (new : List (Location ℕ)) × (end ≡ seen ++ new)
        × Past tree (Has known) r js (ls ++ new) (Gives v) }
{}

/// An evaluation that has come past some demands and looks, and then stops, has come to that fault.
pub fn fails()
    ensures { (tree : Contents ℕ) (known : Known ℕ) (r s : Run ℕ (Value ℕ)) (js : List (Instance ℕ)) (ls seen end : List (Location ℕ)) (f : FaultKind)
        → Past tree (Has known) r js ls s → follow tree seen s ≡ (Stops f, end) → (new : List (Location ℕ)) × (end ≡ seen ++ new)
        × Past tree (Has known) r js (ls ++ new) (Fails f) }
{}

/// The pieces of a formula ask for its instances from left to right.
pub fn pieces_ask_in_order()
    ensures { (ps : List Piece) (f : Formula ℕ) → stacked [] ps ≡ f ∷ [] → atoms f ≡ asked ps }
{}
