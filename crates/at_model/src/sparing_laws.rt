//! Laws of what is kept: each is the contract of a function that does nothing.

ghost use Rattle.std.specs.Prelude.{◌≡◌, ◌↔◌, ◌+◌, ◌++◌, ◌∷◌, ℕ, Bool, List, [], min, None, Ok, Option, true};
ghost use Rattle.at_model.specs.Trees.{Tree, conforms};
ghost use Rattle.at_model.specs.Paths.{Node};
ghost use Rattle.at_model.specs.Run.{Instance, Value};
ghost use Rattle.at_model.specs.Rules.{Rules, is_lazy, start_of};
ghost use Rattle.at_model.specs.Meaning.{HasValue, Leads, content, equations};
ghost use Rattle.at_model.specs.Support.{IsInstanceThere};
ghost use Rattle.at_model.specs.Alike.{InstanceLike, Names};
ghost use Rattle.at_model.specs.Edits.{Edit, carried, edited};
ghost use Rattle.at_model.specs.Lines.{Line};
ghost use Rattle.at_model.specs.Machine.{Edits, IsSound, State, Verdict};
ghost use Rattle.at_model.specs.Sparing.{AreWellKept, IsWork, IsWorthKeeping, KeptAfter};
ghost use Rattle.at_model.specs.of_fixpoints.Resting.{IsUntouched};
ghost use Rattle.at_model.specs.Keeping.{AreSpreading, IsTotalWork, KeptOver, NothingKept, heard, max_work, state_after};

/// An instance of nodes of the tree that rests on nothing that an edit touches is carried, to one of nodes of
/// the tree that the edit leaves.
pub fn what_is_not_touched_is_carried()
    ensures { (rules : Rules) (t u : Tree) (e : Edit) (i : Instance Node) → conforms rules.classes t 0 ≡ true → edited rules.classes t e ≡ Ok u
        → IsInstanceThere t i → IsUntouched rules t e i
        → (j : Instance Node) × InstanceLike (Names (carried e)) i j × IsInstanceThere u j }
{}

/// Over all lines, from a sound state in which nothing is kept, what is kept is lazy and has a value, with all
/// lazy instances to which it leads, and is of nodes of the tree; line by line it goes on as each line says.
/// Over an edit nothing is lost that the edit doesn't touch.
pub fn what_is_kept_over_lines()
    ensures well { (rules : Rules) (s : State) (ls : List (Option Line)) → IsSound rules.classes s → AreSpreading rules s ls
        → IsSound rules.classes (state_after rules s ls) × AreWellKept rules (state_after rules s ls).tree (KeptOver rules s ls NothingKept) }
    ensures there { (rules : Rules) (s : State) (ls : List (Option Line)) (i : Instance Node) → IsSound rules.classes s
        → KeptOver rules s ls NothingKept i → IsInstanceThere (state_after rules s ls).tree i }
    ensures next { (rules : Rules) (s : State) (ls : List (Option Line)) (l : Option Line) (i : Instance Node)
        → KeptOver rules s (ls ++ l ∷ []) NothingKept i
        ↔ KeptAfter rules (state_after rules s ls) (heard rules (state_after rules s ls) l) (KeptOver rules s ls NothingKept) i }
    ensures edit { (rules : Rules) (s : State) (ls : List (Option Line)) (l : Option Line) (e : Edit) (t : Tree) (i : Instance Node) → IsSound rules.classes s
        → heard rules (state_after rules s ls) l ≡ Edits e t → KeptOver rules s ls NothingKept i → IsUntouched rules (state_after rules s ls).tree e i
        → (j : Instance Node) × InstanceLike (Names (carried e)) i j × KeptOver rules s (ls ++ l ∷ []) NothingKept j }
{}

/// The work of a line is one number, and so is that of lines from where nothing is kept. Each line adds its
/// own, up to the greatest number.
pub fn one_work()
    ensures line { (rules : Rules) (s : State) (v : Verdict) (kept : Instance Node → Bool) (work other : ℕ)
        → IsWork rules s v (λ i. kept i ≡ true) work → IsWork rules s v (λ i. kept i ≡ true) other → work ≡ other }
    ensures lines { (rules : Rules) (s : State) (ls : List (Option Line)) (total other : ℕ)
        → IsTotalWork rules s ls NothingKept total → IsTotalWork rules s ls NothingKept other → total ≡ other }
    ensures next { (rules : Rules) (s : State) (ls : List (Option Line)) (l : Option Line) (total work : ℕ) → IsTotalWork rules s ls NothingKept total
        → IsWork rules (state_after rules s ls) (heard rules (state_after rules s ls) l) (KeptOver rules s ls NothingKept) work
        → IsTotalWork rules s (ls ++ l ∷ []) NothingKept (min (total + work) max_work) }
{}

/// Where no attribute is circular, what is worth keeping is said by equations alone: all to which the question leads that is lazy and has
/// a value.
pub fn what_is_worth_keeping_by_equations()
    ensures { (rules : Rules) (t : Tree) (q i : Instance Node) → ((attribute : ℕ) → start_of rules attribute ≡ None)
        → (IsWorthKeeping rules t q i ↔ (Leads (content t) (equations rules) q i × (is_lazy rules i.attribute ≡ true)
        × ((v : Value Node) × HasValue (content t) (equations rules) i v))) }
{}
