//! Laws over the definitions: each is the contract of a function that does nothing.

ghost use Rattle.std.specs.Prelude.{◌≡◌, ◌↔◌, ℕ, List, Ok, Some, true};
ghost use Rattle.at_model.specs.Trees.{Tree, conforms};
ghost use Rattle.at_model.specs.Paths.{Node};
ghost use Rattle.at_model.specs.Run.{Contents, Instance, Location};
ghost use Rattle.at_model.specs.Meaning.{Among, Answer, Outcome};
ghost use Rattle.at_model.specs.Meaning as plain;
ghost use Rattle.at_model.specs.Support as support;
ghost use Rattle.at_model.specs.of_fixpoints.Circles.{Answers};
ghost use Rattle.at_model.specs.of_fixpoints.Fixpoints.{Holds};
ghost use Rattle.at_model.specs.of_fixpoints.Resting.{Leads, Supports};
ghost use Rattle.at_rules.specs.Circular.{HasNoneCircular};
ghost use Rattle.at_evaluate.specs.Valued.{equations, meaning};
ghost use Rattle.at_model.specs.Rules.{Rules};
ghost use Rattle.at_model.specs.Alike.{InstanceLike, Names};
ghost use Rattle.at_model.specs.Machine.{Asks, Edits, State};
ghost use Rattle.at_model.specs.Sparing.{AreWellKept};
ghost use Rattle.at_model.specs.Edits.{Edit, edited};
ghost use Rattle.at_store.specs.Preparing.{IsCommitted};
ghost use Rattle.at_store.specs.Shown.{IsIdle, Shown, contents, path, tree};
ghost use Rattle.at_cache.specs.Kept.{Entries, LeavesUntouched, LosesTouched};
ghost use Rattle.at_evaluate.specs.Right.{AreRight};
ghost use Rattle.at_demand.specs.Spared.{LeavesJust};
ghost use Rattle.at_demand.specs.Answered.{AddsMet, HasWorthyFor};
ghost use Rattle.at_evaluate.specs.Sparing.{AddsWorthy, AreSpare, Counts};
ghost use Rattle.at_demand.specs.Called.{KeptBy, Keeps};
ghost use Rattle.at_demand.specs.Touched.{Touches};
ghost use Rattle.at_evaluate.specs.Traces.{AreJustified, AreOfTree, IsRemembered};
ghost use Rattle.at_cache.specs.Traced.{FlushesTraces, Memories, StayTraced, Trace};
ghost use Rattle.at_demand.specs.State.{State as Now};
ghost use Rattle.at_demand.specs.Went.{EditMade, HasCause, IsAsked, Went, asked};

/// Over an edit that is done, what is kept stays right where it stands for no location that the edit touches.
pub fn what_is_kept_stays_right()
    ensures { (rules : Rules) (old new : Shown) (e : Edit) (t : Tree) → IsIdle old → conforms rules.classes (tree old) 0 ≡ true
        → edited rules.classes (tree old) e ≡ Ok t → IsCommitted old e new
        → (before later : Entries) → AreRight rules old before → LeavesUntouched (Touches old e) before later → AreRight rules new later }
{}

/// Over an edit that is done, what is left of what is kept is just what rests on nothing that the edit touches, and that is
/// spare, where an entry goes only for a location that the edit touches.
pub fn what_is_kept_stays_spare()
    ensures { (rules : Rules) (old new : Shown) (e : Edit) (t : Tree) → IsIdle old → conforms rules.classes (tree old) 0 ≡ true
        → edited rules.classes (tree old) e ≡ Ok t → IsCommitted old e new
        → (before later : Entries) → AreRight rules old before → AreSpare rules (contents old) before
        → LeavesUntouched (Touches old e) before later → LosesTouched (Touches old e) before later
        → LeavesJust rules old e before later × AreSpare rules (contents new) later }
{}

/// What is kept right and spare is well kept, by the paths of nodes.
pub fn what_is_kept_spare_is_well_kept()
    ensures { (rules : Rules) (s : Shown) → IsIdle s → (entries : Entries) → AreRight rules s entries → AreSpare rules (contents s) entries
        → AreWellKept rules (tree s) (KeptBy s entries) }
{}

/// A question that adds just what is worth keeping for its answer, where that is a circle of what its search has met before, and counts it, adds
/// by the paths of nodes what the model says, and has that much work.
pub fn a_question_adds_what_is_worth_keeping()
    ensures { (rules : Rules) (s : Shown) → IsIdle s → (q : Instance ℕ) (p : Instance Node) → InstanceLike (Names (path s)) q p
        → (old new : Entries) (work later : ℕ) → AddsWorthy rules (contents s) q old new → AddsMet rules (contents s) q old new
        → (a : Answer ℕ) → Answers (contents s) (meaning rules) q a → HasWorthyFor rules (contents s) q a new → Counts old new work later
        → (state : State) → state.tree ≡ tree s → Keeps rules state (Asks p) (KeptBy s old) (KeptBy s new) work later }
{}

/// An edit that is done and leaves just what is untouched leaves by the paths of nodes what the model says, and has no work.
pub fn an_edit_leaves_what_it_does_not_touch()
    ensures { (rules : Rules) (old new : Shown) (e : Edit) (t : Tree) → IsIdle old → conforms rules.classes (tree old) 0 ≡ true
        → edited rules.classes (tree old) e ≡ Ok t → IsCommitted old e new
        → (before later : Entries) → AreRight rules old before → LeavesJust rules old e before later
        → (state : State) → state.tree ≡ tree old → (work : ℕ) → Keeps rules state (Edits e t) (KeptBy old before) (KeptBy new later) work work }
{}

/// Over an edit that is done, what can be kept again is right still, where nothing that was looked at for it is touched.
pub fn what_can_be_kept_again_stays_right()
    ensures { (rules : Rules) (old new : Shown) (e : Edit) (t : Tree) → IsIdle old → conforms rules.classes (tree old) 0 ≡ true
        → edited rules.classes (tree old) e ≡ Ok t → IsCommitted old e new
        → (before later : Memories) → IsRemembered rules old before → FlushesTraces (Touches old e) before later → IsRemembered rules new later }
{}

/// So it is on the same tree, where each trace was there, over the same last values.
pub fn what_stays_traced_is_right()
    ensures justified { (rules : Rules) (s : Shown) (before later : Memories) → StayTraced before later → AreJustified rules (contents s) before
        → AreJustified rules (contents s) later }
    ensures there { (s : Shown) (before later : Memories) → StayTraced before later → AreOfTree s before → AreOfTree s later }
{}

/// What could be kept again is made by a question only if, since then, an edit touched what was looked at for its value, or something that was
/// used for it was put with another value, or a turn put it itself; or an edit let go of it, whatever it touched, where more was in memory than
/// its bound allows or much more than was kept.
pub fn what_is_made_again_has_a_cause()
    ensures { (old new later : Now) (es : List EditMade) (w : Went old es new) (x : IsAsked new later)
        → (i : Instance ℕ) (t : Trace) → old.memories.traced i ≡ Some t → Among i x.makes.made → HasCause old i t es later (asked new later es w x) }
{}

/// Where no attribute is circular, what is said by formulas is what equations alone say: outcomes and answers, what an instance leads to, and
/// what it rests on.
pub fn by_equations_where_none_is_circular()
    ensures outcomes { (rules : Rules) → HasNoneCircular rules → (look : Contents ℕ) (i : Instance ℕ) (o : Outcome ℕ)
        → (plain.Holds look (equations rules) i o ↔ Holds look (meaning rules) i o) }
    ensures answers { (rules : Rules) → HasNoneCircular rules → (look : Contents ℕ) (i : Instance ℕ) (a : Answer ℕ)
        → (plain.Answers look (equations rules) i a ↔ Answers look (meaning rules) i a) }
    ensures demands { (rules : Rules) → HasNoneCircular rules → (look : Contents ℕ) (i j : Instance ℕ)
        → (plain.Leads look (equations rules) i j ↔ Leads look (meaning rules) i j) }
    ensures support { (rules : Rules) → HasNoneCircular rules → (look : Contents ℕ) (l : Location ℕ) (i : Instance ℕ)
        → (support.Supports look (equations rules) l i ↔ Supports look (meaning rules) l i) }
{}
