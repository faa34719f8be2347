//! Laws of questions that are given turns: each is the contract of a function that does nothing.

ghost use Rattle.std.specs.Prelude.{Option, [], ◌≡◌, ◌⊎◌, ◌≤◌, ◌+◌, ◌*◌, IsSome, None, Some, false, length, ℕ};
ghost use Rattle.at_model.specs.Alike.{InstanceLike, Names};
ghost use Rattle.at_model.specs.Asking.{IsWellFormed};
ghost use Rattle.at_model.specs.Instances.{instances};
ghost use Rattle.at_model.specs.Paths.{Node};
ghost use Rattle.at_model.specs.Rules.{Rules};
ghost use Rattle.at_model.specs.Meaning.{Answer, Outcome, Reaches};
ghost use Rattle.at_model.specs.Run.{Contents, Instance, Known, Value};
ghost use Rattle.at_model.specs.WellFormed.{AreWellFormed, IsTreeSound};
ghost use Rattle.at_model.specs.Turning.{IsOn, Silent, UnderWay, posted};
ghost use Rattle.at_model.specs.of_fixpoints.Circles.{Circular, HasNone};
ghost use Rattle.at_model.specs.of_fixpoints.Fixpoints.{HasValue, Holds};
ghost use Rattle.at_model.specs.of_fixpoints.Formulas.{Forms};
ghost use Rattle.at_model.specs.of_fixpoints.Met.{IsLookedAt};
ghost use Rattle.at_model.specs.of_fixpoints.Searched.{IsOn as SearchIsOn};
ghost use Rattle.at_model.specs.of_fixpoints.Searching.{Search, Silent as SilentSearch, Turned, posted as search_posted};
ghost use Rattle.at_store.specs.Shown.{IsIdle, Shown, contents, path, tree};
ghost use Rattle.at_cache.specs.Kept.{Entries};
ghost use Rattle.at_cache.specs.Traced.{Memories, Settled, TracesNothing};
ghost use Rattle.at_demand.specs.Again.{KeepsAgain};
ghost use Rattle.at_demand.specs.Answerable.{CanBegin};
ghost use Rattle.at_demand.specs.declared.question.Question.{Question};
ghost use Rattle.at_evaluate.specs.Inner.{AreKnown};
ghost use Rattle.at_evaluate.specs.Valued.{equations, kept_values, meaning};
ghost use Rattle.at_evaluate.specs.Meant.{AreRightValues};
ghost use Rattle.at_evaluate.specs.Led.{AddsDemanded, DemandsOn};
ghost use Rattle.at_demand.specs.Reasons.{HasReason, HasReasons};
ghost use Rattle.at_evaluate.specs.Traces.{AreJustified};
ghost use Rattle.at_demand.specs.Turns.{AreTurns, AreTurnsOfChain, IsSparingTurns, IsStanding, MayComeIn};

/// Twice the number of all instances is two more than the turns that a question is given without an answer, whatever is kept
/// at each of them; and all that is under way and was found are that many instances at most.
pub fn a_question_has_few_turns()
    ensures turns { (rules : Rules) (s : Shown) → IsIdle s → (q : Instance ℕ) (p : Instance Node) → InstanceLike (Names (path s)) q p
        → AreWellFormed rules → IsTreeSound rules.classes (tree s) → IsWellFormed rules (tree s) p
        → (n : ℕ) (u : UnderWay ℕ) → Silent (contents s) (equations rules) n (posted q) u → n + 2 ≤ 2 * length (instances rules (tree s) p.arguments) }
    ensures found { (rules : Rules) (s : Shown) → IsIdle s → (q : Instance ℕ) (p : Instance Node) → InstanceLike (Names (path s)) q p
        → AreWellFormed rules → IsTreeSound rules.classes (tree s) → IsWellFormed rules (tree s) p
        → (u : UnderWay ℕ) → IsOn (contents s) (equations rules) q u → length u.waiting + 1 + length u.found ≤ length (instances rules (tree s) p.arguments) }
{}

/// A search over formulas is given as few turns without an answer: a question for which it stands may lead to circular attributes.
pub fn a_search_has_few_turns()
    ensures { (rules : Rules) (s : Shown) → IsIdle s → (q : Instance ℕ) (p : Instance Node) → InstanceLike (Names (path s)) q p
        → AreWellFormed rules → IsTreeSound rules.classes (tree s) → IsWellFormed rules (tree s) p → (n : ℕ) (u : Search ℕ)
        → SilentSearch (contents s) (meaning rules) n (search_posted q) u → n + 2 ≤ 2 * length (instances rules (tree s) p.arguments) }
{}

/// A question that was posted on the tree as it is stands so while more comes to what is kept, by whichever question.
pub fn a_question_stands_while_more_is_kept()
    ensures stands { (rules : Rules) (s : Shown) (entries more : Entries) → ((i : Instance ℕ) → IsSome (entries i) → more i ≡ entries i) → (q : Question)
        → IsStanding rules s entries q → IsStanding rules s more q }
    ensures spares { (rules : Rules) (s : Shown) (entries more : Entries) → ((i : Instance ℕ) → IsSome (entries i) → more i ≡ entries i) → (q : Question)
        → IsStanding rules s entries q → IsSparingTurns rules (contents s) entries q → IsSparingTurns rules (contents s) more q }
{}

/// Where nothing is traced nothing is kept again before a turn; nor is it where turns don't keep again, whatever is traced: turns are then what they
/// are over any memories, such as those that trace nothing.
pub fn without_traces_nothing_is_kept_again()
    ensures untraced { (m : Memories) (q : Instance ℕ) (old new : Entries) → TracesNothing m → KeepsAgain m q old new → (i : Instance ℕ) → new i ≡ old i }
    ensures searched { (rules : Rules) (s : Shown) (m any : Memories) → m.in_turns ≡ false → (n : ℕ) (before after : Entries) (u v : Search ℕ)
        (o : Option (Answer ℕ)) → AreTurns rules s m n before u after v o → AreTurns rules s any n before u after v o }
    ensures plainly { (rules : Rules) (s : Shown) (m any : Memories) → m.in_turns ≡ false → (n : ℕ) (before after : Entries) (u v : UnderWay ℕ)
        (o : Option (Answer ℕ)) → AreTurnsOfChain rules s m n before u after v o → AreTurnsOfChain rules s any n before u after v o }
{}

/// Where a circle answers a question, each demand of an equation at which its search looks is decided: it has an outcome, or it has none, and
/// the search looks at it, too.
pub fn what_is_looked_at_is_decided()
    ensures { (look : Contents ℕ) (forms : Forms ℕ) (q c i j : Instance ℕ) → Circular look forms q c → IsLookedAt look forms q i
        → Reaches look (HasValue look forms) (forms.formula i) j
        → ((o : Outcome ℕ) × Holds look forms j o) ⊎ (HasNone look forms j × IsLookedAt look forms q j) }
{}

/// Turns leave a search with reason, where a circle answers the question, from when it is posted on, where all that is kept has one; and so does
/// more that was known at first, such as what other questions have kept in between.
pub fn a_search_goes_on_with_reason()
    ensures posted { (look : Contents ℕ) (forms : Forms ℕ) (first : Known ℕ) (q : Instance ℕ) → HasReasons look forms first q (search_posted q) }
    ensures more { (look : Contents ℕ) (forms : Forms ℕ) (first more : Known ℕ) → ((i : Instance ℕ) (v : Value ℕ) → first i ≡ Some v → more i ≡ Some v)
        → (q : Instance ℕ) (u : Search ℕ) → HasReasons look forms first q u → HasReasons look forms more q u }
    ensures turned { (rules : Rules) (s : Shown) (first kept : Known ℕ) (q c : Instance ℕ) → CanBegin rules s q
        → Circular (contents s) (meaning rules) q c
        → AreRightValues (contents s) (meaning rules) kept
        → ((i : Instance ℕ) (v : Value ℕ) → kept i ≡ Some v → HasReason (contents s) (meaning rules) first q i)
        → (u v : Search ℕ) → SearchIsOn (contents s) (meaning rules) q u → HasReasons (contents s) (meaning rules) first q u
        → Turned (contents s) (meaning rules) kept u v None → HasReasons (contents s) (meaning rules) first q v }
{}

/// So what a turn lets come to be known has a reason: what was known at first leads to it, or the question has met it. And so has what comes
/// while the last instance is evaluated in one go, along demands.
pub fn what_comes_has_a_reason()
    ensures turned { (look : Contents ℕ) (forms : Forms ℕ) (first : Known ℕ) (q c : Instance ℕ) → Circular look forms q c → (u : Search ℕ)
        → SearchIsOn look forms q u → HasReasons look forms first q u → (j : Instance ℕ) (v : Value ℕ) → MayComeIn u j → HasValue look forms j v
        → HasReason look forms first q j }
    ensures ahead { (look : Contents ℕ) (forms : Forms ℕ) (first : Known ℕ) (q c : Instance ℕ) → Circular look forms q c → (u : Search ℕ)
        → SearchIsOn look forms q u → HasReasons look forms first q u → (j : Instance ℕ) (v : Value ℕ) → DemandsOn look forms u.last.next j
        → HasValue look forms j v → HasReason look forms first q j }
{}

/// Demands lead from an instance to all that is kept again for it.
pub fn what_is_kept_again_is_demanded()
    ensures { (rules : Rules) (s : Shown) → IsIdle s → (m : Memories) (q : Instance ℕ) (n : ℕ) (old new : Entries)
        → AreJustified rules (contents s) m → AreKnown rules (contents s) old []
        → ((i : Instance ℕ) (v : Value ℕ) → kept_values old i ≡ Some v → m.last i ≡ Some v) → Settled m q n old new
        → AddsDemanded (contents s) (meaning rules) q (kept_values old) (kept_values new) }
{}

/// Where a circle answers a question, all that its turns let come to be kept has a reason, however many they are, and also where the last one answers:
/// what was kept when it was posted leads to it, or the question has met it.
pub fn what_turns_let_come_was_met()
    ensures { (rules : Rules) (s : Shown) (m : Memories) (q c : Instance ℕ) → CanBegin rules s q → Circular (contents s) (meaning rules) q c
        → (before after : Entries) → AreRightValues (contents s) (meaning rules) (kept_values before)
        → (n : ℕ) (u : Search ℕ) (o : Option (Answer ℕ)) → AreTurns rules s m n before (search_posted q) after u o
        → (i : Instance ℕ) (v : Value ℕ) → kept_values after i ≡ Some v
        → HasReason (contents s) (meaning rules) (kept_values before) q i }
{}
