//! Laws of questions of circular attributes that are given turns: each is the contract of a function that does nothing.

ghost use Rattle.std.specs.Prelude.{Bool, IfNone, List, None, Option, Some, length, true, [], ◌*◌, ◌++◌, ◌+◌, ◌∷◌, ◌≡◌, ◌≤◌, ◌⊎◌, ℕ};
ghost use Rattle.at_model.specs.Asking.{IsWellFormed};
ghost use Rattle.at_model.specs.Instances.{instances};
ghost use Rattle.at_model.specs.Meaning.{Among, Answer, Comes as ComesPlainly, Equations, Faults, Holds as HoldsPlainly, Right, content};
ghost use Rattle.at_model.specs.Paths.{Node};
ghost use Rattle.at_model.specs.Rules.{Rules};
ghost use Rattle.at_model.specs.Run.{Contents, FaultKind, Instance, Known, Value};
ghost use Rattle.at_model.specs.Trees.{Tree};
ghost use Rattle.at_model.specs.Turning.{IsOn as ChainIsOn, Silent as ChainSilent, Turned as ChainTurned, UnderWay, posted as begin_chain};
ghost use Rattle.at_model.specs.WellFormed.{AreWellFormed, IsTreeSound};
ghost use Rattle.at_model.specs.of_fixpoints.Chains.{AreKept, IsOwn, IsSearchOf};
ghost use Rattle.at_model.specs.of_fixpoints.Circles.{Answers, HasNone, IsOpen};
ghost use Rattle.at_model.specs.of_fixpoints.Evaluations.{forms};
ghost use Rattle.at_model.specs.of_fixpoints.Fixpoints.{End, EndsSo, HasValue};
ghost use Rattle.at_model.specs.of_fixpoints.Formulas.{Formula, Forms};
ghost use Rattle.at_model.specs.of_fixpoints.Met.{HasLookedAt, HaveLookedAt, IsLookedAt, LooksAt};
ghost use Rattle.at_model.specs.of_fixpoints.Resting.{Leads};
ghost use Rattle.at_model.specs.of_fixpoints.Searched.{AreClosed, AreStacked, IsMade, IsOn};
ghost use Rattle.at_model.specs.of_fixpoints.Searching.{IsValued, Level, Search, Silent, Turned, asked_in, posted, root_of, under};
ghost use Rattle.at_model.specs.of_fixpoints.Sets.{plain_forms};

/// A question of circular attributes stands on its tree as it is posted, and, where what is kept is right, after each turn: each
/// level is that of a demand of the one below, and its search, depth first, has come so far from its root.
pub fn a_turn_leaves_a_search_on_its_tree()
    ensures begun { (look : Contents Node) (forms : Forms Node) (q : Instance Node) → IsOn look forms q (posted q) }
    ensures stays { (rules : Rules) → AreWellFormed rules → (t : Tree) → IsTreeSound rules.classes t
        → (q : Instance Node) → IsWellFormed rules t q → (kept : Known Node)
        → ((i : Instance Node) (v : Value Node) → kept i ≡ Some v → HasValue (content t) (forms rules) i v)
        → (s new : Search Node) → IsOn (content t) (forms rules) q s
        → Turned (content t) (forms rules) kept s new None → IsOn (content t) (forms rules) q new }
{}

/// After so many turns without an answer, whatever is kept at each of them, twice the number of the instances there are is at least
/// two more than the turns: no equation is tried twice to its end, and none is demanded twice.
pub fn a_search_has_few_turns()
    ensures { (rules : Rules) → AreWellFormed rules → (t : Tree) → IsTreeSound rules.classes t
        → (q : Instance Node) → IsWellFormed rules t q → (n : ℕ) (s : Search Node)
        → Silent (content t) (forms rules) n (posted q) s → n + 2 ≤ 2 * length (instances rules t q.arguments) }
{}

/// What a turn of such a question answers is the answer that the formulas give it: a value, a fault, or a circle that is closed where
/// the search, level by level, comes back.
pub fn an_answer_of_a_search_is_that_of_the_question()
    ensures { (rules : Rules) → AreWellFormed rules → (t : Tree) → IsTreeSound rules.classes t
        → (q : Instance Node) → IsWellFormed rules t q → (kept : Known Node)
        → ((i : Instance Node) (v : Value Node) → kept i ≡ Some v → HasValue (content t) (forms rules) i v)
        → (s new : Search Node) (a : Answer Node) → IsOn (content t) (forms rules) q s
        → Turned (content t) (forms rules) kept s new (Some a) → Answers (content t) (forms rules) q a }
{}

/// What a search looks at: what was asked leads to it. One that passes what was told, all to which formulas lead from that with it, looks
/// beside that at the same as one that passes nothing, as it begins and after each step, and over levels of which none has an outcome; and
/// where it comes back to one that is under way and has no outcome, that is the last one.
pub fn what_a_search_looks_at()
    ensures led { (look : Contents Node) (forms : Forms Node) (q i : Instance Node) → IsLookedAt look forms q i → Leads look forms q i }
    ensures begun { (look : Contents Node) (forms : Forms Node) (told : Instance Node → Bool) (below : List (Instance Node)) (q : Instance Node)
        → HasLookedAt look forms (λ k. told k ≡ true) below q [] (q ∷ []) }
    ensures seen { (look : Contents Node) (forms : Forms Node) (told : Instance Node → Bool) (below : List (Instance Node)) (q : Instance Node)
        (seen : List (Instance Node)) (i : Instance Node) (todo : List (Instance Node))
        → HasLookedAt look forms (λ k. told k ≡ true) below q seen (i ∷ todo) → (IsOpen look forms below i → ⊥) → Among i seen
        → HasLookedAt look forms (λ k. told k ≡ true) below q seen todo }
    ensures passed { (look : Contents Node) (forms : Forms Node) (told : Instance Node → Bool) (below : List (Instance Node)) (q : Instance Node)
        (seen : List (Instance Node)) (i : Instance Node) (todo : List (Instance Node))
        → HasLookedAt look forms (λ k. told k ≡ true) below q seen (i ∷ todo) → (these : List (Instance Node)) → AreClosed (EndsSo look forms) IsMade these
        → ((k : Instance Node) → Among k these → HasNone look forms k → ⊥) → ((k : Instance Node) → Among k these → told k ≡ true) → Among i these
        → HasLookedAt look forms (λ k. told k ≡ true) below q seen todo }
    ensures ended { (look : Contents Node) (forms : Forms Node) (told : Instance Node → Bool) (below : List (Instance Node)) (q : Instance Node)
        (seen : List (Instance Node)) (i : Instance Node) (todo : List (Instance Node))
        → HasLookedAt look forms (λ k. told k ≡ true) below q seen (i ∷ todo) → (e : End Node (Formula Node)) → EndsSo look forms i e → (Among i seen → ⊥)
        → (IsOpen look forms below i → ⊥) → HasLookedAt look forms (λ k. told k ≡ true) below q (i ∷ seen) (asked_in e ++ todo) }
    ensures levels { (look : Contents Node) (forms : Forms Node) (told : Instance Node → Bool) (root : Instance Node) (levels : List (Level Node))
        → AreStacked look forms root levels → HasNone look forms root → HaveLookedAt look forms (λ k. told k ≡ true) levels → (x : Instance Node)
        → Among x (under levels) → (told x ≡ true) ⊎ IsLookedAt look forms (root_of root levels) x }
    ensures only { (look : Contents Node) (forms : Forms Node) (told : Instance Node → Bool) (root : Instance Node) (levels : List (Level Node))
        → AreStacked look forms root levels → HasNone look forms root → HaveLookedAt look forms (λ k. told k ≡ true) levels → (x : Instance Node)
        → IsLookedAt look forms (root_of root levels) x
        → (told x ≡ true) ⊎ (Among x (under levels) ⊎ LooksAt look forms (under levels) [] (root ∷ []) x) }
    ensures back { (look : Contents Node) (forms : Forms Node) (below seen todo : List (Instance Node)) (i x : Instance Node)
        → IsOpen look forms below i → LooksAt look forms below seen (i ∷ todo) x → x ≡ i }
{}

/// Where no attribute is circular, a question's chain is a search whose levels have one instance each: so it begins, and each turn of the
/// chain is one of the search, which is then that of the new chain. A turn of the search is one of the chain, too, where the values that are
/// kept hold, and a fault that it answers is that of the instance that is tried.
pub fn a_chain_is_a_search()
    ensures begun { (kept : Known Node) (q : Instance Node) → IsSearchOf kept (begin_chain q) (posted q) }
    ensures chain { (look : Contents Node) (equation : Equations Node) (before kept : Known Node) (q : Instance Node) (u new : UnderWay Node)
        (s : Search Node) (o : Option (Answer Node)) → ChainIsOn look equation q u → AreKept before kept → IsSearchOf before u s
        → ChainTurned look equation kept u new o
        → (t : Search Node) × Turned look (plain_forms equation) kept s t o × IsSearchOf before new t }
    ensures search { (look : Contents Node) (equation : Equations Node) (before kept : Known Node) (q : Instance Node) (u : UnderWay Node)
        (s t : Search Node) (o : Option (Answer Node)) → ChainIsOn look equation q u → AreKept before kept → IsSearchOf before u s
        → Right look equation kept → Turned look (plain_forms equation) kept s t o → IsOwn u.last o
        → (new : UnderWay Node) × ChainTurned look equation kept u new o × IfNone o (IsSearchOf before new t) }
{}

/// So each search that turns without an answer lead to is that of a chain, to which as many turns lead; and where all to which its last
/// instance comes is known, or has ended, a fault of that one is its own.
pub fn a_plain_search_is_a_chain()
    ensures turns { (look : Contents Node) (equation : Equations Node) (n : ℕ) (q : Instance Node) (s : Search Node)
        → Silent look (plain_forms equation) n (posted q) s
        → (u : UnderWay Node) × ChainSilent look equation n (begin_chain q) u × ChainIsOn look equation q u × IsSearchOf (λ i. None) u s }
    ensures own { (look : Contents Node) (equation : Equations Node) (before kept : Known Node) (q : Instance Node) (u : UnderWay Node)
        (s : Search Node) (f : FaultKind) (at : Instance Node) → ChainIsOn look equation q u → AreKept before kept → IsSearchOf before u s
        → Right look equation kept → HoldsPlainly look equation u.last (Faults f at)
        → ((j : Instance Node) → ComesPlainly look equation u.last j → IsValued kept s.told j ⊎ Among j s.ended) → at ≡ u.last }
{}
