//! Laws over numbered nodes, as they hold over paths, and from the ones to the others: each is the contract of
//! a function that does nothing.

ghost use Rattle.std.specs.Prelude.{◌≡◌, ◌↔◌, ℕ, nat_eq, None, Option, true};
ghost use Rattle.at_model.specs.Trees.{Tree};
ghost use Rattle.at_model.specs.Paths.{Node};
ghost use Rattle.at_model.specs.Run.{
  Contents,
  FaultKind,
  Faulted,
  Instance,
  Known,
  Location,
  MatchTried,
  Value,
  demands,
  has_ended,
  reads,
  tried,
};
ghost use Rattle.at_model.specs.Rules.{Rules, evaluation};
ghost use Rattle.at_model.specs.Meaning.{
  Among,
  Circular,
  Comes,
  Equations,
  Faults,
  Finds,
  HasValue,
  Holds,
  Leads,
  Outcome,
  Right,
  content,
  equations,
};
ghost use Rattle.at_model.specs.Support.{Sees, Supports};
ghost use Rattle.at_model.specs.Alike.{
  AlikeAt,
  AlikeBelow,
  InstanceLike,
  IsInjective,
  LocationLike,
  Names,
  OutcomeLike,
  ValueLike,
};

/// By numbers, too, an instance has one outcome at most, or a circle at one instance; values and faults spread
/// along demands, and a fault's place is where its equation fails.
pub fn outcomes_by_numbers()
    ensures one_outcome { (look : Contents ℕ) (equation : Equations ℕ) (i : Instance ℕ) (o p : Outcome ℕ)
        → Holds look equation i o → Holds look equation i p → o ≡ p }
    ensures outcome_or_circle { (look : Contents ℕ) (equation : Equations ℕ) (q j : Instance ℕ) (o : Outcome ℕ)
        → Holds look equation q o → Circular look equation q j → ⊥ }
    ensures one_circle { (look : Contents ℕ) (equation : Equations ℕ) (q j k : Instance ℕ)
        → Circular look equation q j → Circular look equation q k → j ≡ k }
    ensures values { (look : Contents ℕ) (equation : Equations ℕ) (i j : Instance ℕ) (v : Value ℕ)
        → HasValue look equation i v → Leads look equation i j → (w : Value ℕ) × HasValue look equation j w }
    ensures faults { (look : Contents ℕ) (equation : Equations ℕ) (i j k : Instance ℕ) (f : FaultKind)
        → Leads look equation i j → Holds look equation j (Faults f k) → Holds look equation i (Faults f k) }
    ensures places { (look : Contents ℕ) (equation : Equations ℕ) (q i : Instance ℕ) (f : FaultKind) → Holds look equation q (Faults f i)
        → Leads look equation q i × ((known : Known ℕ) × Right look equation known × (tried look known (equation i) ≡ Faulted f)) }
{}

/// By numbers, too, a try over values that hold finds the outcome or what is needed, and reads and demands just
/// what the evaluation sees and comes to.
pub fn tries_by_numbers()
    ensures right { (look : Contents ℕ) (equation : Equations ℕ) (known : Known ℕ) → Right look equation known → (i : Instance ℕ)
        → MatchTried (tried look known (equation i))
        (λ v. Holds look equation i (Finds v))
        (λ f. Holds look equation i (Faults f i))
        (λ j. Comes look equation i j × (known j ≡ None)) }
    ensures seen { (look : Contents ℕ) (equation : Equations ℕ) (known : Known ℕ) (i : Instance ℕ) (l : Location ℕ) → Right look equation known
        → has_ended (tried look known (equation i)) ≡ true → Among l (reads look known (equation i)) ↔ Sees look (HasValue look equation) (equation i) l }
    ensures demanded { (look : Contents ℕ) (equation : Equations ℕ) (known : Known ℕ) (i j : Instance ℕ) → Right look equation known
        → has_ended (tried look known (equation i)) ≡ true → Among j (demands look known (equation i)) ↔ Comes look equation i j }
{}

/// By numbers, too, an instance has the carried outcome, demands and support where two trees are alike at all
/// that supports it.
pub fn carried_by_numbers()
    ensures outcome { (carry : ℕ → Option ℕ) → IsInjective carry → (rules : Rules) (before after : Contents ℕ) (i j : Instance ℕ) (o : Outcome ℕ)
        → InstanceLike (Names carry) i j → AlikeBelow (Names carry) before after (evaluation rules nat_eq) i
        → Holds before (evaluation rules nat_eq) i o
        → (p : Outcome ℕ) × Holds after (evaluation rules nat_eq) j p × OutcomeLike (Names carry) o p }
    ensures demands { (carry : ℕ → Option ℕ) → IsInjective carry → (rules : Rules) (before after : Contents ℕ) (i j k : Instance ℕ)
        → InstanceLike (Names carry) i j → AlikeBelow (Names carry) before after (evaluation rules nat_eq) i
        → Leads before (evaluation rules nat_eq) i k
        → (m : Instance ℕ) × InstanceLike (Names carry) k m × Leads after (evaluation rules nat_eq) j m }
    ensures no_other_demands { (carry : ℕ → Option ℕ) → IsInjective carry → (rules : Rules) (before after : Contents ℕ) (i j m : Instance ℕ) (o : Outcome ℕ)
        → InstanceLike (Names carry) i j → AlikeBelow (Names carry) before after (evaluation rules nat_eq) i
        → Holds before (evaluation rules nat_eq) i o → Leads after (evaluation rules nat_eq) j m
        → (k : Instance ℕ) × InstanceLike (Names carry) k m × Leads before (evaluation rules nat_eq) i k }
    ensures support { (carry : ℕ → Option ℕ) → IsInjective carry → (rules : Rules) (before after : Contents ℕ) (i j : Instance ℕ) (l : Location ℕ)
        → InstanceLike (Names carry) i j → AlikeBelow (Names carry) before after (evaluation rules nat_eq) i
        → Supports before (evaluation rules nat_eq) l i
        → (m : Location ℕ) × LocationLike (Names carry) l m × Supports after (evaluation rules nat_eq) m j }
    ensures no_other_support { (carry : ℕ → Option ℕ) → IsInjective carry
        → (rules : Rules) (before after : Contents ℕ) (i j : Instance ℕ) (m : Location ℕ) (o : Outcome ℕ)
        → InstanceLike (Names carry) i j → AlikeBelow (Names carry) before after (evaluation rules nat_eq) i
        → Holds before (evaluation rules nat_eq) i o → Supports after (evaluation rules nat_eq) m j
        → (l : Location ℕ) × LocationLike (Names carry) l m × Supports before (evaluation rules nat_eq) l i }
{}

/// Over numbered nodes that stand for those of a tree, an instance has the value that the instance for which
/// it stands has over the paths, in both directions; and so with what it leads to, and with what it rests on.
pub fn numbers_and_paths()
    ensures value { (path : ℕ → Option Node) → IsInjective path → (rules : Rules) (t : Tree) (numbers : Contents ℕ)
        → ((l : Location ℕ) → AlikeAt (Names path) numbers (content t) l)
        → (i : Instance ℕ) (j : Instance Node) (v : Value ℕ) → InstanceLike (Names path) i j → HasValue numbers (evaluation rules nat_eq) i v
        → (w : Value Node) × HasValue (content t) (equations rules) j w × ValueLike (Names path) v w }
    ensures value_back { (path : ℕ → Option Node) → IsInjective path → (rules : Rules) (t : Tree) (numbers : Contents ℕ)
        → ((l : Location ℕ) → AlikeAt (Names path) numbers (content t) l)
        → (i : Instance ℕ) (j : Instance Node) (w : Value Node) → InstanceLike (Names path) i j → HasValue (content t) (equations rules) j w
        → (v : Value ℕ) × HasValue numbers (evaluation rules nat_eq) i v × ValueLike (Names path) v w }
    ensures leads { (path : ℕ → Option Node) → IsInjective path → (rules : Rules) (t : Tree) (numbers : Contents ℕ)
        → ((l : Location ℕ) → AlikeAt (Names path) numbers (content t) l)
        → (i : Instance ℕ) (j : Instance Node) (k : Instance ℕ) → InstanceLike (Names path) i j → Leads numbers (evaluation rules nat_eq) i k
        → (m : Instance Node) × InstanceLike (Names path) k m × Leads (content t) (equations rules) j m }
    ensures leads_back { (path : ℕ → Option Node) → IsInjective path → (rules : Rules) (t : Tree) (numbers : Contents ℕ)
        → ((l : Location ℕ) → AlikeAt (Names path) numbers (content t) l)
        → (i : Instance ℕ) (j m : Instance Node) → InstanceLike (Names path) i j → Leads (content t) (equations rules) j m
        → (k : Instance ℕ) × InstanceLike (Names path) k m × Leads numbers (evaluation rules nat_eq) i k }
    ensures support { (path : ℕ → Option Node) → IsInjective path → (rules : Rules) (t : Tree) (numbers : Contents ℕ)
        → ((l : Location ℕ) → AlikeAt (Names path) numbers (content t) l)
        → (i : Instance ℕ) (j : Instance Node) (l : Location ℕ) → InstanceLike (Names path) i j → Supports numbers (evaluation rules nat_eq) l i
        → (m : Location Node) × LocationLike (Names path) l m × Supports (content t) (equations rules) m j }
    ensures support_back { (path : ℕ → Option Node) → IsInjective path → (rules : Rules) (t : Tree) (numbers : Contents ℕ)
        → ((l : Location ℕ) → AlikeAt (Names path) numbers (content t) l)
        → (i : Instance ℕ) (j : Instance Node) (m : Location Node) → InstanceLike (Names path) i j → Supports (content t) (equations rules) m j
        → (l : Location ℕ) × LocationLike (Names path) l m × Supports numbers (evaluation rules nat_eq) l i }
{}
