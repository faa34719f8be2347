//! Laws over the definitions: each is the contract of a function that does nothing.

ghost use Rattle.std.specs.Prelude.{slice_get, ◌++◌, ◌∷◌, ◌≤◌, false, length, Some, ◌≡◌, ◌↔◌, nat_eq, None, Option, true, ℕ};
ghost use Rattle.at_model.specs.Classes.{Classes, is_sub};
ghost use Rattle.at_model.specs.Trees.{Tree, class_of, conforms};
ghost use Rattle.at_model.specs.Terms.{max_depth};
ghost use Rattle.at_model.specs.Paths.{Node, node_eq, tree_at};
ghost use Rattle.at_model.specs.Run.{Contents, FaultKind, Instance, Is, Known, Location, LooksTo, MatchTried, Value, reads, tried};
ghost use Rattle.at_model.specs.Bodies.{Expr, Scope, eval};
ghost use Rattle.at_model.specs.Rules.{AreComplete, Attribute, Rules, Source, attribute_name, evaluation, is_inherited, own_equation, source_of};
ghost use Rattle.at_model.specs.Meaning.{
  Answer,
  Answers,
  Circular,
  Comes,
  Equations,
  Faults,
  Finds,
  HasValue,
  Holds,
  Leads,
  Outcome,
  Right,
  at_source,
  content,
  equations,
};
ghost use Rattle.at_model.specs.Support.{IsInstanceThere, IsThere, IsValueThere, Supports, argument_classes, way_up};
ghost use Rattle.at_model.specs.Touches.{node_of};
ghost use Rattle.at_model.specs.Alike.{
  AlikeAt,
  AlikeBelow,
  AnswerLike,
  EquationsLike,
  InstanceLike,
  IsInjective,
  KnownLike,
  ListLike,
  LocationLike,
  Names,
  OutcomeLike,
  RunLike,
  ScopeLike,
  TriedLike,
  ValueLike,
};

/// An instance has at most one outcome.
pub fn one_outcome()
    ensures { (look : Contents Node) (equation : Equations Node) (i : Instance Node) (o p : Outcome Node)
        → Holds look equation i o → Holds look equation i p → o ≡ p }
{}

/// No instance has both an outcome and a circle.
pub fn outcome_or_circle()
    ensures { (look : Contents Node) (equation : Equations Node) (q j : Instance Node) (o : Outcome Node)
        → Holds look equation q o → Circular look equation q j → ⊥ }
{}

/// A circle closes at one instance.
pub fn one_circle()
    ensures { (look : Contents Node) (equation : Equations Node) (q j k : Instance Node)
        → Circular look equation q j → Circular look equation q k → j ≡ k }
{}

/// What an instance with a value leads to has a value, and a fault of what an instance leads to is
/// its outcome.
pub fn outcomes_spread()
    ensures values { (look : Contents Node) (equation : Equations Node) (i j : Instance Node) (v : Value Node)
        → HasValue look equation i v → Leads look equation i j → (w : Value Node) × HasValue look equation j w }
    ensures faults { (look : Contents Node) (equation : Equations Node) (i j k : Instance Node) (f : FaultKind)
        → Leads look equation i j → Holds look equation j (Faults f k) → Holds look equation i (Faults f k) }
{}

/// A try over values that hold finds the outcome of the instance, or an instance that it comes to
/// and whose value isn't known.
pub fn try_is_right()
    ensures { (look : Contents Node) (equation : Equations Node) (known : Known Node) → Right look equation known → (i : Instance Node)
        → MatchTried (tried look known (equation i))
        (λ v. Holds look equation i (Finds v))
        (λ f. Holds look equation i (Faults f i))
        (λ j. Comes look equation i j × (known j ≡ None)) }
{}

/// Nodes are the same exactly where their paths are.
pub fn same_paths()
    ensures { (a b : Node) → (node_eq a b ≡ true) ↔ (a ≡ b) }
{}

/// What is read before an equation is evaluated, and which equation it is: the own equation of the
/// class of the node, or the inherited one of the longest proper prefix of its path that has one.
pub fn equations_found()
    ensures own { (rules : Rules) (t : Tree) (i : Instance Node) (u : Tree) (e : Expr) → tree_at t i.node ≡ Some u
        → is_inherited rules i.attribute ≡ false → own_equation rules (class_of u) i.attribute ≡ Some e
        → LooksTo (content t) (equations rules i) (Is i.node ∷ argument_classes i.arguments)
        (eval rules.classes node_eq e (record { this = i.node; names = i.arguments; child = None })) }
    ensures inherited { (rules : Rules) (t : Tree) (i : Instance Node) (u : Tree) (s : Source) → tree_at t i.node ≡ Some u
        → length i.node ≤ max_depth
        → is_inherited rules i.attribute ≡ true → source_of rules t (attribute_name rules i.attribute) i.node ≡ Some s
        → LooksTo (content t) (equations rules i) (Is i.node ∷ (argument_classes i.arguments ++ way_up rules t (attribute_name rules i.attribute) i.node))
        (at_source rules i.arguments s) }
{}

/// With complete rules each node of a tree that conforms has an equation for each attribute of its
/// class.
pub fn each_has_an_equation()
    ensures own { (rules : Rules) → AreComplete rules → (t : Tree) → conforms rules.classes t 0 ≡ true
        → (n : Node) (u : Tree) (attribute : ℕ) (a : Attribute) → tree_at t n ≡ Some u → slice_get rules.attributes attribute ≡ Some a
        → is_sub rules.classes (class_of u) a.class ≡ true → a.is_inherited ≡ false
        → (e : Expr) × (own_equation rules (class_of u) attribute ≡ Some e) }
    ensures inherited { (rules : Rules) → AreComplete rules → (t : Tree) → conforms rules.classes t 0 ≡ true
        → (n : Node) (u : Tree) (attribute : ℕ) (a : Attribute) → tree_at t n ≡ Some u → slice_get rules.attributes attribute ≡ Some a
        → is_sub rules.classes (class_of u) a.class ≡ true → a.is_inherited ≡ true
        → (s : Source) × (source_of rules t a.name n ≡ Some s) }
{}

/// An instance of nodes of a tree leads to such instances alone, refers to such a node where its
/// value refers to one, and rests on locations of such nodes.
pub fn within_the_tree()
    ensures value { (rules : Rules) (t : Tree) (i : Instance Node) (v : Value Node) → IsInstanceThere t i
        → HasValue (content t) (equations rules) i v → IsValueThere t v }
    ensures demands { (rules : Rules) (t : Tree) (i j : Instance Node) → IsInstanceThere t i
        → Leads (content t) (equations rules) i j → IsInstanceThere t j }
    ensures support { (rules : Rules) (t : Tree) (i : Instance Node) (l : Location Node) → IsInstanceThere t i
        → Supports (content t) (equations rules) l i → IsThere t (node_of l) }
{}

/// An expression is evaluated over numbered nodes as over the paths that they stand for.
pub fn expressions_alike()
    ensures { (path : ℕ → Option Node) → IsInjective path
        → (classes : Classes) (e : Expr) (numbers : Scope ℕ) (paths : Scope Node) → ScopeLike (Names path) numbers paths
        → RunLike (Names path) (ValueLike (Names path)) (eval classes nat_eq e numbers) (eval classes node_eq e paths) }
{}

/// Instances are evaluated over numbered nodes as over the paths that they stand for, and over a
/// tree as over the one after an edit that carries its nodes.
pub fn equations_alike()
    ensures numbers { (path : ℕ → Option Node) → IsInjective path → (rules : Rules) → EquationsLike (Names path) (evaluation rules nat_eq) (equations rules) }
    ensures paths { (carry : Node → Option Node) → IsInjective carry → (rules : Rules) → EquationsLike (Names carry) (equations rules) (equations rules) }
{}

/// Over numbered nodes that stand for those of a tree, a try ends as over the paths and reads the
/// same, and an answer is one over the paths.
pub fn numbers_for_paths()
    ensures tries { (path : ℕ → Option Node) → IsInjective path → (rules : Rules) (t : Tree) (numbers : Contents ℕ)
        → ((l : Location ℕ) → AlikeAt (Names path) numbers (content t) l)
        → (known : Known ℕ) (also : Known Node) → KnownLike (Names path) known also
        → (i : Instance ℕ) (j : Instance Node) → InstanceLike (Names path) i j
        → TriedLike (Names path) (ValueLike (Names path)) (tried numbers known (evaluation rules nat_eq i)) (tried (content t) also (equations rules j)) }
    ensures reads { (path : ℕ → Option Node) → IsInjective path → (rules : Rules) (t : Tree) (numbers : Contents ℕ)
        → ((l : Location ℕ) → AlikeAt (Names path) numbers (content t) l)
        → (known : Known ℕ) (also : Known Node) → KnownLike (Names path) known also
        → (i : Instance ℕ) (j : Instance Node) → InstanceLike (Names path) i j
        → ListLike (LocationLike (Names path)) (reads numbers known (evaluation rules nat_eq i)) (reads (content t) also (equations rules j)) }
    ensures answers { (path : ℕ → Option Node) → IsInjective path → (rules : Rules) (t : Tree) (numbers : Contents ℕ)
        → ((l : Location ℕ) → AlikeAt (Names path) numbers (content t) l)
        → (i : Instance ℕ) (j : Instance Node) (a : Answer ℕ) → InstanceLike (Names path) i j
        → Answers numbers (evaluation rules nat_eq) i a
        → (b : Answer Node) × AnswerLike (Names path) a b × Answers (content t) (equations rules) j b }
{}

/// Where two trees are alike at all that supports an instance, the instance that it is carried to
/// has the outcome that its outcome is carried to.
pub fn carried_outcome()
    ensures { (carry : Node → Option Node) → IsInjective carry → (rules : Rules) (before after : Tree) (i j : Instance Node) (o : Outcome Node)
        → InstanceLike (Names carry) i j
        → AlikeBelow (Names carry) (content before) (content after) (equations rules) i
        → Holds (content before) (equations rules) i o
        → (p : Outcome Node) × Holds (content after) (equations rules) j p × OutcomeLike (Names carry) o p }
{}

/// And it leads to the instances that what it led to is carried to, and to no others.
pub fn carried_demands()
    ensures kept { (carry : Node → Option Node) → IsInjective carry → (rules : Rules) (before after : Tree) (i j k : Instance Node)
        → InstanceLike (Names carry) i j
        → AlikeBelow (Names carry) (content before) (content after) (equations rules) i
        → Leads (content before) (equations rules) i k
        → (m : Instance Node) × InstanceLike (Names carry) k m × Leads (content after) (equations rules) j m }
    ensures no_others { (carry : Node → Option Node) → IsInjective carry → (rules : Rules) (before after : Tree) (i j m : Instance Node) (o : Outcome Node)
        → InstanceLike (Names carry) i j
        → AlikeBelow (Names carry) (content before) (content after) (equations rules) i
        → Holds (content before) (equations rules) i o
        → Leads (content after) (equations rules) j m
        → (k : Instance Node) × InstanceLike (Names carry) k m × Leads (content before) (equations rules) i k }
{}

/// And it rests on the locations that those are carried to on which the instance rested, and on no
/// others.
pub fn carried_support()
    ensures kept { (carry : Node → Option Node) → IsInjective carry → (rules : Rules) (before after : Tree) (i j : Instance Node) (l : Location Node)
        → InstanceLike (Names carry) i j
        → AlikeBelow (Names carry) (content before) (content after) (equations rules) i
        → Supports (content before) (equations rules) l i
        → (m : Location Node) × LocationLike (Names carry) l m × Supports (content after) (equations rules) m j }
    ensures no_others { (carry : Node → Option Node) → IsInjective carry
        → (rules : Rules) (before after : Tree) (i j : Instance Node) (m : Location Node) (o : Outcome Node)
        → InstanceLike (Names carry) i j
        → AlikeBelow (Names carry) (content before) (content after) (equations rules) i
        → Holds (content before) (equations rules) i o
        → Supports (content after) (equations rules) m j
        → (l : Location Node) × LocationLike (Names carry) l m × Supports (content before) (equations rules) l i }
{}
