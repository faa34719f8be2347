//! Laws of typed rules: each is the contract of a function that does nothing.

ghost use Rattle.std.specs.Prelude.{◌≡◌, ◌<◌, ℕ, false, length, List, nat_eq, Option, Some, true};
ghost use Rattle.std.specs.List.{list_any};
ghost use Rattle.at_model.specs.Classes.{AreSound, Classes};
ghost use Rattle.at_model.specs.Declarations.{above};
ghost use Rattle.at_model.specs.Trees.{Tree, class_of};
ghost use Rattle.at_model.specs.Paths.{Node, node_eq, tree_at};
ghost use Rattle.at_model.specs.Run.{Contents, Instance, Location, Value};
ghost use Rattle.at_model.specs.Bodies.{Expr, Scope, eval};
ghost use Rattle.at_model.specs.Rules.{
  Attribute,
  Kind,
  Rules,
  Source,
  attribute_name,
  evaluation,
  is_inherited,
  own_equation,
  source_of,
};
ghost use Rattle.at_model.specs.Meaning.{Among, Finds, HasValue, Leads, Outcomes, content, equations};
ghost use Rattle.at_model.specs.Alike.{AlikeAt, InstanceLike, IsInjective, Names};
ghost use Rattle.at_model.specs.Lines.{Line};
ghost use Rattle.at_model.specs.Machine.{Asks, AnswersIn, IsSound, State, verdict};
ghost use Rattle.at_model.specs.Enduring.{AreTokens};
ghost use Rattle.at_model.specs.Asking.{IsWellFormed};
ghost use Rattle.at_model.specs.Kinds.{AreTyped, HasKind, ScopeKinds};
ghost use Rattle.at_model.specs.Taking.{Takes};
ghost use Rattle.at_model.specs.TypedRuns.{
  AreEquationsTyped,
  IsOfItsKind,
  IsOfKind,
  IsOfScopeKinds,
  IsTypedRun,
  IsWellTyped,
  class_at,
  class_numbered,
};
ghost use Rattle.at_model.specs.Instances.{AnyText, IsGiven, instances};
ghost use Rattle.at_model.specs.WellFormed.{AreWellFormed, IsHierarchy, IsTreeSound};

/// Sound classes without a circle of superclasses are a hierarchy. The tree of a sound state is sound where its
/// tokens can be written: both are so after each line that is served.
pub fn what_is_served_is_sound()
    ensures classes { (classes : Classes) → AreSound classes → ((c : ℕ) → c < length classes → list_any (nat_eq c) (above classes c) ≡ false)
        → IsHierarchy classes }
    ensures tree { (classes : Classes) (s : State) → IsSound classes s → AreTokens s.tree → IsTreeSound classes s.tree }
{}

/// What a line is told is of the kind of the attribute that it asks for, where the rules are well formed.
pub fn a_line_is_told_a_value_of_its_kind()
    ensures { (rules : Rules) → AreWellFormed rules → (s : State) → IsTreeSound rules.classes s.tree → (l : Line) (q : Instance Node) (v : Value Node)
        → verdict rules s l ≡ Asks q → AnswersIn rules s.tree q (Outcomes (Finds v)) → IsOfItsKind rules (class_at s.tree) q v }
{}

/// An expression of a kind takes of its parts values of the kinds that its form asks: ints where it computes, booleans
/// where it decides, texts where it joins, and nodes of a class that has what is asked. As each part has its value
/// of that kind, no value of one kind is taken for one of another.
pub fn what_is_taken_has_its_kind()
    ensures { (rules : Rules) (s : ScopeKinds) (e : Expr) (k : Kind) → HasKind rules s e k → Takes rules s e }
{}

/// The evaluation of an expression of a kind, over a sound tree and in a scope of its kinds, is typed, and gives a
/// value of the kind.
pub fn a_typed_expression_has_its_kind()
    ensures { (rules : Rules) → IsHierarchy rules.classes → (t : Tree) → IsTreeSound rules.classes t
        → (s : ScopeKinds) (e : Expr) (k : Kind) (scope : Scope Node) → HasKind rules s e k
        → IsOfScopeKinds rules.classes (class_at t) AnyText s scope
        → IsTypedRun rules (class_at t) AnyText (content t) (λ v. IsOfKind rules.classes (class_at t) v k) (eval rules.classes node_eq e scope) }
{}

/// With well-formed rules, over a sound tree, the evaluation of each instance that is well typed is typed: with
/// whichever texts as arguments, and where these are given, it demands no instance with another text.
pub fn typed_rules_are_evaluated_typed()
    ensures any { (rules : Rules) → AreWellFormed rules → (t : Tree) → IsTreeSound rules.classes t
        → AreEquationsTyped rules (class_at t) AnyText (content t) (equations rules) }
    ensures given { (rules : Rules) → AreWellFormed rules → (t : Tree) → IsTreeSound rules.classes t → (vs : List (Value Node))
        → AreEquationsTyped rules (class_at t) (IsGiven rules t vs) (content t) (equations rules) }
{}

/// An instance is well formed where it is well typed: its arguments are then such as the parameters ask, and its
/// texts are given.
pub fn what_is_well_formed_is_well_typed()
    ensures typed { (rules : Rules) (t : Tree) (i : Instance Node) → IsWellFormed rules t i
        → IsWellTyped rules (class_at t) (IsGiven rules t i.arguments) i }
    ensures formed { (rules : Rules) (t : Tree) (i : Instance Node) → AreTyped rules → IsWellTyped rules (class_at t) AnyText i
        → IsWellFormed rules t i }
{}

/// With well-formed rules, over a sound tree: all that an instance leads to is well formed where it is, so that
/// each node in it is there, and each argument is such as its parameter asks.
pub fn what_is_demanded_is_well_formed()
    ensures { (rules : Rules) → AreWellFormed rules → (t : Tree) → IsTreeSound rules.classes t → (i j : Instance Node)
        → IsWellFormed rules t i → Leads (content t) (equations rules) i j → IsWellFormed rules t j }
{}

/// And the value of an instance is of the kind of its attribute; so is the value of all that it leads to.
pub fn a_value_is_of_its_kind()
    ensures value { (rules : Rules) → AreWellFormed rules → (t : Tree) → IsTreeSound rules.classes t → (i : Instance Node) (v : Value Node)
        → IsWellFormed rules t i → HasValue (content t) (equations rules) i v → IsOfItsKind rules (class_at t) i v }
    ensures demanded { (rules : Rules) → AreWellFormed rules → (t : Tree) → IsTreeSound rules.classes t → (i j : Instance Node) (v : Value Node)
        → IsWellFormed rules t i → Leads (content t) (equations rules) i j → HasValue (content t) (equations rules) j v
        → IsOfItsKind rules (class_at t) j v }
{}

/// And each instance that it leads to has an equation: of its node's class or a class above that one, or of a node
/// above its node.
pub fn no_equation_is_missing()
    ensures own { (rules : Rules) → AreWellFormed rules → (t : Tree) → IsTreeSound rules.classes t → (i j : Instance Node)
        → IsWellFormed rules t i → Leads (content t) (equations rules) i j → is_inherited rules j.attribute ≡ false
        → (u : Tree) → tree_at t j.node ≡ Some u → (e : Expr) × (own_equation rules (class_of u) j.attribute ≡ Some e) }
    ensures inherited { (rules : Rules) → AreWellFormed rules → (t : Tree) → IsTreeSound rules.classes t → (i j : Instance Node)
        → IsWellFormed rules t i → Leads (content t) (equations rules) i j → is_inherited rules j.attribute ≡ true
        → (s : Source) × (source_of rules t (attribute_name rules j.attribute) j.node ≡ Some s) }
{}

/// And all that it leads to stands in the list of instances that the tree, the equations and its own arguments make.
pub fn all_instances_are_listed()
    ensures { (rules : Rules) → AreWellFormed rules → (t : Tree) → IsTreeSound rules.classes t → (i j : Instance Node)
        → IsWellFormed rules t i → Leads (content t) (equations rules) i j → Among j (instances rules t i.arguments) }
{}

/// And where numbers stand for the nodes, its evaluation by numbers is typed, and gives a value of its kind.
pub fn evaluations_by_numbers_are_typed()
    ensures { (path : ℕ → Option Node) → IsInjective path → (rules : Rules) → AreWellFormed rules → (t : Tree) → IsTreeSound rules.classes t
        → (numbers : Contents ℕ) → ((l : Location ℕ) → AlikeAt (Names path) numbers (content t) l)
        → (i : Instance ℕ) (j : Instance Node) → InstanceLike (Names path) i j → IsWellFormed rules t j
        → IsTypedRun rules (class_numbered path (class_at t)) (IsGiven rules t j.arguments) numbers
        (IsOfItsKind rules (class_numbered path (class_at t)) i) (evaluation rules nat_eq i) }
{}
