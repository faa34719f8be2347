//! Laws of outcomes where attributes are circular: each is the contract of a function that does nothing.

ghost use Rattle.std.specs.Prelude.{Bool, List, None, Ok, Option, Some, false, nat_eq, true, ◌+◌, ◌≡◌, ◌↔◌, ℕ};
ghost use Rattle.at_model.specs.Trees.{Tree, class_of, conforms};
ghost use Rattle.at_model.specs.Paths.{Node, tree_at};
ghost use Rattle.at_model.specs.Run.{Contents, FaultKind, Instance, Location, Truth, Value};
ghost use Rattle.at_model.specs.Bodies.{Expr};
ghost use Rattle.at_model.specs.Rules.{
  Rules,
  Source,
  attribute_name,
  evaluation as evaluation_of,
  is_inherited,
  own_equation,
  source_of,
  start_of,
};
ghost use Rattle.at_model.specs.Meaning.{Among, Answer, Equations, Faults, Outcome, content, equations};
ghost use Rattle.at_model.specs.Meaning as meaning;
ghost use Rattle.at_model.specs.Support as support;
ghost use Rattle.at_model.specs.Alike.{AlikeAt, AnswerLike, InstanceLike, IsInjective, LocationLike, Names, OutcomeLike};
ghost use Rattle.at_model.specs.Edits.{Edit, carried, edited};
ghost use Rattle.at_model.specs.Asking.{IsWellFormed};
ghost use Rattle.at_model.specs.TypedRuns.{IsOfItsKind, class_at};
ghost use Rattle.at_model.specs.Instances.{instances};
ghost use Rattle.at_model.specs.WellFormed.{AreWellFormed, IsTreeSound};
ghost use Rattle.at_model.specs.of_fixpoints.Circles.{Answers, Circular};
ghost use Rattle.at_model.specs.of_fixpoints.Evaluations.{evaluation, forms};
ghost use Rattle.at_model.specs.of_fixpoints.Failing.{FailsItself};
ghost use Rattle.at_model.specs.of_fixpoints.Fixpoints.{HasForm, HasValue, Holds, HoldsAt};
ghost use Rattle.at_model.specs.of_fixpoints.Formulas.{Formula, Forms};
ghost use Rattle.at_model.specs.of_fixpoints.Likeness.{AlikeBelow, FormsLike};
ghost use Rattle.at_model.specs.of_fixpoints.Resting.{IsUntouched, Leads, Supports};
ghost use Rattle.at_model.specs.of_fixpoints.Sets.{AreOfOneStart, IsComponent, IsFalseWhere, IsTrueWhere, IsWhere, plain_forms};

/// An instance has at most one outcome, also where attributes are circular.
pub fn one_outcome_by_formulas()
    ensures { (look : Contents Node) (forms : Forms Node) (i : Instance Node) (o p : Outcome Node)
        → Holds look forms i o → Holds look forms i p → o ≡ p }
{}

/// No instance has both an outcome and a circle.
pub fn outcome_or_circle_by_formulas()
    ensures { (look : Contents Node) (forms : Forms Node) (q j : Instance Node) (o : Outcome Node)
        → Holds look forms q o → Circular look forms q j → ⊥ }
{}

/// A circle closes at one instance.
pub fn one_circle_by_formulas()
    ensures { (look : Contents Node) (forms : Forms Node) (q j k : Instance Node)
        → Circular look forms q j → Circular look forms q k → j ≡ k }
{}

/// Where no attribute is circular, all is as it is by equations alone: outcomes and answers, what an instance leads to, and
/// what it rests on.
pub fn none_circular_none_changed()
    ensures outcomes { (look : Contents Node) (equation : Equations Node) (i : Instance Node) (o : Outcome Node)
        → (meaning.Holds look equation i o ↔ Holds look (plain_forms equation) i o) }
    ensures answers { (look : Contents Node) (equation : Equations Node) (q : Instance Node) (a : Answer Node)
        → (meaning.Answers look equation q a ↔ Answers look (plain_forms equation) q a) }
    ensures demands { (look : Contents Node) (equation : Equations Node) (i j : Instance Node)
        → (meaning.Leads look equation i j ↔ Leads look (plain_forms equation) i j) }
    ensures support { (look : Contents Node) (equation : Equations Node) (l : Location Node) (i : Instance Node)
        → (support.Supports look equation l i ↔ Supports look (plain_forms equation) l i) }
{}

/// Values are a fixpoint. An instance that starts from false and has a value is true exactly where its formula is true of
/// the values; one that starts from true is false exactly where its formula is false of them. What a formula has of
/// the values is the value.
pub fn a_fixpoint()
    ensures from_false { (look : Contents Node) (forms : Forms Node) → AreOfOneStart look forms
        → (i : Instance Node) (f : Formula Node) (v : Value Node) → forms.starts i.attribute ≡ Some false
        → HasForm look forms i f → HasValue look forms i v
        → (HasValue look forms i (Truth true) ↔ IsTrueWhere (λ k. HasValue look forms k (Truth true)) f) }
    ensures from_true { (look : Contents Node) (forms : Forms Node) → AreOfOneStart look forms
        → (i : Instance Node) (f : Formula Node) (v : Value Node) → forms.starts i.attribute ≡ Some true
        → HasForm look forms i f → HasValue look forms i v
        → (HasValue look forms i (Truth false) ↔ IsFalseWhere (λ k. HasValue look forms k (Truth false)) f) }
    ensures values { (look : Contents Node) (forms : Forms Node) → AreOfOneStart look forms
        → (i : Instance Node) (f : Formula Node) (v : Value Node) (start b : Bool) → forms.starts i.attribute ≡ Some start
        → HasForm look forms i f → HasValue look forms i v → IsWhere (λ k. HasValue look forms k (Truth b)) b f → v ≡ Truth b }
{}

/// The least one of those that start from false: each that is true is so in every set that is closed under the formulas.
pub fn the_least_fixpoint()
    ensures { (look : Contents Node) (forms : Forms Node) (set : Instance Node → Bool)
        → ((i : Instance Node) (f : Formula Node) → HasForm look forms i f → IsTrueWhere (λ k. set k ≡ true) f → set i ≡ true)
        → (i : Instance Node) → forms.starts i.attribute ≡ Some false → HasValue look forms i (Truth true) → set i ≡ true }
{}

/// The greatest one of those that start from true: each that has a value is true if it is in a set of which each has a formula
/// that is true by the set.
pub fn the_greatest_fixpoint()
    ensures { (look : Contents Node) (forms : Forms Node) (set : Instance Node → Bool)
        → ((i : Instance Node) (f : Formula Node) → HasForm look forms i f → set i ≡ true → IsTrueWhere (λ k. set k ≡ true) f)
        → (i : Instance Node) (v : Value Node) → forms.starts i.attribute ≡ Some true → HasValue look forms i v
        → set i ≡ true → v ≡ Truth true }
{}

/// Each circular instance of a component has a value: where each instance of a list has a formula, of instances of the list.
pub fn a_component_has_values()
    ensures { (look : Contents Node) (forms : Forms Node) (all : List (Instance Node)) → IsComponent look forms all
        → (j : Instance Node) (start : Bool) → Among j all → forms.starts j.attribute ≡ Some start
        → (v : Value Node) × HasValue look forms j v }
{}

/// What holds by demands that are nested less than so deep holds by demands that may be nested deeper.
pub fn more_depth()
    ensures { (look : Contents Node) (forms : Forms Node) (n more : ℕ) (i : Instance Node) (o : Outcome Node)
        → HoldsAt look forms n i o → HoldsAt look forms (n + more) i o }
{}

/// The place of a fault is an instance that the question leads to, and whose own equation has the fault, each demand before that
/// having a value.
pub fn a_fault_is_where_its_equation_fails_by_formulas()
    ensures { (look : Contents Node) (forms : Forms Node) (q i : Instance Node) (f : FaultKind) → Holds look forms q (Faults f i)
        → Leads look forms q i × FailsItself look (HasValue look forms) (forms.formula i) f }
{}

/// Formulas that rules give are of instances with the start of their own.
pub fn formulas_are_of_one_start()
    ensures { (look : Contents Node) (rules : Rules) → AreOfOneStart look (forms rules) }
{}

/// Where no attribute of the rules is circular, their formulas are their equations; so is that of each instance which isn't circular.
pub fn rules_without_circular_attributes()
    ensures all { (rules : Rules) → ((attribute : ℕ) → start_of rules attribute ≡ None) → forms rules ≡ plain_forms (equations rules) }
    ensures each { (rules : Rules) (i : Instance ℕ) → start_of rules i.attribute ≡ None
        → (evaluation rules nat_eq).formula i ≡ (plain_forms (λ j. evaluation_of rules nat_eq j)).formula i }
{}

/// Where two trees are alike at all that supports an instance, the instance that it is carried to has the outcome that its
/// outcome is carried to, and no other, also where attributes are circular.
pub fn carried_outcome_by_formulas()
    ensures kept { (carry : Node → Option Node) → IsInjective carry → (before after : Contents Node) (here there : Forms Node)
        → FormsLike (Names carry) here there → (i j : Instance Node) (o : Outcome Node) → InstanceLike (Names carry) i j
        → AlikeBelow (Names carry) before after here i → Holds before here i o
        → (p : Outcome Node) × Holds after there j p × OutcomeLike (Names carry) o p }
    ensures no_others { (carry : Node → Option Node) → IsInjective carry → (before after : Contents Node) (here there : Forms Node)
        → FormsLike (Names carry) here there → (i j : Instance Node) (p : Outcome Node) → InstanceLike (Names carry) i j
        → AlikeBelow (Names carry) before after here i → Holds after there j p
        → (o : Outcome Node) × Holds before here i o × OutcomeLike (Names carry) o p }
{}

/// So it is of the instances of a tree before and after an edit, by whatever rules: what isn't touched stays.
pub fn carried_outcome_by_rules()
    ensures kept { (carry : Node → Option Node) → IsInjective carry → (rules : Rules) (before after : Tree) (i j : Instance Node)
        → InstanceLike (Names carry) i j → AlikeBelow (Names carry) (content before) (content after) (forms rules) i
        → (o : Outcome Node) → Holds (content before) (forms rules) i o
        → (p : Outcome Node) × Holds (content after) (forms rules) j p × OutcomeLike (Names carry) o p }
    ensures no_others { (carry : Node → Option Node) → IsInjective carry → (rules : Rules) (before after : Tree) (i j : Instance Node)
        → InstanceLike (Names carry) i j → AlikeBelow (Names carry) (content before) (content after) (forms rules) i
        → (p : Outcome Node) → Holds (content after) (forms rules) j p
        → (o : Outcome Node) × Holds (content before) (forms rules) i o × OutcomeLike (Names carry) o p }
{}

/// And a circle, too: each answer to the one is carried to an answer to the other.
pub fn carried_answer_by_rules()
    ensures { (carry : Node → Option Node) → IsInjective carry → (rules : Rules) (before after : Tree) (q k : Instance Node) (a : Answer Node)
        → InstanceLike (Names carry) q k → AlikeBelow (Names carry) (content before) (content after) (forms rules) q
        → Answers (content before) (forms rules) q a
        → (b : Answer Node) × AnswerLike (Names carry) a b × Answers (content after) (forms rules) k b }
{}

/// And it leads to the instances that what it led to is carried to, and to no others.
pub fn carried_demands_by_rules()
    ensures kept { (carry : Node → Option Node) → IsInjective carry → (rules : Rules) (before after : Tree) (i j k : Instance Node)
        → InstanceLike (Names carry) i j → AlikeBelow (Names carry) (content before) (content after) (forms rules) i
        → Leads (content before) (forms rules) i k
        → (m : Instance Node) × InstanceLike (Names carry) k m × Leads (content after) (forms rules) j m }
    ensures no_others { (carry : Node → Option Node) → IsInjective carry → (rules : Rules) (before after : Tree) (i j m : Instance Node)
        → InstanceLike (Names carry) i j → AlikeBelow (Names carry) (content before) (content after) (forms rules) i
        → Leads (content after) (forms rules) j m
        → (k : Instance Node) × InstanceLike (Names carry) k m × Leads (content before) (forms rules) i k }
{}

/// And it rests on the locations that those are carried to on which the instance rested, and on no others.
pub fn carried_support_by_rules()
    ensures kept { (carry : Node → Option Node) → IsInjective carry → (rules : Rules) (before after : Tree) (i j : Instance Node)
        → InstanceLike (Names carry) i j → AlikeBelow (Names carry) (content before) (content after) (forms rules) i
        → (l : Location Node) → Supports (content before) (forms rules) l i
        → (m : Location Node) × LocationLike (Names carry) l m × Supports (content after) (forms rules) m j }
    ensures no_others { (carry : Node → Option Node) → IsInjective carry → (rules : Rules) (before after : Tree) (i j : Instance Node)
        → InstanceLike (Names carry) i j → AlikeBelow (Names carry) (content before) (content after) (forms rules) i
        → (m : Location Node) → Supports (content after) (forms rules) m j
        → (l : Location Node) × LocationLike (Names carry) l m × Supports (content before) (forms rules) l i }
{}

/// An instance that rests on nothing that the edit touches has, under the paths to which its nodes are carried, the answer that
/// its answer is carried to; it leads to the instances, and rests on the locations, that those are carried to that it led to and
/// rested on, and to no others.
pub fn what_is_not_touched_stays_by_formulas()
    ensures answer { (rules : Rules) (t u : Tree) (e : Edit) (i j : Instance Node) (a : Answer Node) → conforms rules.classes t 0 ≡ true
        → edited rules.classes t e ≡ Ok u → IsUntouched rules t e i → InstanceLike (Names (carried e)) i j
        → Answers (content t) (forms rules) i a
        → (b : Answer Node) × AnswerLike (Names (carried e)) a b × Answers (content u) (forms rules) j b }
    ensures demands { (rules : Rules) (t u : Tree) (e : Edit) (i j k : Instance Node) → conforms rules.classes t 0 ≡ true
        → edited rules.classes t e ≡ Ok u → IsUntouched rules t e i → InstanceLike (Names (carried e)) i j
        → Leads (content t) (forms rules) i k
        → (m : Instance Node) × InstanceLike (Names (carried e)) k m × Leads (content u) (forms rules) j m }
    ensures no_other_demands { (rules : Rules) (t u : Tree) (e : Edit) (i j m : Instance Node) → conforms rules.classes t 0 ≡ true
        → edited rules.classes t e ≡ Ok u → IsUntouched rules t e i → InstanceLike (Names (carried e)) i j
        → Leads (content u) (forms rules) j m
        → (k : Instance Node) × InstanceLike (Names (carried e)) k m × Leads (content t) (forms rules) i k }
    ensures support { (rules : Rules) (t u : Tree) (e : Edit) (i j : Instance Node) (l : Location Node) → conforms rules.classes t 0 ≡ true
        → edited rules.classes t e ≡ Ok u → IsUntouched rules t e i → InstanceLike (Names (carried e)) i j
        → Supports (content t) (forms rules) l i
        → (m : Location Node) × LocationLike (Names (carried e)) l m × Supports (content u) (forms rules) m j }
    ensures no_other_support { (rules : Rules) (t u : Tree) (e : Edit) (i j : Instance Node) (m : Location Node) → conforms rules.classes t 0 ≡ true
        → edited rules.classes t e ≡ Ok u → IsUntouched rules t e i → InstanceLike (Names (carried e)) i j
        → Supports (content u) (forms rules) m j
        → (l : Location Node) × LocationLike (Names (carried e)) l m × Supports (content t) (forms rules) l i }
{}

/// Over numbered nodes that stand for those of a tree, an instance has the answer that the instance for which it stands has over
/// the paths; and its outcome, what it leads to, and what it rests on are so in both directions.
pub fn numbers_and_paths_by_formulas()
    ensures answer { (path : ℕ → Option Node) → IsInjective path → (rules : Rules) (t : Tree) (numbers : Contents ℕ)
        → ((l : Location ℕ) → AlikeAt (Names path) numbers (content t) l) → (i : Instance ℕ) (j : Instance Node) (a : Answer ℕ)
        → InstanceLike (Names path) i j → Answers numbers (evaluation rules nat_eq) i a
        → (b : Answer Node) × AnswerLike (Names path) a b × Answers (content t) (forms rules) j b }
    ensures outcome { (path : ℕ → Option Node) → IsInjective path → (rules : Rules) (t : Tree) (numbers : Contents ℕ)
        → ((l : Location ℕ) → AlikeAt (Names path) numbers (content t) l) → (i : Instance ℕ) (j : Instance Node) (o : Outcome ℕ)
        → InstanceLike (Names path) i j → Holds numbers (evaluation rules nat_eq) i o
        → (p : Outcome Node) × Holds (content t) (forms rules) j p × OutcomeLike (Names path) o p }
    ensures outcome_back { (path : ℕ → Option Node) → IsInjective path → (rules : Rules) (t : Tree) (numbers : Contents ℕ)
        → ((l : Location ℕ) → AlikeAt (Names path) numbers (content t) l) → (i : Instance ℕ) (j : Instance Node) (p : Outcome Node)
        → InstanceLike (Names path) i j → Holds (content t) (forms rules) j p
        → (o : Outcome ℕ) × Holds numbers (evaluation rules nat_eq) i o × OutcomeLike (Names path) o p }
    ensures leads { (path : ℕ → Option Node) → IsInjective path → (rules : Rules) (t : Tree) (numbers : Contents ℕ)
        → ((l : Location ℕ) → AlikeAt (Names path) numbers (content t) l) → (i k : Instance ℕ) (j : Instance Node)
        → InstanceLike (Names path) i j → Leads numbers (evaluation rules nat_eq) i k
        → (m : Instance Node) × InstanceLike (Names path) k m × Leads (content t) (forms rules) j m }
    ensures leads_back { (path : ℕ → Option Node) → IsInjective path → (rules : Rules) (t : Tree) (numbers : Contents ℕ)
        → ((l : Location ℕ) → AlikeAt (Names path) numbers (content t) l) → (i : Instance ℕ) (j m : Instance Node)
        → InstanceLike (Names path) i j → Leads (content t) (forms rules) j m
        → (k : Instance ℕ) × InstanceLike (Names path) k m × Leads numbers (evaluation rules nat_eq) i k }
    ensures support { (path : ℕ → Option Node) → IsInjective path → (rules : Rules) (t : Tree) (numbers : Contents ℕ)
        → ((l : Location ℕ) → AlikeAt (Names path) numbers (content t) l) → (i : Instance ℕ) (j : Instance Node) (l : Location ℕ)
        → InstanceLike (Names path) i j → Supports numbers (evaluation rules nat_eq) l i
        → (m : Location Node) × LocationLike (Names path) l m × Supports (content t) (forms rules) m j }
    ensures support_back { (path : ℕ → Option Node) → IsInjective path → (rules : Rules) (t : Tree) (numbers : Contents ℕ)
        → ((l : Location ℕ) → AlikeAt (Names path) numbers (content t) l) → (i : Instance ℕ) (j : Instance Node) (m : Location Node)
        → InstanceLike (Names path) i j → Supports (content t) (forms rules) m j
        → (l : Location ℕ) × LocationLike (Names path) l m × Supports numbers (evaluation rules nat_eq) l i }
{}

/// With well-formed rules, over a sound tree: an instance that has a value leads to instances that have values alone.
pub fn values_spread_along_formulas()
    ensures { (rules : Rules) → AreWellFormed rules → (t : Tree) → IsTreeSound rules.classes t
        → (i j : Instance Node) (v : Value Node) → IsWellFormed rules t i → HasValue (content t) (forms rules) i v
        → Leads (content t) (forms rules) i j → (w : Value Node) × HasValue (content t) (forms rules) j w }
{}

/// With well-formed rules, over a sound tree: all that an instance leads to is well formed, and stands in the list of instances;
/// and the value of an instance is of the kind of its attribute.
pub fn formulas_keep_to_the_kinds()
    ensures demanded { (rules : Rules) → AreWellFormed rules → (t : Tree) → IsTreeSound rules.classes t
        → (i j : Instance Node) → IsWellFormed rules t i → Leads (content t) (forms rules) i j → IsWellFormed rules t j }
    ensures listed { (rules : Rules) → AreWellFormed rules → (t : Tree) → IsTreeSound rules.classes t
        → (i j : Instance Node) → IsWellFormed rules t i → Leads (content t) (forms rules) i j → Among j (instances rules t i.arguments) }
    ensures value { (rules : Rules) → AreWellFormed rules → (t : Tree) → IsTreeSound rules.classes t
        → (i : Instance Node) (v : Value Node) → IsWellFormed rules t i → HasValue (content t) (forms rules) i v
        → IsOfItsKind rules (class_at t) i v }
{}

/// And each instance that it leads to has an equation: of its node's class or a class above that one, or of a node above its node.
pub fn no_equation_is_missing_by_formulas()
    ensures own { (rules : Rules) → AreWellFormed rules → (t : Tree) → IsTreeSound rules.classes t → (i j : Instance Node)
        → IsWellFormed rules t i → Leads (content t) (forms rules) i j → is_inherited rules j.attribute ≡ false
        → (u : Tree) → tree_at t j.node ≡ Some u → (e : Expr) × (own_equation rules (class_of u) j.attribute ≡ Some e) }
    ensures inherited { (rules : Rules) → AreWellFormed rules → (t : Tree) → IsTreeSound rules.classes t → (i j : Instance Node)
        → IsWellFormed rules t i → Leads (content t) (forms rules) i j → is_inherited rules j.attribute ≡ true
        → (s : Source) × (source_of rules t (attribute_name rules j.attribute) j.node ≡ Some s) }
{}
