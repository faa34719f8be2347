//! Laws of aspects and of the rules that they make: each is the contract of a function that does nothing.

ghost use Rattle.std.specs.Prelude.{◌≡◌, ◌<◌, ◌↔◌, List, Err, None, Ok};
ghost use Rattle.std.specs.List.{AllByRecursion};
ghost use Rattle.at_model.specs.Classes.{Classes};
ghost use Rattle.at_model.specs.Rules.{Rules};
ghost use Rattle.at_model.specs.WellFormed.{AreWellFormed, IsHierarchy};
ghost use Rattle.at_jrag.specs.Syntax.{Aspect};
ghost use Rattle.at_text.specs.declared.fault.Failure.TheVariants.{For};
ghost use Rattle.at_kinds.specs.declared.arguments.Arguments.{Arguments};
ghost use Rattle.at_kinds.specs.declared.code.RuleCode.{RuleCode};
ghost use Rattle.at_typing.specs.AspectRules.{AreDeclaredOnce, AreEquationsOnce, AreFew, AreNoAccessors, AreOfAttributes, HaveMeanings, Keeps, order};
ghost use Rattle.at_typing.specs.Building.{refused, Builds};
ghost use Rattle.at_typing.specs.Declaring.{accessor_named, declared_twice, equation_twice, over_limit, without_attribute};
ghost use Rattle.at_typing.specs.Located.{IsSpelled, Located, located};
ghost use Rattle.at_typing.specs.declared.fault.Breach.{Breach};

/// The rules that the declarations of aspects make are well formed, where the aspects are such as can be written
/// and the classes are a hierarchy.
pub fn what_is_built_is_well_formed()
    ensures { (allowed : Arguments) (classes : Classes) (files : List (List Aspect)) (rules : Rules) → IsHierarchy classes
        → AllByRecursion IsSpelled files → Builds allowed classes (located 1 files) (Ok rules) → AreWellFormed rules }
{}

/// The test of each code finds nothing exactly where the declarations keep its rule: there are at most 2,000 attributes,
/// and no text has over 4,096 bytes; no attribute has the name of an accessor; each attribute is declared once; each
/// equation is of an attribute, and there once; and each declaration means something.
pub fn each_test_says_its_rule()
    ensures limit { (ds : List Located) → (over_limit ds ≡ None) ↔ AreFew ds }
    ensures name_of_accessor { (classes : Classes) (ds : List Located) → (accessor_named classes ds ≡ None) ↔ AreNoAccessors classes ds }
    ensures attribute_twice { (allowed : Arguments) (classes : Classes) (ds : List Located)
        → (declared_twice allowed classes ds ≡ None) ↔ AreDeclaredOnce allowed classes ds }
    ensures without_attribute { (classes : Classes) (ds : List Located) → (without_attribute classes ds ≡ None) ↔ AreOfAttributes classes ds }
    ensures equation_twice { (ds : List Located) → (equation_twice ds ≡ None) ↔ AreEquationsOnce ds }
    ensures by_itself { (allowed : Arguments) (classes : Classes) (ds : List Located)
        → (refused allowed classes ds ≡ None) ↔ HaveMeanings allowed classes ds }
{}

/// Declarations make rules exactly where they keep the rule of every code.
pub fn accepted_aspects_keep_each_rule()
    ensures { (allowed : Arguments) (classes : Classes) (ds : List Located)
        → ((rules : Rules) × Builds allowed classes ds (Ok rules)) ↔ ((c : RuleCode) → Keeps allowed classes ds c) }
{}

/// The code that declarations are refused for is that of a rule which they break, and they keep each rule that is looked at before.
pub fn the_first_rule_that_is_broken_is_told()
    ensures { (allowed : Arguments) (classes : Classes) (ds : List Located) (f : Breach) → Builds allowed classes ds (Err (For f))
        → (Keeps allowed classes ds f.code → ⊥) × ((c : RuleCode) → order c < order f.code → Keeps allowed classes ds c) }
{}
