//! Laws of grammars that are refused, and of those that aren't: each is the contract of a function that does nothing.

ghost use Rattle.std.specs.Prelude.{◌≡◌, ◌<◌, ◌↔◌, None, Some};
ghost use Rattle.at_model.specs.Declarations.{
  ClassTwice,
  Code,
  ComponentTwice,
  Declarations,
  Fault,
  Limit,
  NoClass,
  SuperclassCircle,
  TokenKindCode,
  UnknownClass,
  class_twice,
  component_twice,
  first_fault,
  no_class,
  over_limit,
  superclass_circle,
  token_kind,
  unknown_class,
};
ghost use Rattle.at_model.specs.GrammarRules.{Keeps, order};

/// The test of each code finds nothing exactly where the grammar keeps its rule: there is a class; each has a name of
/// its own; each that is named is declared; none is above itself; each token is of one of three kinds; no component has
/// a name that another one of its class takes; and there are at most 1,000 classes of at most 32 components.
pub fn each_test_says_its_rule()
    ensures no_class { (ds : Declarations) → (no_class ds ≡ None) ↔ Keeps ds NoClass }
    ensures class_twice { (ds : Declarations) → (class_twice ds ≡ None) ↔ Keeps ds ClassTwice }
    ensures unknown_class { (ds : Declarations) → (unknown_class ds ≡ None) ↔ Keeps ds UnknownClass }
    ensures superclass_circle { (ds : Declarations) → (superclass_circle ds ≡ None) ↔ Keeps ds SuperclassCircle }
    ensures token_kind { (ds : Declarations) → (token_kind ds ≡ None) ↔ Keeps ds TokenKindCode }
    ensures component_twice { (ds : Declarations) → superclass_circle ds ≡ None → (component_twice ds ≡ None) ↔ Keeps ds ComponentTwice }
    ensures over_limit { (ds : Declarations) → (over_limit ds ≡ None) ↔ Keeps ds Limit }
{}

/// A grammar has no fault exactly where it keeps every rule.
pub fn an_accepted_grammar_keeps_each_rule()
    ensures { (ds : Declarations) → (first_fault ds ≡ None) ↔ ((c : Code) → Keeps ds c) }
{}

/// The code that a grammar is refused for is that of a rule which it breaks, and it keeps each rule that comes before.
pub fn the_first_rule_that_is_broken_is_told()
    ensures { (ds : Declarations) (f : Fault) → first_fault ds ≡ Some f
        → (Keeps ds f.code → ⊥) × ((c : Code) → order c < order f.code → Keeps ds c) }
{}
