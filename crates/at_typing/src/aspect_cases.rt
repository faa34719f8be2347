//! Worked aspects over calc.ast: the fault of each, and its place. Each is the contract of a function that does nothing.

ghost use Rattle.std.specs.Prelude.{◌≡◌, ◌∷◌, [], codes, false, true, None, Some, pos, Err, Ok};
ghost use Rattle.at_model.specs.Bodies.{Call, IntLiteral, Join, Name, Passed, TextLiteral, This, expr, no_exprs};
ghost use Rattle.at_model.specs.Rules.{Int, Truth};
ghost use Rattle.at_model.specs.Samples.{calc, calc_classes};
ghost use Rattle.at_text.specs.declared.fault.Failure.TheVariants.{For};
ghost use Rattle.at_text.specs.declared.place.Place.{Place};
ghost use Rattle.at_kinds.specs.declared.arguments.Arguments.TheVariants.{Computed, Given};
ghost use Rattle.at_kinds.specs.declared.code.RuleCode.TheVariants as code;
ghost use Rattle.at_typing.specs.Building.{first_fault, rules_of, Builds};
ghost use Rattle.at_typing.specs.SampleAspects.{
  calls_nothing,
  compares_texts,
  differs_behind,
  four,
  has_no_equation,
  has_none_above,
  has_one_above,
  has_two_equations,
  is_a_boolean,
  is_an_accessor,
  is_both,
  is_circular,
  is_declared_twice,
  is_of_no_attribute,
  is_of_no_component,
  passes_a_sum,
  passes_an_int,
  takes,
  takes_five,
  takes_numbers,
  takes_texts,
  with_starts,
};
ghost use Rattle.at_typing.specs.SampleCalculator.{calculator};
ghost use Rattle.at_typing.specs.Samples.{column};

/// An attribute with an accessor's name, one that is declared twice, an equation of none, and one that is there twice: each is told at the declaration.
pub fn faults_of_several_declarations()
    ensures accessor { first_fault Given calc_classes is_an_accessor ≡ Some (record { code = code.NameOfAccessor; file = 1; at = column 12 }) }
    ensures twice { first_fault Given calc_classes is_declared_twice ≡ Some (record { code = code.AttributeTwice; file = 1; at = column 37 }) }
    ensures of_none { first_fault Given calc_classes is_of_no_attribute ≡ Some (record { code = code.EquationWithoutAttribute; file = 1; at = column 12 }) }
    ensures equation { first_fault Given calc_classes has_two_equations ≡ Some (record { code = code.EquationTwice; file = 1; at = column 37 }) }
{}

/// A name that isn't there, a parameter and an expression that are of a wrong kind: each is told where it stands.
pub fn faults_of_one_declaration()
    ensures name { first_fault Given calc_classes calls_nothing ≡ Some (record { code = code.UnknownName; file = 1; at = column 34 }) }
    ensures component { first_fault Given calc_classes is_of_no_component ≡ Some (record { code = code.UnknownName; file = 1; at = column 38 }) }
    ensures parameter { first_fault Given calc_classes passes_an_int ≡ Some (record { code = code.Argument; file = 1; at = column 30 }) }
    ensures kind { first_fault Given calc_classes is_a_boolean ≡ Some (record { code = code.Kind; file = 1; at = column 34 }) }
    ensures texts { first_fault Given calc_classes compares_texts ≡ Some (record { code = code.Kind; file = 1; at = column 34 }) }
{}

/// Where what is computed may be an argument, ints and booleans are parameters, and up to four; a fifth one is told at its word. A text
/// that is joined is looked at when it is passed. Where only what was given may, a third parameter and a joined text are told.
pub fn computed_arguments()
    ensures four { first_fault Computed calc_classes (takes four 56) ≡ None }
    ensures five { first_fault Computed calc_classes takes_five ≡ Some (record { code = code.Argument; file = 1; at = column 58 }) }
    ensures three { first_fault Given calc_classes takes_texts ≡ Some (record { code = code.Argument; file = 1; at = column 50 }) }
    ensures numbers { (rules_of Computed calc_classes takes_numbers).attributes
        ≡ record { name = codes "a"; class = 0; parameters = Int ∷ Truth ∷ []; result = Int; is_lazy = false; is_inherited = false; start = None } ∷ [] }
    ensures joined { first_fault Given calc_classes passes_a_sum ≡ Some (record { code = code.Argument; file = 1; at = column 44 }) }
    ensures passed { (rules_of Computed calc_classes passes_a_sum).own
        ≡ record { class = 0; attribute = 0; body = Call This 0 (expr (Passed (Join (Name 0) (TextLiteral (codes "x")))) no_exprs) } ∷ [] }
{}

/// A class without an equation is told at the attribute's declaration: a statement of a synthesized one, an expression of an
/// inherited one; and with an equation of the program for each of its components no expression is without.
pub fn equations_that_classes_lack()
    ensures own { Builds Given calc_classes has_no_equation (Err (For (record { code = code.ClassWithoutEquation; file = 1; at = column 12 }))) }
    ensures above { Builds Given calc_classes has_none_above (Err (For (record { code = code.InheritedWithoutEquation; file = 1; at = column 12 }))) }
    ensures accepted { Builds Given calc_classes has_one_above (Ok (rules_of Given calc_classes has_one_above)) }
{}

/// An equation with `getChild()` is for each component of its class.
pub fn an_equation_for_each_component()
    ensures { (rules_of Given calc_classes has_one_above).inherited ≡ record { class = 0; part = None; name = codes "q"; body = IntLiteral (pos 1) } ∷ [] }
{}

/// A circular attribute has its start and is lazy, though it isn't declared so. Two inherited ones of one name agree in their start, or
/// the second one is told.
pub fn circular_attributes()
    ensures rules { (rules_of Given calc_classes is_circular).attributes
        ≡ record { name = codes "a"; class = 0; parameters = []; result = Truth; is_lazy = true; is_inherited = false; start = Some true } ∷ [] }
    ensures agree { first_fault Given calc_classes (with_starts (Some false)) ≡ None }
    ensures differ { first_fault Given calc_classes (with_starts (Some true)) ≡ Some (record { code = code.AttributeTwice; file = 1; at = column 51 }) }
    ensures one { first_fault Given calc_classes (with_starts None) ≡ Some (record { code = code.AttributeTwice; file = 1; at = column 51 }) }
{}

/// Where what is computed may be an argument, a name is synthesized in one class and inherited in another, but not on one line of
/// classes; and inherited ones are compared with each other, though a synthesized one stands before them. Else the later one is told.
pub fn names_of_both_sorts()
    ensures apart { first_fault Computed calc_classes (is_both (codes "Stmt") 43) ≡ None }
    ensures line { first_fault Computed calc_classes (is_both (codes "Use") 42) ≡ Some (record { code = code.AttributeTwice; file = 1; at = column 30 }) }
    ensures inherited { first_fault Computed calc_classes differs_behind ≡ Some (record { code = code.AttributeTwice; file = 1; at = column 52 }) }
    ensures given { first_fault Given calc_classes (is_both (codes "Stmt") 43) ≡ Some (record { code = code.AttributeTwice; file = 1; at = column 30 }) }
{}

/// The declarations of calc.jrag and probe.jrag make just the rules that stand as `calc`: each attribute with its kinds and whether
/// it is lazy, each equation with its body. And they are accepted.
pub fn rules_of_the_calculator()
    ensures rules { (at : Place) → rules_of Given calc_classes (calculator at) ≡ calc }
    ensures accepted { (at : Place) → Builds Given calc_classes (calculator at) (Ok calc) }
{}
