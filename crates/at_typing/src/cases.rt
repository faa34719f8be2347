//! Worked cases: a class that isn't there is one of its own. Each is the contract of a function that does nothing.

ghost use Rattle.std.specs.Prelude.{◌≡◌, Some};
ghost use Rattle.at_model.specs.Samples.{calc_classes};
ghost use Rattle.at_kinds.specs.declared.arguments.Arguments.TheVariants.{Given};
ghost use Rattle.at_kinds.specs.declared.code.RuleCode.TheVariants as code;
ghost use Rattle.at_typing.specs.Building.{first_fault};
ghost use Rattle.at_typing.specs.Samples.{as_argument, column, of_another, of_itself};

/// A call has the kind of its word, so that what is told is that its class isn't there; of another word it is a wrong kind.
pub fn a_class_that_is_not_there_is_one_of_its_own()
    ensures itself { first_fault Given calc_classes of_itself ≡ Some (record { code = code.UnknownName; file = 1; at = column 38 }) }
    ensures another { first_fault Given calc_classes of_another ≡ Some (record { code = code.Kind; file = 1; at = column 29 }) }
    ensures argument { first_fault Given calc_classes as_argument ≡ Some (record { code = code.UnknownName; file = 1; at = column 60 }) }
{}
