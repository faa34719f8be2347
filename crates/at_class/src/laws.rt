//! Laws of the classes that are declared: each is the contract of a function that does nothing.
ghost use Rattle.std.specs.Prelude.{◌≡◌, None};
ghost use Rattle.at_model.specs.Classes.{AreSound};
ghost use Rattle.at_model.specs.Declarations.{Declarations, classes_of, first_fault};
ghost use Rattle.at_model.specs.Paths.{ArePartsApart};
ghost use Rattle.at_model.specs.Samples.{calc_classes};

/// Where sound classes are declared without a fault, each component is the first one of its name in its class.
pub fn classes_without_a_fault_have_parts_apart()
    ensures { (ds : Declarations) → AreSound (classes_of ds) → first_fault ds ≡ None → ArePartsApart (classes_of ds) }
{}

/// The classes of calc.ast are such classes: the path of each node of its trees leads back to it.
pub fn the_calculator_has_parts_apart()
    ensures { ArePartsApart calc_classes }
{}
