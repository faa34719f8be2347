//! Worked cases of circular attributes: each function's contract has a few.

ghost use Rattle.std.specs.Prelude.{false, true};
ghost use Rattle.at_model.specs.Run.{Absent, Zero};
ghost use Rattle.at_model.specs.Meaning.{Circle, Faults, Outcomes};
ghost use Rattle.at_model.specs.Samples.{of_node, root};
ghost use Rattle.at_model.specs.of_fixpoints.FixpointSamples.{IsValue, Tells, inner_ring};

/// Two attributes that only ask each other are what they start from: `j() = b() || c()` with `b() = j()` is true where `c` is,
/// and false where it isn't; `self() = self()` is false, and `top() = top()`, which starts from true, is true.
pub fn values_of_rings()
    ensures with_c { IsValue true 0 true }
    ensures without_c { IsValue false 0 false }
    ensures from_false { IsValue true 5 false }
    ensures from_true { IsValue true 6 true }
{}

/// Under two negations is a positive place, and what stands in front of `&&` guards what stands behind it.
pub fn places_of_demands()
    ensures twice { IsValue true 8 true }
    ensures guard { IsValue true 14 true }
{}

/// A value that is wanted before there can be one: under one negation, in an attribute that isn't circular, with the other start.
pub fn circles_that_no_fixpoint_answers()
    ensures not { Tells true (of_node root 7) (Circle (of_node root 7)) }
    ensures x { Tells true (of_node root 9) (Circle (of_node root 9)) }
    ensures y { Tells true (of_node root 10) (Circle (of_node root 10)) }
    ensures u { Tells true (of_node root 11) (Circle (of_node root 11)) }
{}

/// A fault to which formulas lead is told, also where what stands beside it is true.
pub fn faults_in_rings()
    ensures deep { Tells true (of_node root 13) (Outcomes (Faults Absent (of_node inner_ring 13))) }
    ensures m { Tells true (of_node root 3) (Outcomes (Faults Zero (of_node root 3))) }
    ensures n { Tells true (of_node root 4) (Outcomes (Faults Zero (of_node root 3))) }
    ensures ga { Tells true (of_node root 20) (Outcomes (Faults Zero (of_node root 19))) }
    ensures gx { Tells true (of_node root 21) (Outcomes (Faults Zero (of_node root 19))) }
{}

/// Where a circle and a fault stand in one ring, it is the circle, at the instance to which the search from the question comes
/// back.
pub fn circles_before_faults()
    ensures fa { Tells true (of_node root 15) (Circle (of_node root 17)) }
    ensures fk { Tells true (of_node root 17) (Circle (of_node root 17)) }
    ensures fc { Tells true (of_node root 18) (Circle (of_node root 18)) }
{}
