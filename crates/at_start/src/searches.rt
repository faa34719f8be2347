//! The rules by which questions are answered.

ghost use Rattle.std.specs.Prelude.{◌≡◌};
ghost use Rattle.at_model.specs.WellFormed.{AreWellFormed};
ghost use Rattle.at_evaluate.specs.Meant.{AreCircularWell};
ghost use Rattle.at_start.specs.Starts.{AreServed};

use at_rules::Rules;
use at_seek::sought;
use std::alloc::Global;

/// The rules by which questions are answered: these, or where names are looked up by key with searches in the place of folds.
pub fn served(alloc: Global, rules: Rules, index: bool) -> Rules
    requires well_formed { AreWellFormed rules }
    requires circular { AreCircularWell rules }
    ensures served { AreServed index rules result }
    ensures classes { result.classes ≡ rules.classes }
    ensures well_formed { AreWellFormed result }
    ensures circular { AreCircularWell result }
{
    if index { sought(alloc, rules) } else { rules }
}
