//! The values that are known.

use at_body::{Inst, Known, Value};
use indexmap::IndexMap;
use std::alloc::{AllocError, Global};

/// The values that are known.
#[derive(Drop)]
pub struct Values {
    values: IndexMap<Inst, Value>,
}

impl Values {
    ghost use Rattle.std.specs.Prelude.{ℕ};
    ghost use Rattle.at_model.specs.Rules.{Rules};
    ghost use Rattle.at_model.specs.TypedRuns.{ClassAt, IsOfItsKind};
    ghost use Rattle.at_body.specs.Typed.{AreOfTheirKinds};
    ghost use Rattle.at_body.specs.Values.{value_view};
    ghost use Rattle.tries.specs.Worlds.{known_in};

    /// None.
    pub fn new(alloc: Global) -> Values
        ensures { (rules : Rules) (at : ClassAt ℕ) → AreOfTheirKinds rules at (known_in result) }
    {
        Values {
            values: IndexMap::new(alloc),
        }
    }

    /// Notes the value of an instance, in place of the one that it had. An error where memory is wanting; then it isn't noted.
    pub fn learn(&mut self, inst: Inst, value: Value) -> Result<(), AllocError>
        ensures { (rules : Rules) (at : ClassAt ℕ) → AreOfTheirKinds rules at (known_in self.old) → IsOfItsKind rules at inst (value_view value)
            → AreOfTheirKinds rules at (known_in self.new) }
    {
        self.values.insert(inst, value)?;
        Ok(())
    }
}

impl Known for Values {
    ghost use Rattle.tries.specs.Worlds.{known_in};

    ghost value_of = { known_in };

    fn known(&self, inst: &Inst) -> Option<&Value> {
        self.values.get(inst)
    }
}
