//! Constants that aspects declare, and what a file holds.

ghost use Rattle.std.specs.Prelude.{◌≡◌};

use at_jrag::{Aspect, Word};
use at_text::place::Place;
use at_tree::term::TermCell;

/// What fills a component of a class: `syn nta KIND CLASS.NAME() = new ..;` A NAME `get..` is the accessor of what is behind `get`,
/// and a component `NAME` is meant by any other. A list is declared as `List<KIND> CLASS.get..List()`.
#[derive(Drop)]
pub struct Constant {
    /// The class that has the component.
    pub class: Word,
    /// The component's name, at the place of the declared one.
    pub name: Word,
    /// The class that is declared for the tree, or for the elements of the list.
    pub kind: Word,
    /// The tree, or the list.
    pub cell: TermCell,
    /// Where its `new` stands.
    pub at: Place,
}

/// What a file holds.
pub struct Contents {
    /// The aspects. A constant whose name isn't that of an accessor stands in them as an attribute whose value is that of the accessor of
    /// a component of its name; another one doesn't.
    pub aspects: Vec<Aspect>,
    /// The constants that they declare, in the order of the file.
    pub constants: Vec<Constant>,
}

/// One call, where each exit that lets it go would else have one for each field.
impl Drop for Contents {
    fn drop(self) {
        let Contents {
            aspects: _,
            constants: _,
        } = self;
    }
}

impl Contents {
    /// The aspects alone.
    pub fn into_aspects(self) -> Vec<Aspect>
        ensures { result ≡ self.aspects }
    {
        let Contents {
            aspects,
            constants: _,
        } = self;
        aspects
    }

    /// The aspects, and the constants.
    pub fn into_parts(self) -> (Vec<Aspect>, Vec<Constant>)
        ensures { result ≡ (self.aspects, self.constants) }
    {
        let Contents { aspects, constants } = self;
        (aspects, constants)
    }
}
