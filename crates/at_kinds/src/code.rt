//! The codes by which aspects are refused.

/// The rules of aspects that a refusal may name, in the order in which they are looked at. `UnknownName`,
/// `Argument` and `Kind` are looked at together, declaration by declaration.
#[derive(Clone, Copy, Debug, PartialEq, Eq)]
pub enum RuleCode {
    /// J11: over 2,000 attributes, or a text of over 4,096 bytes.
    Limit,
    /// J12: an attribute with the name of an accessor.
    NameOfAccessor,
    /// J2: an attribute that is declared twice on one line of ancestors, or otherwise elsewhere; a name that
    /// is bound where it is bound already.
    AttributeTwice,
    /// J9: an equation of an attribute that isn't declared.
    EquationWithoutAttribute,
    /// J6: an equation that its class has already.
    EquationTwice,
    /// J3: a class, a component, a name, an accessor or an attribute that isn't there.
    UnknownName,
    /// J5: a parameter or an argument that is wrong, missing or one too many.
    Argument,
    /// J4: an expression that isn't of the kind that is wanted.
    Kind,
    /// J7: a class without an equation for a synthesized attribute.
    ClassWithoutEquation,
    /// J8: a class that may stand where no class above has an equation for an inherited attribute.
    InheritedWithoutEquation,
}
