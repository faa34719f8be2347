//! The codes of refused files.
ghost use Rattle.std.specs.Prelude.{◌≡◌};

/// Why a file is refused: what is wrong with a grammar (G), with an aspect (J) or with a tree file (F).
#[derive(Clone, Copy, Debug, PartialEq, Eq)]
pub enum Code {
    GrammarSyntax,
    ClassTwice,
    UnknownClass,
    SuperclassCircle,
    ComponentTwice,
    TokenKind,
    GrammarFormLeftOut,
    GrammarLimit,
    NoClass,
    AspectSyntax,
    AttributeTwice,
    UnknownName,
    Kind,
    Argument,
    EquationTwice,
    ClassWithoutEquation,
    InheritedWithoutEquation,
    EquationWithoutAttribute,
    AspectFormLeftOut,
    AspectLimit,
    NameOfAccessor,
    TreeSyntax,
    TreeClass,
    TreeFit,
    TreeLimit,
}

impl Code {
    ghost use Rattle.at_start.specs.Codes.{code_text};

    /// The code and its words, as they are printed.
    pub fn text(self) -> &'static str
        ensures { result.now ≡ code_text self }
    {
        match self {
            Code::GrammarSyntax => "G1 syntax",
            Code::ClassTwice => "G2 class twice",
            Code::UnknownClass => "G3 unknown class",
            Code::SuperclassCircle => "G4 superclass circle",
            Code::ComponentTwice => "G5 component twice",
            Code::TokenKind => "G6 token kind",
            Code::GrammarFormLeftOut => "G7 form left out",
            Code::GrammarLimit => "G8 limit",
            Code::NoClass => "G9 no class",
            Code::AspectSyntax => "J1 syntax",
            Code::AttributeTwice => "J2 attribute twice",
            Code::UnknownName => "J3 unknown name",
            Code::Kind => "J4 kind",
            Code::Argument => "J5 argument",
            Code::EquationTwice => "J6 equation twice",
            Code::ClassWithoutEquation => "J7 class without equation",
            Code::InheritedWithoutEquation => "J8 inherited without equation",
            Code::EquationWithoutAttribute => "J9 equation without attribute",
            Code::AspectFormLeftOut => "J10 form left out",
            Code::AspectLimit => "J11 limit",
            Code::NameOfAccessor => "J12 name of an accessor",
            Code::TreeSyntax => "F1 syntax",
            Code::TreeClass => "F6 class",
            Code::TreeFit => "F7 fit",
            Code::TreeLimit => "F12 limit",
        }
    }
}
