//! Why there is no class table.
use at_text::fault::Fault;
use at_text::place::Place;

/// The rules of an abstract grammar that a refusal may name, in the order in which they are looked at.
#[derive(Clone, Copy, PartialEq, Eq, Debug)]
pub enum ClassCode {
    /// G9: no class is declared.
    NoClass,
    /// G2: a class is declared twice, or named `ASTNode`, `List` or `Opt`.
    ClassTwice,
    /// G3: a superclass, or the class of a component, is not declared.
    UnknownClass,
    /// G4: a class is above itself.
    SuperclassCircle,
    /// G6: a token's kind is none of `String`, `int` and `boolean`.
    TokenKind,
    /// G5: a name stands twice in a class, or is that of an accessor that is there already.
    ComponentTwice,
    /// G8: over 1,000 classes, or over 32 components in one.
    Limit,
}

/// Why there is no class table: the rule that the grammar breaks and its place, or want of memory.
pub type ClassFault = Fault<ClassCode>;

ghost use Rattle.std.specs.Prelude.{◌≡◌, IfErr, None, OnOk, option_map};
ghost use Rattle.at_class.specs.Grammar.{place_view};
ghost use Rattle.at_class.specs.Faults.{IsAt};

/// A refusal with that code, where there is a place for it.
pub fn refuse(code: ClassCode, place: Option<Place>) -> Result<(), ClassFault>
    ensures ok { OnOk result (place ≡ None) }
    ensures err { IfErr result (IsAt code (option_map place_view place)) }
{
    match place {
        None => Ok(()),
        Some(at) => Err(ClassFault::Refused { code, at }),
    }
}
