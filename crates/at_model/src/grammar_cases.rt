//! Worked grammars: the fault of each, and its place.

ghost use Rattle.std.specs.Prelude.{◌≡◌, ◌∷◌, [], codes, None, Some};
ghost use Rattle.at_model.specs.Declarations.{
  ClassTwice,
  ComponentTwice,
  Limit,
  Many,
  Maybe,
  NoClass,
  One,
  SuperclassCircle,
  Tok,
  TokenKindCode,
  UnknownClass,
  first_fault,
};
ghost use Rattle.at_model.specs.SampleGrammars.{at, class_in, many_parts, part};

/// A grammar declares a class, and each class once; the place is that of the later name.
pub fn classes_of_grammars()
    ensures none { first_fault [] ≡ at NoClass (1, 1) }
    ensures one { first_fault (class_in 1 (codes "A") None [] ∷ []) ≡ None }
    ensures twice { first_fault (class_in 1 (codes "A") None [] ∷ class_in 2 (codes "B") None [] ∷ class_in 3 (codes "A") None [] ∷ []) ≡ at ClassTwice (3, 1) }
    ensures apart { first_fault (class_in 1 (codes "A") None [] ∷ class_in 2 (codes "B") None [] ∷ class_in 3 (codes "C") None [] ∷ []) ≡ None }
    ensures predefined { first_fault (class_in 1 (codes "A") None [] ∷ class_in 2 (codes "Opt") None [] ∷ []) ≡ at ClassTwice (2, 1) }
{}

/// Each class that is named is declared, also below; the place is that of the declaration that names it.
pub fn classes_that_are_named()
    ensures parent { first_fault (class_in 1 (codes "A") (Some (codes "B")) [] ∷ []) ≡ at UnknownClass (1, 1) }
    ensures below { first_fault (class_in 1 (codes "A") (Some (codes "B")) [] ∷ class_in 2 (codes "B") None [] ∷ []) ≡ None }
    ensures component { first_fault (class_in 1 (codes "A") None (part One (codes "X") (codes "B") (1, 7) ∷ []) ∷ []) ≡ at UnknownClass (1, 1) }
    ensures itself { first_fault (class_in 1 (codes "A") None (part Maybe (codes "X") (codes "A") (1, 7) ∷ []) ∷ []) ≡ None }
    ensures token { first_fault (class_in 1 (codes "A") None (part Tok (codes "X") (codes "B") (1, 8) ∷ []) ∷ []) ≡ at TokenKindCode (1, 8) }
{}

/// A class is above itself in a circle, however long, and not where its superclass is.
pub fn circles_of_superclasses()
    ensures itself { first_fault (class_in 1 (codes "A") (Some (codes "A")) [] ∷ []) ≡ at SuperclassCircle (1, 1) }
    ensures two { first_fault (class_in 1 (codes "A") (Some (codes "B")) [] ∷ class_in 2 (codes "B") (Some (codes "A")) [] ∷ []) ≡ at SuperclassCircle (1, 1) }
    ensures below { first_fault
        (class_in 1 (codes "C") (Some (codes "A")) [] ∷ class_in 2 (codes "A") (Some (codes "B")) [] ∷ class_in 3 (codes "B") (Some (codes "A")) [] ∷ [])
        ≡ at SuperclassCircle (2, 1) }
    ensures line { first_fault
        (class_in 1 (codes "C") (Some (codes "A")) [] ∷ class_in 2 (codes "A") (Some (codes "B")) [] ∷ class_in 3 (codes "B") None [] ∷ [])
        ≡ None }
{}

/// A token is a String, an int or a boolean, and its kind is looked at before names of components are.
pub fn kinds_of_tokens()
    ensures kinds { first_fault (class_in 1 (codes "A") None (part Tok (codes "X") (codes "String") (1, 8) ∷ part Tok (codes "Y") (codes "int") (1, 19)
        ∷ part Tok (codes "Z") (codes "boolean") (1, 27) ∷ []) ∷ []) ≡ None }
    ensures other { first_fault (class_in 1 (codes "A") None (part Tok (codes "X") (codes "bool") (1, 8) ∷ []) ∷ []) ≡ at TokenKindCode (1, 8) }
    ensures before { first_fault
        (class_in 1 (codes "A") None (part Tok (codes "X") (codes "int") (1, 8) ∷ part Tok (codes "X") (codes "float") (1, 16) ∷ []) ∷ [])
        ≡ at TokenKindCode (1, 16) }
{}

/// A component has a name that none before it takes, one of a superclass among them; a list takes two more; and some
/// names are every tree's.
pub fn names_of_components()
    ensures twice { first_fault (class_in 1 (codes "A") None (part One (codes "X") (codes "A") (1, 7) ∷ part Tok (codes "X") (codes "int") (1, 12) ∷ []) ∷ [])
        ≡ at ComponentTwice (1, 12) }
    ensures inherited { first_fault (class_in 1 (codes "B") (Some (codes "A")) (part Tok (codes "X") (codes "int") (1, 12) ∷ [])
        ∷ class_in 2 (codes "A") None (part One (codes "X") (codes "A") (2, 7) ∷ []) ∷ [])
        ≡ at ComponentTwice (1, 12) }
    ensures beside { first_fault (class_in 1 (codes "B") None (part Tok (codes "X") (codes "int") (1, 8) ∷ [])
        ∷ class_in 2 (codes "A") None (part One (codes "X") (codes "A") (2, 7) ∷ []) ∷ [])
        ≡ None }
    ensures number { first_fault
        (class_in 1 (codes "A") None (part Many (codes "X") (codes "A") (1, 7) ∷ part Tok (codes "NumX") (codes "int") (1, 13) ∷ []) ∷ [])
        ≡ at ComponentTwice (1, 13) }
    ensures list { first_fault
        (class_in 1 (codes "A") None (part Tok (codes "XList") (codes "int") (1, 8) ∷ part Many (codes "X") (codes "A") (1, 20) ∷ []) ∷ [])
        ≡ at ComponentTwice (1, 20) }
    ensures plain { first_fault
        (class_in 1 (codes "A") None (part One (codes "X") (codes "A") (1, 7) ∷ part Tok (codes "NumX") (codes "int") (1, 12) ∷ []) ∷ [])
        ≡ None }
    ensures every { first_fault (class_in 1 (codes "A") None (part One (codes "Child") (codes "A") (1, 7) ∷ []) ∷ []) ≡ at ComponentTwice (1, 7) }
{}

/// A class has at most 32 components, inherited ones among them.
pub fn numbers_of_components()
    ensures most { first_fault (class_in 1 (codes "A") None (many_parts (codes "A") 32) ∷ []) ≡ None }
    ensures more { first_fault (class_in 1 (codes "A") None (many_parts (codes "A") 33) ∷ []) ≡ at Limit (1, 1) }
    ensures inherited { first_fault (class_in 1 (codes "A") None (many_parts (codes "A") 32)
        ∷ class_in 2 (codes "B") (Some (codes "A")) (part Tok (codes "Y") (codes "int") (2, 12) ∷ []) ∷ [])
        ≡ at Limit (2, 1) }
{}
