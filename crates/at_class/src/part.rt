//! Classes, and components.
use crate::tree::Cell;
use std::alloc::{AllocError, Global};
use std::marker::Model;

/// A class, by its position among the declarations of its grammar.
#[derive(Clone, Copy, PartialEq, Eq, Debug)]
pub struct ClassId(usize);

impl Model for ClassId {
    ghost use Rattle.std.specs.Prelude.{ℕ};

    ghost Value = { ℕ };

    ghost view = { λ c. c.0 };

    ghost inverse = { λ n. record { 0 = n } };
}

impl ClassId {
    ghost use Rattle.std.specs.Prelude.{◌≡◌};

    /// The class at that position.
    pub fn new(position: usize) -> Self
        ensures { result ≡ position }
    {
        ClassId(position)
    }

    /// Its position among the declarations.
    pub fn index(self) -> usize
        ensures { result ≡ self }
    {
        self.0
    }
}

/// The kinds of tokens: `String`, `int` and `boolean`.
#[derive(Clone, Copy, PartialEq, Eq, Debug)]
pub enum TokenKind {
    Str,
    Int,
    Bool,
}

/// What a component holds: one tree of the class or below it, a list of such trees, at most one such tree, or a token.
#[derive(Clone, Copy, PartialEq, Eq, Debug)]
pub enum PartShape {
    One(ClassId),
    Many(ClassId),
    Maybe(ClassId),
    Tok(TokenKind),
}

impl PartShape {
    ghost use Rattle.std.specs.Prelude.{◌≡◌, option_map};
    ghost use Rattle.at_model.specs.Classes.{class_in};
    ghost use Rattle.at_model.specs.Edits.{list_class, optional_class, plain_class, token_kind};
    ghost use Rattle.at_class.specs.View.{shape_view, token_kind_view};

    /// The class of the trees, where the component isn't a token.
    pub fn class_in(self) -> Option<ClassId>
        ensures { result ≡ class_in (shape_view self) }
    {
        match self {
            PartShape::One(class) => Some(class),
            PartShape::Many(class) => Some(class),
            PartShape::Maybe(class) => Some(class),
            PartShape::Tok(_) => None,
        }
    }

    /// The class of the child, where the component is a plain child.
    pub fn plain_class(self) -> Option<ClassId>
        ensures { result ≡ plain_class (shape_view self) }
    {
        match self {
            PartShape::One(class) => Some(class),
            PartShape::Many(_) | PartShape::Maybe(_) | PartShape::Tok(_) => None,
        }
    }

    /// The class of the elements, where the component is a list.
    pub fn list_class(self) -> Option<ClassId>
        ensures { result ≡ list_class (shape_view self) }
    {
        match self {
            PartShape::Many(class) => Some(class),
            PartShape::One(_) | PartShape::Maybe(_) | PartShape::Tok(_) => None,
        }
    }

    /// The class of what it may hold, where the component is an optional.
    pub fn optional_class(self) -> Option<ClassId>
        ensures { result ≡ optional_class (shape_view self) }
    {
        match self {
            PartShape::Maybe(class) => Some(class),
            PartShape::One(_) | PartShape::Many(_) | PartShape::Tok(_) => None,
        }
    }

    /// The kind of the token, where the component is one.
    pub fn token_kind(self) -> Option<TokenKind>
        ensures { option_map token_kind_view result ≡ token_kind (shape_view self) }
    {
        match self {
            PartShape::Tok(kind) => Some(kind),
            PartShape::One(_) | PartShape::Many(_) | PartShape::Maybe(_) => None,
        }
    }
}

/// A component of a class; where it is fixed (a constant nonterminal attribute), what stands in it in each tree.
#[derive(Drop)]
pub struct Part {
    pub name: String,
    pub shape: PartShape,
    pub fixed: Option<Cell>,
}

impl Part {
    ghost use Rattle.std.specs.Prelude.{◌≡◌, IfOk};
    ghost use Rattle.at_class.specs.View.{part_view};

    /// A component of the same name and shape, in which the same is fixed, or want of memory.
    pub(crate) fn copied(&self, alloc: Global) -> Result<Part, AllocError>
        ensures { IfOk result (λ p. part_view p ≡ part_view self.now) }
    {
        let name = String::from_str(alloc, self.name.as_str())?;
        let fixed = match &self.fixed {
            None => None,
            Some(cell) => Some(cell.copied(alloc)?),
        };
        Ok(Part {
            name,
            shape: self.shape,
            fixed,
        })
    }
}

ghost use Rattle.std.specs.Prelude.{◌≡◌, position, string_bytes};
ghost use Rattle.std.specs.Str.{bytes_eq};

/// The position of the component of that name.
pub fn position_named(parts: &[Part], name: &str) -> Option<usize>
    ensures { result ≡ position (λ p. bytes_eq (string_bytes p.name) name.now) parts.now }
{
    parts.iter().position(|part| part.name.as_str() == name)
}
