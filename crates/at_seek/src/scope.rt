//! Where an expression stands.

use crate::keys::is_text_kind;
use at_class::ClassId;
use at_rules::{Body, Kind, Sought};
use std::alloc::{AllocError, Global};

/// The class of `this`, and the kinds of what the names stand for, the innermost fold's first.
#[derive(Drop)]
pub(crate) struct Scope {
    pub this: ClassId,
    pub names: Vec<Kind>,
}

impl Scope {
    ghost use Rattle.std.specs.Prelude.{◌≡◌, ◌∷◌, Bool, IfOk, IfSome, Some, option_map, slice_get};
    ghost use Rattle.at_model.specs.Bodies.{Name};
    ghost use Rattle.at_model.specs.Kinds.{HasKind, bound_kinds};
    ghost use Rattle.at_model.specs.Rules.{Class, Rules as RulesValue};
    ghost use Rattle.at_rules.specs.Bodies.{body_view, kind_view, sought_view};
    ghost use Rattle.at_seek.specs.Finding.{kinds_in};
    ghost use Rattle.at_seek.specs.Sought.{IsSoughtText};

    /// Inside the braces of a fold over elements of the class, where there is memory.
    pub(crate) fn within(&self, alloc: Global, element: ClassId) -> Option<Scope>
        ensures { (h : Bool) → IfSome result (λ s. kinds_in s h ≡ bound_kinds (kinds_in self.now h) element) }
    {
        match self.inside(alloc, element) {
            Ok(inside) => Some(inside),
            Err(_) => None,
        }
    }

    /// The same, or want of memory.
    fn inside(&self, alloc: Global, element: ClassId) -> Result<Scope, AllocError>
        ensures { IfOk result (λ s. (h : Bool) → kinds_in s h ≡ bound_kinds (kinds_in self.now h) element) }
    {
        let mut names = Vec::new(alloc);
        names.push(Kind::Class(element))?;
        names.extend_from_slice(self.names.as_slice())?;
        Ok(Scope {
            this: self.this,
            names,
        })
    }

    /// The kind of what the name stands for.
    pub(crate) fn kind_named(&self, name: usize) -> Option<Kind>
        ensures { (h : Bool) → IfSome result (λ k. slice_get (kinds_in self.now h).names name ≡ Some (kind_view k)) }
    {
        match self.names.get(name) {
            Some(kind) => Some(*kind),
            None => None,
        }
    }

    /// The class of the nodes that the name stands for, if for nodes.
    pub(crate) fn class_named(&self, name: usize) -> Option<ClassId>
        ensures { (rules : RulesValue) (h : Bool) → IfSome result (λ c. HasKind rules (kinds_in self.now h) (Name name) (Class c)) }
    {
        let kind = self.kind_named(name)?;
        class_in(kind)
    }

    /// The text that an expression inside the braces of a fold is, where it can be looked for: a literal, or a name from outside of them.
    pub(crate) fn sought(&self, alloc: Global, text: &Body) -> Option<Sought>
        ensures { (h : Bool) → IfSome result (λ t. IsSoughtText (kinds_in self.now h) (sought_view t) (body_view text.now)) }
    {
        match text {
            Body::Text(text) => copied(alloc, text),
            Body::Name(name) => self.outer(*name),
            _ => None,
        }
    }

    /// What the name inside of the braces stands for, where it is a text from outside of them.
    fn outer(&self, name: usize) -> Option<Sought>
        ensures { (h : Bool) → IfSome result (λ t. IsSoughtText (kinds_in self.now h) (sought_view t) (Name name)) }
    {
        if name == 0 {
            return None;
        }
        let kind = self.kind_named(name - 1)?;
        if is_text_kind(kind) {
            return Some(Sought::Name(name - 1));
        }
        None
    }
}

ghost use Rattle.std.specs.Prelude.{◌≡◌, IfSome, string_bytes};
ghost use Rattle.at_model.specs.Bodies.{TextLiteral};
ghost use Rattle.at_model.specs.Rules.{Class};
ghost use Rattle.at_rules.specs.Bodies.{kind_view, sought_view};

/// The class, where it is the kind of its nodes.
pub(crate) fn class_in(kind: Kind) -> Option<ClassId>
    ensures { IfSome result (λ c. kind_view kind ≡ Class c) }
{
    match kind {
        Kind::Class(class) => Some(class),
        _ => None,
    }
}

/// That text.
fn copied(alloc: Global, text: &String) -> Option<Sought>
    ensures { IfSome result (λ t. sought_view t ≡ TextLiteral (string_bytes text.now)) }
{
    match String::from_str(alloc, text.as_str()) {
        Ok(text) => Some(Sought::Text(text)),
        Err(_) => None,
    }
}
