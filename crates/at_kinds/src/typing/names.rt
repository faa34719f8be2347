//! `this`, numbers, texts and names.

ghost use Rattle.std.specs.Prelude.{◌≡◌, ◌∷◌, ◌++◌, map, option_map, slice_get, position, bytes_eq, IfOk, OnOk};
ghost use Rattle.at_model.specs.Bodies as model;
ghost use Rattle.at_kinds.specs.Judging.{Is, of_kind, named as named_in, bound_to, index_eq, index_named, this_node};
ghost use Rattle.at_kinds.specs.Typed.{typed_view, scope_view, bound_view, Judges};

use super::kinds::{ExprKind, Typed};
use super::{Bound, Scope, TypeFault, refused};
use crate::code::RuleCode;
use crate::signatures::WrittenKind;
use at_class::ClassId;
use at_rules::{Body, Kind};
use at_text::place::Place;
use std::alloc::{AllocError, Global};
use std::rc::Rc;

impl Scope<'_> {
    /// `this`
    pub(super) fn this(&self, at: Place) -> Result<Typed, TypeFault>
        ensures { Judges typed_view (Is (this_node (scope_view self.now) at)) result }
    {
        self.of_kind(ExprKind::Class(self.this), Body::This, at)
    }

    /// A number.
    pub(super) fn number(&self, value: &i32, at: Place) -> Result<Typed, TypeFault>
        ensures { Judges typed_view (of_kind at ExprKind.Int (model.IntLiteral value.now)) result }
    {
        let value = *value;
        self.of_kind(ExprKind::Int, Body::Int(value), at)
    }

    /// A quoted text.
    pub(super) fn text(&self, text: &str, at: Place) -> Result<Typed, TypeFault>
        ensures { Judges typed_view (of_kind at ExprKind.Text (model.TextLiteral text.now)) result }
    {
        let text = String::from_str(self.alloc, text)?;
        self.of_kind(ExprKind::Text, Body::Text(text), at)
    }

    /// A name: of the innermost fold that has it, else of a parameter, else the index name.
    pub(super) fn named(&self, name: &str, at: Place) -> Result<Typed, TypeFault>
        ensures { Judges typed_view (named_in (scope_view self.now) at name.now) result }
    {
        match self.bound_to(name) {
            Some(bound) => self.of_kind(ExprKind::written(bound.1), Body::Name(bound.0), at),
            None => self.index_named(name, at),
        }
    }

    /// What is bound to the name, and at which position.
    fn bound_to(&self, name: &str) -> Option<(usize, WrittenKind)>
        ensures { result ≡ bound_to (map bound_view self.now.names.now) name.now }
    {
        let position = position_bound(self.names, name)?;
        let kind = kind_at(self.names, position)?;
        Some((position, kind))
    }

    /// The index name, where it is that one.
    fn index_named(&self, name: &str, at: Place) -> Result<Typed, TypeFault>
        ensures { Judges typed_view (index_named at (index_eq (option_map (λ n. n.now) self.now.index) name.now)) result }
    {
        match self.index {
            Some(index) => {
                if index == name {
                    self.of_kind(ExprKind::Int, Body::IndexName, at)
                } else {
                    Err(refused(RuleCode::UnknownName, at))
                }
            }
            None => Err(refused(RuleCode::UnknownName, at)),
        }
    }
}

fn position_bound(names: &[Bound], name: &str) -> Option<usize>
    ensures { result ≡ position (λ b. bytes_eq (bound_view b).name name.now) names.now }
{
    names.iter().position(|bound| bound.name.as_str() == name)
}

fn kind_at(names: &[Bound], position: usize) -> Option<WrittenKind>
    ensures { result ≡ option_map (λ b. b.kind) (slice_get names.now position) }
{
    names.get(position).map(|bound| bound.kind)
}

/// The names in the braces of a fold over nodes of the class: the fold's own, and then those outside.
pub fn within(
    alloc: Global,
    name: &str,
    class: ClassId,
    outside: &[Bound],
) -> Result<Vec<Bound>, AllocError>
    ensures { IfOk result (λ names. map bound_view names.items
        ≡ record { name = name.now; kind = WrittenKind.Known (Kind.Class class) } ∷ map bound_view outside.now) }
{
    let mut names = Vec::new(alloc);
    names.push(Bound {
        name: Rc::new(alloc, String::from_str(alloc, name)?)?,
        kind: WrittenKind::Known(Kind::Class(class)),
    })?;
    append(outside, &mut names)?;
    Ok(names)
}

/// The names behind those that are there.
fn append(outside: &[Bound], names: &mut Vec<Bound>) -> Result<(), AllocError>
    ensures { OnOk result (map bound_view names.new.items ≡ map bound_view names.old.items ++ map bound_view outside.now) }
{
    for bound in outside {
        names.push(shared(bound)?)?;
    }
    Ok(())
}

/// The same name once more, which is shared.
fn shared(bound: &Bound) -> Result<Bound, AllocError>
    ensures { IfOk result (λ b. bound_view b ≡ bound_view bound.now) }
{
    let name = bound.name.clone()?;
    Ok(Bound {
        name,
        kind: bound.kind,
    })
}
