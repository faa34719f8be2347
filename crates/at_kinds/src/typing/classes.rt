//! Casts and `instanceof`.

ghost use Rattle.at_jrag.specs.View.{word_view};
ghost use Rattle.at_kinds.specs.Judging.{cast as cast_to, tested as tested_by, class_beside};
ghost use Rattle.at_kinds.specs.Typed.{typed_view, Judges};

use super::kinds::{ExprKind, Typed};
use super::{Scope, TypeFault, refused};
use crate::code::RuleCode;
use at_class::ClassId;
use at_jrag::Word;
use at_rules::Body;
use at_text::place::Place;

impl Scope<'_> {
    /// `(CLASS) E`
    pub(super) fn cast(&self, class: &Word, inner: Typed, at: Place) -> Result<Typed, TypeFault>
        ensures { Judges typed_view (cast_to self.now.classes.now at (word_view class.now) (typed_view inner)) result }
    {
        let class = self.class_of_node(class, &inner, at)?;
        self.of_kind(ExprKind::Class(class), Body::CastTo(class, inner.body), at)
    }

    /// `E instanceof CLASS`
    pub(super) fn tested(&self, inner: Typed, class: &Word, at: Place) -> Result<Typed, TypeFault>
        ensures { Judges typed_view (tested_by self.now.classes.now at (word_view class.now) (typed_view inner)) result }
    {
        let class = self.class_of_node(class, &inner, at)?;
        self.of_kind(ExprKind::Bool, Body::InstanceOf(inner.body, class), at)
    }

    /// The class that the word names, beside an expression that has to be a node or null.
    fn class_of_node(&self, class: &Word, inner: &Typed, at: Place) -> Result<ClassId, TypeFault>
        ensures { Judges (λ c. c) (class_beside self.now.classes.now at (word_view class.now) (typed_view inner.now)) result }
    {
        let Some(class) = self.classes.id_of(class.text.as_str()) else {
            return Err(refused(RuleCode::UnknownName, at));
        };
        if inner.kind.is_node() {
            Ok(class)
        } else {
            Err(refused(RuleCode::Kind, at))
        }
    }
}
