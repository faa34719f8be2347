//! Forms of expressions over what their parts are found to be: the first part with a fault has the form's.

ghost use Rattle.std.specs.Prelude.{◌≡◌, List as Items};
ghost use Rattle.at_jrag.specs.View.{operator_view as sign_view, word_view};
ghost use Rattle.at_kinds.specs.Judging.{Judged, Judgement, Kinded, and_then, called as called_of, placed as placed_at, negation as negation_of, opposite as opposite_of, cast as cast_to, tested as tested_by, joined as joined_of, chosen as chosen_of, list_called as list_called_by, no_list as no_list_of};
ghost use Rattle.at_kinds.specs.Typed.{typed_view, all_view, list_view, scope_view, Judges};

use super::folds::{List, nodes_of};
use super::kinds::Typed;
use super::{Scope, TypeFault};
use at_jrag::{Operator, Word};
use at_text::place::Place;

impl Scope<'_> {
    /// `RECEIVER.NAME(..)`, or a call of `this`.
    pub(super) fn call(
        &self,
        receiver: Result<Typed, TypeFault>,
        name: &str,
        arguments: Result<Vec<Typed>, TypeFault>,
        at: Place,
    ) -> Result<Typed, TypeFault>
        ensures { (j : Judged) (ks : Judgement (Items Kinded)) → Judges typed_view j receiver → Judges all_view ks arguments
            → Judges typed_view (and_then (λ k. and_then (called_of (scope_view self.now) at name.now k) ks) j) result }
    {
        let receiver = receiver?;
        let arguments = arguments?;
        self.called(receiver, name, arguments, at)
    }

    /// `(E)`
    pub(super) fn paren(
        &self,
        inner: Result<Typed, TypeFault>,
        at: Place,
    ) -> Result<Typed, TypeFault>
        ensures { (j : Judged) → Judges typed_view j inner → Judges typed_view (and_then (placed_at at) j) result }
    {
        let inner = inner?;
        Ok(inner.placed(at))
    }

    /// `-E`
    pub(super) fn negation(
        &self,
        inner: Result<Typed, TypeFault>,
        at: Place,
    ) -> Result<Typed, TypeFault>
        ensures { (j : Judged) → Judges typed_view j inner → Judges typed_view (and_then (negation_of at) j) result }
    {
        let inner = inner?;
        self.negated(inner, at)
    }

    /// `!E`
    pub(super) fn complement(
        &self,
        inner: Result<Typed, TypeFault>,
        at: Place,
    ) -> Result<Typed, TypeFault>
        ensures { (j : Judged) → Judges typed_view j inner → Judges typed_view (and_then (opposite_of at) j) result }
    {
        let inner = inner?;
        self.opposite(inner, at)
    }

    /// `(CLASS) E`
    pub(super) fn cast_of(
        &self,
        class: &Word,
        inner: Result<Typed, TypeFault>,
        at: Place,
    ) -> Result<Typed, TypeFault>
        ensures { (j : Judged) → Judges typed_view j inner → Judges typed_view (and_then (cast_to self.now.classes.now at (word_view class.now)) j) result }
    {
        let inner = inner?;
        self.cast(class, inner, at)
    }

    /// `E instanceof CLASS`
    pub(super) fn test_of(
        &self,
        inner: Result<Typed, TypeFault>,
        class: &Word,
        at: Place,
    ) -> Result<Typed, TypeFault>
        ensures { (j : Judged) → Judges typed_view j inner → Judges typed_view (and_then (tested_by self.now.classes.now at (word_view class.now)) j) result }
    {
        let inner = inner?;
        self.tested(inner, class, at)
    }

    /// Two operands with an operator between.
    pub(super) fn binary(
        &self,
        sign: Operator,
        left: Result<Typed, TypeFault>,
        right: Result<Typed, TypeFault>,
        at: Place,
    ) -> Result<Typed, TypeFault>
        ensures { (j k : Judged) → Judges typed_view j left → Judges typed_view k right
            → Judges typed_view (and_then (λ a. and_then (joined_of at (sign_view sign) a) k) j) result }
    {
        let left = left?;
        let right = right?;
        self.joined(sign, left, right, at)
    }

    /// `TEST ? LEFT : RIGHT`
    pub(super) fn choice(
        &self,
        test: Result<Typed, TypeFault>,
        left: Result<Typed, TypeFault>,
        right: Result<Typed, TypeFault>,
        at: Place,
    ) -> Result<Typed, TypeFault>
        ensures { (i j k : Judged) → Judges typed_view i test → Judges typed_view j left → Judges typed_view k right
            → Judges typed_view (and_then (λ c. and_then (λ a. and_then (chosen_of self.now.classes.now at c a) k) j) i) result }
    {
        let test = test?;
        let left = left?;
        let right = right?;
        self.chosen(test, left, right, at)
    }

    /// The list that a call is, in a fold at that place.
    pub(super) fn list_call(
        &self,
        receiver: Result<Typed, TypeFault>,
        name: &str,
        arguments: Result<Vec<Typed>, TypeFault>,
        at: Place,
        fold: Place,
    ) -> Result<List, TypeFault>
        ensures { (j : Judged) (ks : Judgement (Items Kinded)) → Judges typed_view j receiver → Judges all_view ks arguments
            → Judges list_view (and_then (λ k. and_then (list_called_by (scope_view self.now) fold at name.now k) ks) j) result }
    {
        let receiver = receiver?;
        let arguments = arguments?;
        self.list_called(receiver, name, arguments, at, fold)
    }
}

/// What is no call is no list of the fold at that place, where it has no fault itself.
pub(super) fn no_list(whole: Result<Typed, TypeFault>, fold: Place) -> Result<List, TypeFault>
    ensures { (j : Judged) → Judges typed_view j whole → Judges list_view (and_then (no_list_of fold) j) result }
{
    let whole = whole?;
    nodes_of(whole.kind, whole.body, fold)
}
