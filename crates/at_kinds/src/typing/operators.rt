//! Operators and their operands.

ghost use Rattle.std.specs.Prelude.{◌≡◌};
ghost use Rattle.at_jrag.specs.View.{operator_view as sign_view};
ghost use Rattle.at_rules.specs.Bodies.{body_view, operator_view, order_view};
ghost use Rattle.at_kinds.specs.Kinds.{are_ints, are_truths, are_alike};
ghost use Rattle.at_kinds.specs.Judging.{negation, opposite as opposite_of, joined as joined_of, added as added_of, text_joined as text_joined_of, computed as computed_of, ordered as ordered_of, kind_if, chosen as chosen_of};
ghost use Rattle.at_model.specs.Bodies as model;
ghost use Rattle.at_kinds.specs.Typed.{typed_view, Judges};

use super::kinds::{ExprKind, Typed};
use super::{Scope, TypeFault, refused};
use crate::code::RuleCode;
use at_jrag::Operator as Sign;
use at_rules::{Body, Operator, Order};
use at_text::place::Place;

impl Scope<'_> {
    /// `-E`
    pub(super) fn negated(&self, inner: Typed, at: Place) -> Result<Typed, TypeFault>
        ensures { Judges typed_view (negation at (typed_view inner)) result }
    {
        self.kind_if(
            inner.kind.is_int(),
            ExprKind::Int,
            Body::Negate(inner.body),
            at,
        )
    }

    /// `!E`
    pub(super) fn opposite(&self, inner: Typed, at: Place) -> Result<Typed, TypeFault>
        ensures { Judges typed_view (opposite_of at (typed_view inner)) result }
    {
        self.kind_if(
            inner.kind.is_truth(),
            ExprKind::Bool,
            Body::Not(inner.body),
            at,
        )
    }

    /// Two operands with an operator between.
    pub(super) fn joined(
        &self,
        sign: Sign,
        left: Typed,
        right: Typed,
        at: Place,
    ) -> Result<Typed, TypeFault>
        ensures { Judges typed_view (joined_of at (sign_view sign) (typed_view left) (typed_view right)) result }
    {
        match sign {
            Sign::Add => self.added(left, right, at),
            Sign::Subtract => self.computed(Operator::Subtract, left, right, at),
            Sign::Multiply => self.computed(Operator::Multiply, left, right, at),
            Sign::Divide => self.computed(Operator::Divide, left, right, at),
            Sign::Remainder => self.computed(Operator::Remainder, left, right, at),
            Sign::Below => self.ordered(Order::Below, left, right, at),
            Sign::AtMost => self.ordered(Order::AtMost, left, right, at),
            Sign::Above => self.ordered(Order::Above, left, right, at),
            Sign::AtLeast => self.ordered(Order::AtLeast, left, right, at),
            Sign::Same => self.same(left, right, at),
            Sign::Differs => self.different(left, right, at),
            Sign::And => self.both(left, right, at),
            Sign::Or => self.either(left, right, at),
        }
    }

    /// `+`: of two ints; of a text with a text or with an int.
    fn added(&self, left: Typed, right: Typed, at: Place) -> Result<Typed, TypeFault>
        ensures { Judges typed_view (added_of at (typed_view left) (typed_view right)) result }
    {
        if left.kind.is_text() {
            return self.text_joined(left.body, right, at);
        }
        self.computed(Operator::Add, left, right, at)
    }

    /// A text joined with a text, or with an int.
    fn text_joined(&self, left: Box<Body>, right: Typed, at: Place) -> Result<Typed, TypeFault>
        ensures { Judges typed_view (text_joined_of at (body_view left.value) right.kind (body_view right.body.value)) result }
    {
        match right.kind {
            ExprKind::Text => self.of_kind(ExprKind::Text, Body::Join(left, right.body), at),
            ExprKind::Int => self.of_kind(ExprKind::Text, Body::JoinInt(left, right.body), at),
            _ => Err(refused(RuleCode::Kind, at)),
        }
    }

    /// An operator on two ints that gives an int.
    fn computed(
        &self,
        operator: Operator,
        left: Typed,
        right: Typed,
        at: Place,
    ) -> Result<Typed, TypeFault>
        ensures { Judges typed_view (computed_of at (operator_view operator) (typed_view left) (typed_view right)) result }
    {
        self.kind_if(
            are_ints(left.kind, right.kind),
            ExprKind::Int,
            Body::Arithmetic(operator, left.body, right.body),
            at,
        )
    }

    /// A comparison of two ints.
    fn ordered(
        &self,
        order: Order,
        left: Typed,
        right: Typed,
        at: Place,
    ) -> Result<Typed, TypeFault>
        ensures { Judges typed_view (ordered_of at (order_view order) (typed_view left) (typed_view right)) result }
    {
        self.kind_if(
            are_ints(left.kind, right.kind),
            ExprKind::Bool,
            Body::Compare(order, left.body, right.body),
            at,
        )
    }

    /// `==`
    fn same(&self, left: Typed, right: Typed, at: Place) -> Result<Typed, TypeFault>
        ensures { Judges typed_view (kind_if (are_alike left.kind right.kind) at ExprKind.Bool
            (model.Same (body_view left.body.value) (body_view right.body.value))) result }
    {
        self.kind_if(
            are_alike(left.kind, right.kind),
            ExprKind::Bool,
            Body::Same(left.body, right.body),
            at,
        )
    }

    /// `!=`
    fn different(&self, left: Typed, right: Typed, at: Place) -> Result<Typed, TypeFault>
        ensures { Judges typed_view (kind_if (are_alike left.kind right.kind) at ExprKind.Bool
            (model.Differ (body_view left.body.value) (body_view right.body.value))) result }
    {
        self.kind_if(
            are_alike(left.kind, right.kind),
            ExprKind::Bool,
            Body::Differ(left.body, right.body),
            at,
        )
    }

    /// `&&`
    fn both(&self, left: Typed, right: Typed, at: Place) -> Result<Typed, TypeFault>
        ensures { Judges typed_view (kind_if (are_truths left.kind right.kind) at ExprKind.Bool
            (model.And (body_view left.body.value) (body_view right.body.value))) result }
    {
        self.kind_if(
            are_truths(left.kind, right.kind),
            ExprKind::Bool,
            Body::And(left.body, right.body),
            at,
        )
    }

    /// `||`
    fn either(&self, left: Typed, right: Typed, at: Place) -> Result<Typed, TypeFault>
        ensures { Judges typed_view (kind_if (are_truths left.kind right.kind) at ExprKind.Bool
            (model.Or (body_view left.body.value) (body_view right.body.value))) result }
    {
        self.kind_if(
            are_truths(left.kind, right.kind),
            ExprKind::Bool,
            Body::Or(left.body, right.body),
            at,
        )
    }

    /// `TEST ? LEFT : RIGHT`
    pub(super) fn chosen(
        &self,
        test: Typed,
        left: Typed,
        right: Typed,
        at: Place,
    ) -> Result<Typed, TypeFault>
        ensures { Judges typed_view (chosen_of self.now.classes.now at (typed_view test) (typed_view left) (typed_view right)) result }
    {
        if !test.kind.is_truth() {
            return Err(refused(RuleCode::Kind, at));
        }
        let Some(kind) = left.kind.wider(self.classes, right.kind) else {
            return Err(refused(RuleCode::Kind, at));
        };
        self.of_kind(kind, Body::Choose(test.body, left.body, right.body), at)
    }
}

fn are_ints(left: ExprKind, right: ExprKind) -> bool
    ensures { result ≡ are_ints left right }
{
    left.is_int() && right.is_int()
}

fn are_truths(left: ExprKind, right: ExprKind) -> bool
    ensures { result ≡ are_truths left right }
{
    left.is_truth() && right.is_truth()
}

/// Whether `==` may stand between them: two ints, two truth values, or two nodes or null.
fn are_alike(left: ExprKind, right: ExprKind) -> bool
    ensures { result ≡ are_alike left right }
{
    match left {
        ExprKind::Int => right.is_int(),
        ExprKind::Bool => right.is_truth(),
        ExprKind::Text => false,
        ExprKind::Class(_) | ExprKind::Strange(_) | ExprKind::Null => right.is_node(),
    }
}
