//! Calls: of accessors, of attributes, and of `equals`.

ghost use Rattle.std.specs.Prelude.{◌≡◌, [], map, slice_get, IfOk};
ghost use Rattle.at_model.specs.Bodies as model;
ghost use Rattle.at_rules.specs.Bodies.{body_view, bodies_view};
ghost use Rattle.at_kinds.specs.Judging.{called as called_of, asked_of as asked_by_kind, asked as asked_in, equal as equal_of, only, one_argument, where_fit, misfit, accessed as accessed_by, of_kind, demanded_of, fitted as fitted_to, is_argument as is_argument_for, is_allowed, is_text_word, is_given_text as is_given, is_number, is_computed};
ghost use Rattle.at_kinds.specs.Kinds.{is_int, is_text};
ghost use Rattle.at_kinds.specs.Typed.{typed_view, boxed_view, passed_body, scope_view, Judges};

use super::kinds::{ExprKind, Typed};
use super::{Scope, TypeFault, refused};
use crate::accessors::{Accessor, accessor_named};
use crate::arguments::Arguments;
use crate::code::RuleCode;
use crate::signatures::WrittenKind;
use at_class::ClassId;
use at_rules::{AttrId, Body, Kind};
use at_text::place::Place;
use std::alloc::{AllocError, Global};

impl Scope<'_> {
    /// A call of a receiver. Texts have `equals`; nodes have accessors and attributes.
    pub(super) fn called(
        &self,
        receiver: Typed,
        name: &str,
        arguments: Vec<Typed>,
        at: Place,
    ) -> Result<Typed, TypeFault>
        ensures { Judges typed_view (called_of (scope_view self.now) at name.now (typed_view receiver) (map typed_view arguments.items)) result }
    {
        if name == "equals" {
            return self.equal(receiver, arguments, at);
        }
        self.asked_of(receiver.kind, receiver.body, name, arguments, at)
    }

    /// A call of what is no text.
    fn asked_of(
        &self,
        kind: ExprKind,
        node: Box<Body>,
        name: &str,
        arguments: Vec<Typed>,
        at: Place,
    ) -> Result<Typed, TypeFault>
        ensures { Judges typed_view (asked_by_kind (scope_view self.now) at name.now kind (body_view node.value) (map typed_view arguments.items)) result }
    {
        match kind {
            ExprKind::Class(class) => self.asked(class, node, name, arguments, at),
            ExprKind::Strange(_) => Err(refused(RuleCode::UnknownName, at)),
            _ => Err(refused(RuleCode::Kind, at)),
        }
    }

    /// `equals` of two texts.
    fn equal(&self, receiver: Typed, arguments: Vec<Typed>, at: Place) -> Result<Typed, TypeFault>
        ensures { Judges typed_view (equal_of at (typed_view receiver) (map typed_view arguments.items)) result }
    {
        if !receiver.kind.is_text() {
            return Err(refused(RuleCode::Kind, at));
        }
        let argument = self.text_argument(arguments, at)?;
        self.of_kind(ExprKind::Bool, Body::Equals(receiver.body, argument), at)
    }

    /// The only argument of the call at that place, a text.
    fn text_argument(&self, arguments: Vec<Typed>, at: Place) -> Result<Box<Body>, TypeFault>
        ensures { Judges boxed_view (one_argument is_text at (map typed_view arguments.items)) result }
    {
        let argument = self.only(arguments, at)?;
        where_fit(argument.kind.is_text(), argument)
    }

    /// The only argument of the call at that place, an int.
    fn int_argument(&self, arguments: Vec<Typed>, at: Place) -> Result<Box<Body>, TypeFault>
        ensures { Judges boxed_view (one_argument is_int at (map typed_view arguments.items)) result }
    {
        let argument = self.only(arguments, at)?;
        where_fit(argument.kind.is_int(), argument)
    }

    /// The only argument of the call at that place.
    fn only(&self, arguments: Vec<Typed>, at: Place) -> Result<Typed, TypeFault>
        ensures { Judges typed_view (only at (map typed_view arguments.items)) result }
    {
        let mut arguments = arguments;
        if arguments.len() != 1 {
            return Err(refused(RuleCode::Argument, at));
        }
        match arguments.pop() {
            Some(argument) => Ok(argument),
            None => Err(refused(RuleCode::Argument, at)),
        }
    }

    /// An accessor or an attribute of nodes of the class.
    fn asked(
        &self,
        class: ClassId,
        node: Box<Body>,
        name: &str,
        arguments: Vec<Typed>,
        at: Place,
    ) -> Result<Typed, TypeFault>
        ensures { Judges typed_view (asked_in (scope_view self.now) at name.now class (body_view node.value) (map typed_view arguments.items)) result }
    {
        if let Some(accessor) = accessor_named(self.classes, class, name) {
            return self.accessed(accessor, node, arguments, at);
        }
        match self.signatures.attribute(self.classes, class, name) {
            Some(attribute) => self.demanded(attribute, node, arguments, at),
            None => Err(refused(RuleCode::UnknownName, at)),
        }
    }

    /// An accessor of a node: only that of a list's element takes an argument, and that of the list itself
    /// stands only in folds.
    fn accessed(
        &self,
        accessor: Accessor,
        node: Box<Body>,
        arguments: Vec<Typed>,
        at: Place,
    ) -> Result<Typed, TypeFault>
        ensures { Judges typed_view (accessed_by at accessor (body_view node.value) (map typed_view arguments.items)) result }
    {
        if let Accessor::Element(part, class) = accessor {
            let index = self.int_argument(arguments, at)?;
            let element = Body::Element(node, part, index);
            return self.of_kind(ExprKind::Class(class), element, at);
        }
        if !arguments.is_empty() {
            return Err(refused(RuleCode::Argument, at));
        }
        self.accessed_alone(accessor, node, at)
    }

    /// An accessor of a node, in a call without arguments.
    fn accessed_alone(
        &self,
        accessor: Accessor,
        node: Box<Body>,
        at: Place,
    ) -> Result<Typed, TypeFault>
        ensures { Judges typed_view (accessed_by at accessor (body_view node.value) []) result }
    {
        match accessor {
            Accessor::Child(part, class) => {
                self.of_kind(ExprKind::Class(class), Body::Child(node, part), at)
            }
            Accessor::Token(part, kind) => {
                self.of_kind(ExprKind::known(kind), Body::TokenOf(node, part), at)
            }
            Accessor::Has(part) => self.of_kind(ExprKind::Bool, Body::Has(node, part), at),
            Accessor::Count(part) => self.of_kind(ExprKind::Int, Body::Count(node, part), at),
            Accessor::List(_) => Err(refused(RuleCode::Kind, at)),
            Accessor::Element(_, _) => Err(refused(RuleCode::Argument, at)),
        }
    }

    /// An attribute of a node, with its arguments.
    fn demanded(
        &self,
        attribute: AttrId,
        node: Box<Body>,
        arguments: Vec<Typed>,
        at: Place,
    ) -> Result<Typed, TypeFault>
        ensures { Judges typed_view (demanded_of self.now.arguments self.now.classes.now at attribute (slice_get self.now.signatures.now attribute)
            (body_view node.value) (map typed_view arguments.items)) result }
    {
        let Some(signature) = self.signatures.get(attribute) else {
            return Err(refused(RuleCode::UnknownName, at));
        };
        let arguments = self.fitted(arguments, &signature.params, at)?;
        let kind = ExprKind::written(signature.result);
        self.of_kind(kind, Body::Call(node, attribute, arguments), at)
    }

    /// The arguments for parameters of these kinds, in the call at that place.
    fn fitted(
        &self,
        arguments: Vec<Typed>,
        params: &[WrittenKind],
        at: Place,
    ) -> Result<Vec<Body>, TypeFault>
        ensures { Judges (λ bodies. bodies_view bodies.items)
            (fitted_to self.now.arguments self.now.classes.now at (map typed_view arguments.items) params.now) result }
    {
        if arguments.len() != params.len() {
            return Err(refused(RuleCode::Argument, at));
        }
        if let Some(at) = self.misfit(&arguments, params) {
            return Err(refused(RuleCode::Argument, at));
        }
        let bodies = bodies_of(self.alloc, self.arguments, arguments)?;
        Ok(bodies)
    }

    /// The place of the first argument that is wrong for its parameter.
    fn misfit(&self, arguments: &[Typed], params: &[WrittenKind]) -> Option<Place>
        ensures { result ≡ misfit self.now.arguments self.now.classes.now (map typed_view arguments.now) params.now }
    {
        for (i, argument) in arguments.iter().enumerate() {
            let Some(param) = param_at(params, i) else {
                return None;
            };
            if !self.is_argument(argument, param) {
                return Some(argument.at);
            }
        }
        None
    }

    /// Whether the expression may be the argument for a parameter of that kind: it fits, and where nothing is computed a text
    /// was given.
    fn is_argument(&self, argument: &Typed, param: WrittenKind) -> bool
        ensures { result ≡ is_argument_for self.now.arguments self.now.classes.now (typed_view argument.now) param }
    {
        if !argument.kind.fits(self.classes, param) {
            return false;
        }
        is_allowed(self.arguments, &param, &argument.body)
    }
}

/// Whether a body may be passed that fits the parameter of that kind.
fn is_allowed(arguments: Arguments, param: &WrittenKind, body: &Body) -> bool
    ensures { result ≡ is_allowed arguments param.now (body_view body.now) }
{
    match arguments {
        Arguments::Given => !is_text_word(param) || is_given_text(body),
        Arguments::Computed => true,
    }
}

fn param_at(params: &[WrittenKind], position: usize) -> Option<WrittenKind>
    ensures { result ≡ slice_get params.now position }
{
    params.get(position).copied()
}

fn is_text_word(param: &WrittenKind) -> bool
    ensures { result ≡ is_text_word param.now }
{
    matches!(param, WrittenKind::Known(Kind::Text))
}

/// Whether the text that the body is was given: a literal, a parameter's or a token's. (No other name is
/// of a text.)
fn is_given_text(body: &Body) -> bool
    ensures { result ≡ is_given (body_view body.now) }
{
    matches!(body, Body::Text(_) | Body::Name(_) | Body::TokenOf(_, _))
}

/// The argument's body where it is of the kind that is asked.
fn where_fit(fits: bool, argument: Typed) -> Result<Box<Body>, TypeFault>
    ensures { Judges boxed_view (where_fit fits (typed_view argument)) result }
{
    if fits {
        Ok(argument.body)
    } else {
        Err(refused(RuleCode::Argument, argument.at))
    }
}

/// The bodies of the arguments.
fn bodies_of(
    alloc: Global,
    arguments: Arguments,
    exprs: Vec<Typed>,
) -> Result<Vec<Body>, AllocError>
    ensures { IfOk result (λ bodies. bodies.items ≡ map (passed_body arguments) exprs.items) }
{
    exprs
        .into_iter()
        .map(|expr| passed(arguments, expr))
        .collect(alloc)
}

/// The argument's body: what is computed is looked at when it is passed.
fn passed(arguments: Arguments, argument: Typed) -> Body
    ensures { result ≡ passed_body arguments argument }
{
    let is_looked_at = match arguments {
        Arguments::Given => false,
        Arguments::Computed => is_computed(argument.kind, &argument.body),
    };
    if is_looked_at {
        Body::Passed(argument.body)
    } else {
        Box::into_inner(argument.body)
    }
}

/// Whether a body of that kind is an int that isn't written out, or a text that wasn't given.
fn is_computed(kind: ExprKind, body: &Body) -> bool
    ensures { result ≡ is_computed kind (body_view body.now) }
{
    match kind {
        ExprKind::Int => !is_number(body),
        ExprKind::Text => !is_given_text(body),
        _ => false,
    }
}

/// Whether the body is an int that is written out.
fn is_number(body: &Body) -> bool
    ensures { result ≡ is_number (body_view body.now) }
{
    matches!(body, Body::Int(_))
}
