//! The kinds of expressions: the body that an expression means, or its first fault. Parts come before the
//! whole, from left to right.

ghost use Rattle.std.specs.Prelude.{◌≡◌, map};
ghost use Rattle.at_jrag.specs.Syntax.{to_exprs};
ghost use Rattle.at_jrag.specs.View.{expr_view, fold_view, word_view};
ghost use Rattle.at_rules.specs.Bodies.{body_view};
ghost use Rattle.at_kinds.specs.Judging.{Judgement, Listed, and_then, of_kind, kind_if, judged, judged_all, judged_list, list_or, folded as folded_by, within as within_of, body_of as body_meant};
ghost use Rattle.at_kinds.specs.Typed.{typed_view, all_view, list_view, scope_view, Judges};
ghost use Rattle.at_text.specs.declared.fault.Fault.TheVariants.{Refused};

mod calls;
mod classes;
mod folds;
mod kinds;
mod names;
mod operators;
mod wholes;

use crate::arguments::Arguments;
use crate::code::RuleCode;
use crate::signatures::{Signatures, WrittenKind};
use at_class::{ClassId, ClassTable};
use at_jrag::{Expr, FoldForm, Form, Word};
use at_rules::Body;
use at_text::fault::Fault;
use at_text::place::Place;
use folds::List;
use kinds::{ExprKind, Typed};
use names::within;
use std::alloc::Global;
use std::rc::Rc;
use wholes::no_list;

/// Why an expression means no body: the code of its first fault and the place, of an argument or of the form
/// at which it is found; or want of memory.
pub type TypeFault = Fault<RuleCode>;

fn refused(code: RuleCode, at: Place) -> TypeFault
    ensures { result ≡ Refused code at }
{
    Fault::Refused { code, at }
}

/// A parameter's or a fold's name, with the kind of what it stands for. The scopes within share the name.
#[derive(Drop)]
pub struct Bound {
    pub name: Rc<String>,
    pub kind: WrittenKind,
}

/// Where a body stands: `this` is a node of the class; the names are those of the parameters in their
/// order. An inherited equation for a list may have a name for the index. The attributes that are called take such arguments.
#[derive(Clone, Copy)]
pub struct Scope<'a> {
    pub alloc: Global,
    pub classes: &'a ClassTable,
    pub signatures: &'a Signatures,
    pub arguments: Arguments,
    pub this: ClassId,
    pub names: &'a [Bound],
    pub index: Option<&'a str>,
}

/// The body of the wanted kind that the expression means.
///
/// # Errors
///
/// `Refused` for its first fault: a name that isn't there, a wrong argument, a wrong kind, or a whole
/// that doesn't fit the wanted kind. `Memory` for want of memory.
pub fn body_of(scope: &Scope, expr: &Expr, wanted: WrittenKind) -> Result<Body, TypeFault>
    ensures { Judges body_view (body_meant (scope_view scope.now) (expr_view expr.now) wanted) result }
{
    let typed = scope.typed(expr)?;
    if typed.kind.fits(scope.classes, wanted) {
        Ok(Box::into_inner(typed.body))
    } else {
        Err(refused(RuleCode::Kind, expr.at))
    }
}

impl Scope<'_> {
    /// The expression of that kind, at that place, which means the body.
    fn of_kind(&self, kind: ExprKind, body: Body, at: Place) -> Result<Typed, TypeFault>
        ensures { Judges typed_view (of_kind at kind (body_view body)) result }
    {
        let body = Box::new(self.alloc, body)?;
        Ok(Typed { at, kind, body })
    }

    /// The same where its parts are of the right kinds; else the kind is wrong.
    fn kind_if(
        &self,
        right: bool,
        kind: ExprKind,
        body: Body,
        at: Place,
    ) -> Result<Typed, TypeFault>
        ensures { Judges typed_view (kind_if right at kind (body_view body)) result }
    {
        // Boxed first: to let a body go by value is a case for each of its forms.
        let typed = self.of_kind(kind, body, at)?;
        if right {
            Ok(typed)
        } else {
            Err(refused(RuleCode::Kind, at))
        }
    }

    /// The expression with its kind.
    #[cycle(typed)]
    fn typed(&self, expr: &Expr) -> Result<Typed, TypeFault>
        ensures { Judges typed_view (judged (scope_view self.now) (expr_view expr.now)) result }
    {
        let at = expr.at;
        match &expr.form {
            Form::Number(value) => self.number(value, at),
            Form::Text(text) => self.text(text.as_str(), at),
            Form::Truth(value) => self.of_kind(ExprKind::Bool, Body::Truth(*value), at),
            Form::Null => self.of_kind(ExprKind::Null, Body::Null, at),
            Form::This => self.this(at),
            Form::Name(name) => self.named(name.as_str(), at),
            Form::Call(name, arguments) => {
                let receiver = self.this(at);
                self.call(receiver, name.as_str(), self.typed_all(arguments), at)
            }
            Form::CallOf(receiver, name, arguments) => {
                let receiver = self.typed(receiver);
                self.call(receiver, name.as_str(), self.typed_all(arguments), at)
            }
            Form::Paren(inner) => self.paren(self.typed(inner), at),
            Form::Negate(inner) => self.negation(self.typed(inner), at),
            Form::Not(inner) => self.complement(self.typed(inner), at),
            Form::Cast(class, inner) => self.cast_of(class, self.typed(inner), at),
            Form::InstanceOf(inner, _, class) => self.test_of(self.typed(inner), class, at),
            Form::Binary(word, left, right) => {
                let left = self.typed(left);
                self.binary(word.operator, left, self.typed(right), at)
            }
            Form::Choose(test, _, left, right) => {
                let test = self.typed(test);
                let left = self.typed(left);
                self.choice(test, left, self.typed(right), at)
            }
            Form::Fold(form, name, list, body) => {
                self.fold(body, self.list(list, at), *form, name, at)
            }
        }
    }

    /// The expressions with their kinds, from left to right.
    #[cycle(typed)]
    fn typed_all(&self, exprs: &[Expr]) -> Result<Vec<Typed>, TypeFault>
        ensures { Judges all_view (judged_all (scope_view self.now) (to_exprs (map expr_view exprs.now))) result }
    {
        let mut all = Vec::new(self.alloc);
        for expr in exprs {
            let typed = self.typed(expr)?;
            all.push(typed)?;
        }
        Ok(all)
    }

    /// A fold over what its list is: what is in its braces, where its name is bound.
    #[cycle(typed)]
    fn fold(
        &self,
        body: &Expr,
        list: Result<List, TypeFault>,
        form: FoldForm,
        name: &Word,
        at: Place,
    ) -> Result<Typed, TypeFault>
        ensures { (l : Judgement Listed) → Judges list_view l list
            → Judges typed_view (and_then (λ l. and_then (folded_by at (fold_view form) l)
            (judged (within_of (scope_view self.now) (word_view name.now).text l.class) (expr_view body.now))) l) result }
    {
        let list = list?;
        let names = within(self.alloc, name.text.as_str(), list.class, self.names)?;
        let scope = Scope {
            alloc: self.alloc,
            classes: self.classes,
            signatures: self.signatures,
            arguments: self.arguments,
            this: self.this,
            names: names.as_slice(),
            index: self.index,
        };
        let body = scope.typed(body)?;
        self.folded(form, list, body, at)
    }

    /// The list of the fold that stands at that place.
    #[cycle(typed)]
    fn list(&self, list: &Expr, fold: Place) -> Result<List, TypeFault>
        ensures { Judges list_view (list_or fold (judged (scope_view self.now) (expr_view list.now))
            (judged_list (scope_view self.now) fold (expr_view list.now))) result }
    {
        match &list.form {
            Form::Call(name, arguments) => {
                let receiver = self.this(list.at);
                let arguments = self.typed_all(arguments);
                self.list_call(receiver, name.as_str(), arguments, list.at, fold)
            }
            Form::CallOf(receiver, name, arguments) => {
                let receiver = self.typed(receiver);
                let arguments = self.typed_all(arguments);
                self.list_call(receiver, name.as_str(), arguments, list.at, fold)
            }
            _ => no_list(self.typed(list), fold),
        }
    }
}
