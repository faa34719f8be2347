//! Calls of attributes on null, which have the fault `null`.

ghost use Rattle.std.specs.Prelude.{◌≡◌, ℕ, map, IfOk};
ghost use Rattle.at_text.specs.declared.place.Place.{Place};
ghost use Rattle.at_jrag.specs.Syntax.{Cast, Null};
ghost use Rattle.at_jrag.specs.View.{body_view, expr_view, form_view, kind_view, param_view, word_view};
ghost use Rattle.at_start.specs.NullCalls.{asked_of_null, literal_for, literal_of, null_body};

use at_jrag::{Body, BodyForm, Expr, Form, Kind, Param, Word};
use at_text::place::Place;
use std::alloc::{AllocError, Global};

/// `= ((CLASS) null).NAME(..);`, with a value for each parameter.
pub fn null_body(
    alloc: Global,
    class: Word,
    name: &Word,
    params: &[Param],
) -> Result<Body, AllocError>
    ensures { IfOk result (λ b. body_view b ≡ null_body (word_view class) (word_view name.now) (map param_view params.now)) }
{
    Ok(Body {
        at: name.at,
        form: BodyForm::Equation,
        expr: asked_of_null(alloc, class, name, params)?,
    })
}

fn asked_of_null(
    alloc: Global,
    class: Word,
    name: &Word,
    params: &[Param],
) -> Result<Expr, AllocError>
    ensures { IfOk result (λ e. expr_view e ≡ asked_of_null (word_view class) (word_view name.now) (map param_view params.now)) }
{
    let receiver = null_of(alloc, class, name.at)?;
    let text = String::from_str(alloc, name.text.as_str())?;
    let arguments = literals(alloc, params)?;
    Ok(formed(name.at, Form::CallOf(receiver, text, arguments)))
}

/// `(CLASS) null`
fn null_of(alloc: Global, class: Word, at: Place) -> Result<Box<Expr>, AllocError>
    ensures { IfOk result (λ e. expr_view e.value ≡ Cast at (word_view class) (Null at)) }
{
    let null = Box::new(alloc, formed(at, Form::Null))?;
    Ok(Box::new(alloc, formed(at, Form::Cast(class, null)))?)
}

/// A value for each parameter.
fn literals(alloc: Global, params: &[Param]) -> Result<Vec<Expr>, AllocError>
    ensures { IfOk result (λ es. map expr_view es.items ≡ map literal_for (map param_view params.now)) }
{
    let mut all = Vec::new(alloc);
    for param in params {
        all.push(literal_for(alloc, param))?;
    }
    Ok(all)
}

fn literal_for(alloc: Global, param: &Param) -> Expr
    ensures { expr_view result ≡ literal_for (param_view param.now) }
{
    formed(param.name.at, literal_of(alloc, &param.kind.kind))
}

/// A value of the kind, written out.
fn literal_of(alloc: Global, kind: &Kind) -> Form
    ensures { (at : Place) → form_view result at ≡ literal_of (kind_view kind.now) at }
{
    match kind {
        Kind::Int => Form::Number(0),
        Kind::Bool => Form::Truth(false),
        Kind::Text => Form::Text(String::new(alloc)),
        Kind::Class(_) => Form::Null,
    }
}

/// A form at its place.
pub fn formed(at: Place, form: Form) -> Expr
    ensures { expr_view result ≡ form_view form at }
{
    Expr { at, form }
}
