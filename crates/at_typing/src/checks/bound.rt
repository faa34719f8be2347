//! The names that an equation binds: parameters, an index, and the names of folds.

ghost use Rattle.std.specs.Prelude.{◌≡◌, ◌∷◌, ◌||◌, true, false, not, map, string_bytes, IfOk};
ghost use Rattle.std.specs.List.{list_any};
ghost use Rattle.std.specs.Str.{bytes_eq};
ghost use Rattle.at_jrag.specs.Syntax.{to_exprs};
ghost use Rattle.at_jrag.specs.View.{decl_form_view, expr_view, param_view, word_view};
ghost use Rattle.at_typing.specs.Bound.{names_view, bound_after, texts_of};
ghost use Rattle.at_typing.specs.Declaring.{binds_twice, index_names, is_repeated, is_bound_again, is_bound_among};

use crate::located::{body_in, index_in, params_in};
use at_jrag::{DeclForm, Expr, Form, Param, Word};
use indexmap::IndexSet;
use std::alloc::{AllocError, Global};

/// Whether a parameter, the index or a fold has a name that is bound already where it stands. The name of a
/// fold is bound within its braces alone.
pub fn binds_twice(alloc: Global, form: &DeclForm) -> Result<bool, AllocError>
    ensures { IfOk result (λ b. b ≡ binds_twice (decl_form_view form.now)) }
{
    let mut bound = Names::of_index(alloc, form)?;
    if !bound.bind_all(&params_in(form).items)? {
        return Ok(true);
    }
    match body_in(form) {
        Some(body) => bound.is_bound_again(&body.expr),
        None => Ok(false),
    }
}

/// The names that are bound somewhere.
struct Names<'a> {
    texts: IndexSet<&'a str>,
}

/// One call, where each exit that lets it go would else have a case for each collection.
impl Drop for Names<'_> {
    fn drop(self) {
        let Names { texts: _ } = self;
    }
}

impl<'a> Names<'a> {
    /// The name of the index, if there is one.
    fn of_index(alloc: Global, form: &'a DeclForm) -> Result<Names<'a>, AllocError>
        ensures { IfOk result (λ n. names_view n ≡ index_names (decl_form_view form.now)) }
    {
        let mut bound = Names {
            texts: IndexSet::new(alloc),
        };
        if let Some(index) = index_in(form) {
            bound.bind(index)?;
        }
        Ok(bound)
    }

    /// Binds the names of the parameters; `false` where one is bound already.
    fn bind_all(&mut self, params: &'a [Param]) -> Result<bool, AllocError>
        ensures new { IfOk result (λ b. b ≡ not (is_repeated (names_view self.old) (texts_of (map param_view params.now)))) }
        ensures bound { IfOk result (λ b. b ≡ true → names_view self.new ≡ bound_after (names_view self.old) (texts_of (map param_view params.now))) }
    {
        for param in params {
            if !self.bind(&param.name)? {
                return Ok(false);
            }
        }
        Ok(true)
    }

    /// Binds a name; `false` where it is bound already.
    fn bind(&mut self, name: &'a Word) -> Result<bool, AllocError>
        ensures new { IfOk result (λ b. b ≡ not (list_any (bytes_eq (word_view name.now).text) (names_view self.old))) }
        ensures bound { IfOk result (λ b. b ≡ true → names_view self.new ≡ (word_view name.now).text ∷ names_view self.old) }
    {
        let (_, is_new) = self.texts.insert_full(name.text.as_str())?;
        Ok(is_new)
    }

    /// Whether a fold in the expression has a name that is bound where it stands.
    #[cycle(again)]
    fn is_bound_again(&mut self, expr: &'a Expr) -> Result<bool, AllocError>
        ensures again { IfOk result (λ b. b ≡ is_bound_again (names_view self.old) (expr_view expr.now)) }
        ensures kept { IfOk result (λ b. b ≡ false → names_view self.new ≡ names_view self.old) }
    {
        match &expr.form {
            Form::Number(_) | Form::Text(_) | Form::Truth(_) | Form::Null => Ok(false),
            Form::This | Form::Name(_) => Ok(false),
            Form::Call(_, arguments) => self.is_bound_among(arguments),
            Form::CallOf(receiver, _, arguments) => {
                if self.is_bound_again(receiver)? {
                    return Ok(true);
                }
                self.is_bound_among(arguments)
            }
            Form::Paren(inner) | Form::Negate(inner) | Form::Not(inner) => {
                self.is_bound_again(inner)
            }
            Form::Cast(_, inner) | Form::InstanceOf(inner, _, _) => self.is_bound_again(inner),
            Form::Binary(_, left, right) => {
                if self.is_bound_again(left)? {
                    return Ok(true);
                }
                self.is_bound_again(right)
            }
            Form::Choose(test, _, then, otherwise) => {
                if self.is_bound_again(test)? || self.is_bound_again(then)? {
                    return Ok(true);
                }
                self.is_bound_again(otherwise)
            }
            Form::Fold(_, name, list, body) => {
                if self.is_bound_again(list)? {
                    return Ok(true);
                }
                self.is_bound_within(name, body)
            }
        }
    }

    #[cycle(again)]
    fn is_bound_among(&mut self, arguments: &'a [Expr]) -> Result<bool, AllocError>
        ensures among { IfOk result (λ b. b ≡ is_bound_among (names_view self.old) (to_exprs (map expr_view arguments.now))) }
        ensures kept { IfOk result (λ b. b ≡ false → names_view self.new ≡ names_view self.old) }
    {
        for argument in arguments {
            if self.is_bound_again(argument)? {
                return Ok(true);
            }
        }
        Ok(false)
    }

    /// Whether the name is bound, or a fold in the braces has a name that is bound there.
    #[cycle(again)]
    fn is_bound_within(&mut self, name: &'a Word, body: &'a Expr) -> Result<bool, AllocError>
        ensures within { IfOk result (λ b. b
            ≡ list_any (bytes_eq (word_view name.now).text) (names_view self.old)
            || is_bound_again ((word_view name.now).text ∷ names_view self.old) (expr_view body.now)) }
        ensures kept { IfOk result (λ b. b ≡ false → names_view self.new ≡ names_view self.old) }
    {
        if !self.bind(name)? {
            return Ok(true);
        }
        let is_again = self.is_bound_again(body)?;
        self.texts.pop();
        Ok(is_again)
    }
}
