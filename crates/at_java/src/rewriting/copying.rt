//! Copies of expressions, in which a name may stand for another expression.

ghost use Rattle.std.specs.Prelude.{◌≡◌, IfOk, None, map, string_bytes};
ghost use Rattle.at_jrag.specs.View.{expr_view, form_view, word_view};
ghost use Rattle.at_java.specs.Naming.{named, name_for};
ghost use Rattle.at_java.specs.Refusals.{boxed_view};
ghost use Rattle.at_java.specs.Found.{names_of};

use at_jrag::{Expr, Form, Word};
use at_text::place::Place;
use std::alloc::{AllocError, Global};

/// What a name stands for.
#[derive(Clone, Copy)]
pub struct Found<'a> {
    pub name: &'a str,
    pub expr: &'a Expr,
}

/// Copies, in which what was found stands in the place of its name.
#[derive(Clone, Copy)]
pub struct Copies<'a> {
    pub alloc: Global,
    pub found: Option<Found<'a>>,
}

/// Copies as they stand.
pub fn plain(alloc: Global) -> Copies<'static>
    ensures { result.found ≡ None }
{
    Copies { alloc, found: None }
}

/// The expression, copied as it stands.
pub fn copied(alloc: Global, expr: &Expr) -> Result<Box<Expr>, AllocError>
    ensures { IfOk result (λ e. boxed_view e ≡ expr_view expr.now) }
{
    plain(alloc).boxed(expr)
}

/// The expression, copied as it stands, without a box; or want of memory.
pub fn copy_of(alloc: Global, expr: &Expr) -> Result<Expr, AllocError>
    ensures { IfOk result (λ e. expr_view e ≡ expr_view expr.now) }
{
    plain(alloc).expr(expr)
}

/// The expression, copied, with the other in the place of each such name.
pub fn with_name(alloc: Global, name: &str, by: &Expr, expr: &Expr) -> Result<Box<Expr>, AllocError>
    ensures { IfOk result (λ e. boxed_view e ≡ named (name_for name.now (expr_view by.now)) (expr_view expr.now)) }
{
    let copies = Copies {
        alloc,
        found: Some(Found { name, expr: by }),
    };
    copies.boxed(expr)
}

/// A form at its place.
fn formed(at: Place, form: Form) -> Expr
    ensures { expr_view result ≡ form_view form at }
{
    Expr { at, form }
}

impl Copies<'_> {
    /// The expression, copied.
    #[cycle(copies)]
    pub fn expr(&self, expr: &Expr) -> Result<Expr, AllocError>
        ensures { IfOk result (λ e. expr_view e ≡ named (names_of self.now.found) (expr_view expr.now)) }
    {
        let at = expr.at;
        match &expr.form {
            Form::Number(number) => Ok(formed(at, Form::Number(*number))),
            Form::Text(text) => Ok(formed(at, Form::Text(self.text(text)?))),
            Form::Truth(truth) => Ok(formed(at, Form::Truth(*truth))),
            Form::Null => Ok(formed(at, Form::Null)),
            Form::This => Ok(formed(at, Form::This)),
            Form::Name(name) => self.name(at, name.as_str()),
            Form::Call(name, es) => Ok(formed(at, Form::Call(self.text(name)?, self.list(es)?))),
            Form::CallOf(e, name, es) => Ok(formed(
                at,
                Form::CallOf(self.boxed(e)?, self.text(name)?, self.list(es)?),
            )),
            Form::Paren(e) => Ok(formed(at, Form::Paren(self.boxed(e)?))),
            Form::Negate(e) => Ok(formed(at, Form::Negate(self.boxed(e)?))),
            Form::Not(e) => Ok(formed(at, Form::Not(self.boxed(e)?))),
            Form::Cast(class, e) => Ok(formed(at, Form::Cast(self.word(class)?, self.boxed(e)?))),
            Form::InstanceOf(e, behind, class) => Ok(formed(
                at,
                Form::InstanceOf(self.boxed(e)?, *behind, self.word(class)?),
            )),
            Form::Binary(word, a, b) => Ok(formed(
                at,
                Form::Binary(*word, self.boxed(a)?, self.boxed(b)?),
            )),
            Form::Choose(c, behind, a, b) => Ok(formed(
                at,
                Form::Choose(self.boxed(c)?, *behind, self.boxed(a)?, self.boxed(b)?),
            )),
            Form::Fold(fold, name, list, e) => Ok(formed(
                at,
                Form::Fold(*fold, self.word(name)?, self.boxed(list)?, self.boxed(e)?),
            )),
        }
    }

    /// The expression, copied, in a box.
    #[cycle(copies)]
    pub fn boxed(&self, expr: &Expr) -> Result<Box<Expr>, AllocError>
        ensures { IfOk result (λ e. boxed_view e ≡ named (names_of self.now.found) (expr_view expr.now)) }
    {
        let copy = self.expr(expr)?;
        Ok(Box::new(self.alloc, copy)?)
    }

    /// The expressions, copied.
    #[cycle(copies)]
    fn list(&self, exprs: &[Expr]) -> Result<Vec<Expr>, AllocError>
        ensures { IfOk result (λ es. map expr_view es.items ≡ map (λ e. named (names_of self.now.found) (expr_view e)) exprs.now) }
    {
        let mut copies = Vec::new(self.alloc);
        for expr in exprs {
            copies.push(self.expr(expr)?)?;
        }
        Ok(copies)
    }

    /// What a name stands for.
    #[cycle(copies)]
    fn name(&self, at: Place, name: &str) -> Result<Expr, AllocError>
        ensures { IfOk result (λ e. expr_view e ≡ names_of self.now.found at name.now) }
    {
        if let Some(found) = &self.found {
            if found.name == name {
                return plain(self.alloc).expr(found.expr);
            }
        }
        Ok(Expr {
            at,
            form: Form::Name(String::from_str(self.alloc, name)?),
        })
    }

    /// The text, copied.
    fn text(&self, text: &String) -> Result<String, AllocError>
        ensures { IfOk result (λ t. string_bytes t ≡ string_bytes text.now) }
    {
        String::from_str(self.alloc, text.as_str())
    }

    /// The word, copied.
    pub fn word(&self, word: &Word) -> Result<Word, AllocError>
        ensures { IfOk result (λ w. word_view w ≡ word_view word.now) }
    {
        Ok(Word {
            text: String::from_str(self.alloc, word.text.as_str())?,
            at: word.at,
        })
    }
}
