//! Names of overloaded attributes, and calls of them.

ghost use Rattle.std.specs.Prelude.{◌≡◌, map, string_bytes, IfOk};
ghost use Rattle.at_jrag.specs.View.{body_view, expr_view, params_view, word_view};
ghost use Rattle.at_start.specs.Overloading.{apart, body_apart, told, word_apart};
ghost use Rattle.at_start.specs.Pairs.{overloaded_in};

use super::pairs::{Pairs, number_text};
use crate::everywhere::word_at;
use crate::null_calls::formed;
use at_jrag::{Body, Expr, Form, Params, Word};
use std::alloc::{AllocError, Global};

/// Tells those apart that are among the pairs.
#[derive(Drop)]
pub struct Apart<'a> {
    pub alloc: Global,
    pub pairs: Pairs<'a>,
}

impl Apart<'_> {
    /// The name of an attribute with so many parameters, or that is called with so many arguments.
    fn told(&self, name: &str, count: usize) -> Result<String, AllocError>
        ensures { IfOk result (λ text. string_bytes text ≡ told (overloaded_in self.now.pairs) name.now count) }
    {
        let Some(number) = number_text(count) else {
            return String::from_str(self.alloc, name);
        };
        if self.pairs.have(name, count) {
            return format!(in self.alloc; "{name}{number}");
        }
        String::from_str(self.alloc, name)
    }

    /// The name of an attribute with these parameters.
    pub fn word(&self, word: &Word, params: &Params) -> Result<Word, AllocError>
        ensures { IfOk result (λ w. word_view w ≡ word_apart (overloaded_in self.now.pairs) (word_view word.now) (params_view params.now)) }
    {
        Ok(Word {
            text: self.told(word.text.as_str(), params.items.len())?,
            at: word.at,
        })
    }

    /// The body, where calls are told apart.
    pub fn body(&self, body: &Body) -> Result<Body, AllocError>
        ensures { IfOk result (λ b. body_view b ≡ body_apart (overloaded_in self.now.pairs) (body_view body.now)) }
    {
        Ok(Body {
            at: body.at,
            form: body.form,
            expr: self.expr(&body.expr)?,
        })
    }

    /// The expression, where calls are told apart.
    #[cycle(apart)]
    fn expr(&self, expr: &Expr) -> Result<Expr, AllocError>
        ensures { IfOk result (λ e. expr_view e ≡ apart (overloaded_in self.now.pairs) (expr_view expr.now)) }
    {
        let at = expr.at;
        match &expr.form {
            Form::Number(number) => Ok(formed(at, Form::Number(*number))),
            Form::Text(text) => Ok(formed(at, Form::Text(self.text(text)?))),
            Form::Truth(truth) => Ok(formed(at, Form::Truth(*truth))),
            Form::Null => Ok(formed(at, Form::Null)),
            Form::This => Ok(formed(at, Form::This)),
            Form::Name(name) => Ok(formed(at, Form::Name(self.text(name)?))),
            Form::Call(name, es) => {
                let text = self.told(name.as_str(), es.len())?;
                Ok(formed(at, Form::Call(text, self.list(es)?)))
            }
            Form::CallOf(e, name, es) => {
                let text = self.told(name.as_str(), es.len())?;
                Ok(formed(at, Form::CallOf(self.boxed(e)?, text, self.list(es)?)))
            }
            Form::Paren(e) => Ok(formed(at, Form::Paren(self.boxed(e)?))),
            Form::Negate(e) => Ok(formed(at, Form::Negate(self.boxed(e)?))),
            Form::Not(e) => Ok(formed(at, Form::Not(self.boxed(e)?))),
            Form::Cast(of, e) => Ok(formed(at, Form::Cast(self.copied(of)?, self.boxed(e)?))),
            Form::InstanceOf(e, behind, of) => {
                let e = self.boxed(e)?;
                Ok(formed(at, Form::InstanceOf(e, *behind, self.copied(of)?)))
            }
            Form::Binary(word, a, b) => {
                let a = self.boxed(a)?;
                Ok(formed(at, Form::Binary(*word, a, self.boxed(b)?)))
            }
            Form::Choose(c, behind, a, b) => {
                let (c, a) = (self.boxed(c)?, self.boxed(a)?);
                Ok(formed(at, Form::Choose(c, *behind, a, self.boxed(b)?)))
            }
            Form::Fold(fold, name, list, e) => {
                let (name, list) = (self.copied(name)?, self.boxed(list)?);
                Ok(formed(at, Form::Fold(*fold, name, list, self.boxed(e)?)))
            }
        }
    }

    #[cycle(apart)]
    fn boxed(&self, expr: &Expr) -> Result<Box<Expr>, AllocError>
        ensures { IfOk result (λ e. expr_view e.value ≡ apart (overloaded_in self.now.pairs) (expr_view expr.now)) }
    {
        let copy = self.expr(expr)?;
        Ok(Box::new(self.alloc, copy)?)
    }

    #[cycle(apart)]
    fn list(&self, exprs: &[Expr]) -> Result<Vec<Expr>, AllocError>
        ensures { IfOk result (λ es. map expr_view es.items ≡ map (λ e. apart (overloaded_in self.now.pairs) (expr_view e)) exprs.now) }
    {
        let mut copies = Vec::new(self.alloc);
        for expr in exprs {
            copies.push(self.expr(expr)?)?;
        }
        Ok(copies)
    }

    fn text(&self, text: &String) -> Result<String, AllocError>
        ensures { IfOk result (λ t. string_bytes t ≡ string_bytes text.now) }
    {
        String::from_str(self.alloc, text.as_str())
    }

    /// The word, copied.
    pub fn copied(&self, word: &Word) -> Result<Word, AllocError>
        ensures { IfOk result (λ w. word_view w ≡ word_view word.now) }
    {
        word_at(self.alloc, word.at, word.text.as_str())
    }
}
