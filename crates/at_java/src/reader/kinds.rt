//! Kinds and parameters.

ghost use Rattle.std.specs.Prelude.{◌≡◌, IfOk, IfErr};
ghost use Rattle.at_text.specs.Rows.{left, next_is};
ghost use Rattle.at_jrag.specs.View.{kind_word_view, param_view, params_view};
ghost use Rattle.at_java.specs.Read.{got, Fails};
ghost use Rattle.at_java.specs.Next.{behind_word};
ghost use Rattle.at_java.specs.Kinds.{kind_word, kind, goes_on, named_kind, variable, some_params, most_params, listed, params};

use super::{Breach, ReadFault, Reader};
use crate::JavaCode;
use at_jrag::{Kind, KindWord, Param, Params};
use at_text::cursor::is_word;

/// How many parameters an attribute may have.
const MOST_PARAMS: usize = 255;

impl<'a> Reader<'a> {
    /// Steps over the word, if it is next.
    fn skips_word(&mut self, text: &str)
        ensures { left self.new.cursor.rest.now ≡ behind_word text.now (left self.old.cursor.rest.now) }
    {
        match self.cursor.rest {
            [token, rest @ ..] if is_word(token, text) => self.cursor.rest = rest,
            _ => (),
        }
    }

    /// `"int" | "boolean" | "String" | name`
    fn kind_word(&mut self) -> Result<KindWord, ReadFault>
        ensures found { IfOk result (λ k. kind_word (left self.old.cursor.rest.now) ≡ got (kind_word_view k) (left self.new.cursor.rest.now)) }
        ensures fault { IfErr result (λ e. Fails e (left self.new.cursor.rest.now) (kind_word (left self.old.cursor.rest.now))) }
    {
        if let Some(at) = self.cursor.takes_word("int") {
            return Ok(KindWord {
                kind: Kind::Int,
                at,
            });
        }
        if let Some(at) = self.cursor.takes_word("boolean") {
            return Ok(KindWord {
                kind: Kind::Bool,
                at,
            });
        }
        if let Some(at) = self.cursor.takes_word("String") {
            return Ok(KindWord {
                kind: Kind::Text,
                at,
            });
        }
        let class = self.name()?;
        Ok(KindWord {
            kind: Kind::Class(class.text),
            at: class.at,
        })
    }

    /// Whether the kind goes on that was read last: with arguments, as an array, or from its package.
    pub fn goes_on(&self) -> bool
        ensures { result ≡ next_is goes_on (left self.now.cursor.rest.now) }
    {
        self.cursor.is_before_sign("<")
            || self.cursor.is_before_sign("[")
            || self.cursor.is_before_sign(".")
    }

    /// A kind.
    pub fn kind(&mut self) -> Result<KindWord, ReadFault>
        ensures found { IfOk result (λ k. kind (left self.old.cursor.rest.now) ≡ got (kind_word_view k) (left self.new.cursor.rest.now)) }
        ensures fault { IfErr result (λ e. Fails e (left self.new.cursor.rest.now) (kind (left self.old.cursor.rest.now))) }
    {
        let kind = self.kind_word()?;
        if self.goes_on() {
            return Err(ReadFault::For(Breach::At(JavaCode::LeftOut, kind.at)));
        }
        Ok(kind)
    }

    /// `kind name`
    fn named_kind(&mut self) -> Result<Param, ReadFault>
        ensures found { IfOk result (λ p. named_kind (left self.old.cursor.rest.now) ≡ got (param_view p) (left self.new.cursor.rest.now)) }
        ensures fault { IfErr result (λ e. Fails e (left self.new.cursor.rest.now) (named_kind (left self.old.cursor.rest.now))) }
    {
        let kind = self.kind()?;
        let name = self.name()?;
        Ok(Param { kind, name })
    }

    /// `["final"] kind name`
    pub fn variable(&mut self) -> Result<Param, ReadFault>
        ensures found { IfOk result (λ p. variable (left self.old.cursor.rest.now) ≡ got (param_view p) (left self.new.cursor.rest.now)) }
        ensures fault { IfErr result (λ e. Fails e (left self.new.cursor.rest.now) (variable (left self.old.cursor.rest.now))) }
    {
        self.skips_word("final");
        self.named_kind()
    }

    /// `variable { "," variable } ")"`, at most 255.
    fn some_params(&mut self) -> Result<Params, ReadFault>
        ensures found { IfOk result (λ p. some_params most_params (left self.old.cursor.rest.now) ≡ got (params_view p) (left self.new.cursor.rest.now)) }
        ensures fault { IfErr result (λ e. Fails e (left self.new.cursor.rest.now) (some_params most_params (left self.old.cursor.rest.now))) }
    {
        let mut items = Vec::new(self.alloc);
        let mut room = MOST_PARAMS;
        loop {
            if room == 0 {
                return Err(ReadFault::For(Breach::Here(JavaCode::Limit)));
            }
            let param = self.variable()?;
            items.push(param)?;
            if let Some(end) = self.cursor.takes_sign(")") {
                return Ok(Params { items, end });
            }
            self.expects(",")?;
            room -= 1;
        }
    }

    /// `[variable { "," variable }] ")"`
    fn listed(&mut self) -> Result<Params, ReadFault>
        ensures found { IfOk result (λ p. listed (left self.old.cursor.rest.now) ≡ got (params_view p) (left self.new.cursor.rest.now)) }
        ensures fault { IfErr result (λ e. Fails e (left self.new.cursor.rest.now) (listed (left self.old.cursor.rest.now))) }
    {
        if let Some(end) = self.cursor.takes_sign(")") {
            return Ok(Params {
                items: Vec::new(self.alloc),
                end,
            });
        }
        self.some_params()
    }

    /// `"(" [variable { "," variable }] ")"` behind this name, where `int` behind the one of `getChild` is left out.
    pub fn params(&mut self, name: &str) -> Result<Params, ReadFault>
        ensures found { IfOk result (λ p. params name.now (left self.old.cursor.rest.now) ≡ got (params_view p) (left self.new.cursor.rest.now)) }
        ensures fault { IfErr result (λ e. Fails e (left self.new.cursor.rest.now) (params name.now (left self.old.cursor.rest.now))) }
    {
        self.expects("(")?;
        if name == "getChild" && self.cursor.is_before_word("int") {
            return Err(ReadFault::For(Breach::Here(JavaCode::LeftOut)));
        }
        self.listed()
    }
}
