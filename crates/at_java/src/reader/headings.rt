//! What stands in front of a declaration's body.

ghost use Rattle.std.specs.Prelude.{◌≡◌, ◌<◌, length, IfOk, IfErr, MatchOption, None, false};
ghost use lib.Chars.{codes};
ghost use Rattle.at_text.specs.Rows.{left, is_word, next_is};
ghost use Rattle.at_jrag.specs.View.{kind_word_view};
ghost use Rattle.at_java.specs.Read.{got, Fails, at_place};
ghost use Rattle.at_java.specs.Next.{or_fails};
ghost use Rattle.at_java.specs.Seen.{target_view, head_view};
ghost use Rattle.at_java.specs.Declarations.{target, laziness, is_boolean, truth, start, circular, head};
ghost use Rattle.at_java.specs.declared.JavaCode.TheVariants.{LeftOut};

use super::{Breach, ReadFault, Reader};
use crate::JavaCode;
use at_jrag::{Kind, KindWord, Params, Word};
use at_text::fault::Failure;
use at_text::place::Place;

/// An attribute of a class, as it is declared or as an equation names it.
#[derive(Drop)]
pub struct Target {
    pub class: Word,
    pub name: Word,
    pub params: Params,
}

/// A declared attribute, behind `lazy` and `final`, up to its ending.
#[derive(Drop)]
pub struct Head {
    pub kind: KindWord,
    pub target: Target,
    pub start: Option<bool>,
}

/// Whether an attribute of the kind may be circular.
fn is_boolean(kind: &KindWord) -> bool
    ensures { result ≡ is_boolean (kind_word_view kind.now).kind }
{
    match kind.kind {
        Kind::Bool => true,
        _ => false,
    }
}

impl<'a> Reader<'a> {
    /// `name "." name "(" [params] ")"`
    pub fn target(&mut self) -> Result<Target, ReadFault>
        ensures found { IfOk result (λ t. target (left self.old.cursor.rest.now) ≡ got (target_view t) (left self.new.cursor.rest.now)) }
        ensures fault { IfErr result (λ e. Fails e (left self.new.cursor.rest.now) (target (left self.old.cursor.rest.now))) }
    {
        let class = self.name()?;
        self.expects(".")?;
        let name = self.name()?;
        let params = self.params(name.text.as_str())?;
        Ok(Target {
            class,
            name,
            params,
        })
    }

    /// Steps over `lazy` or `final`, if one is next: the place of the last `lazy` then.
    fn takes_lazy(&mut self, lazy: Option<Place>) -> Option<Option<Place>>
        ensures { MatchOption result
            ((self.new.cursor ≡ self.old.cursor) × (next_is (is_word (codes "lazy")) (left self.old.cursor.rest.now) ≡ false)
            × (next_is (is_word (codes "final")) (left self.old.cursor.rest.now) ≡ false))
            (λ o. (laziness lazy (left self.old.cursor.rest.now) ≡ laziness o (left self.new.cursor.rest.now))
            × (length (left self.new.cursor.rest.now) < length (left self.old.cursor.rest.now))) }
    {
        if let Some(at) = self.cursor.takes_word("lazy") {
            return Some(Some(at));
        }
        match self.cursor.takes_word("final") {
            Some(_) => Some(lazy),
            None => None,
        }
    }

    /// `{ "lazy" | "final" }`: the place of the last `lazy`.
    pub fn laziness(&mut self) -> Option<Place>
        ensures { laziness None (left self.old.cursor.rest.now) ≡ got result (left self.new.cursor.rest.now) }
    {
        let mut lazy = None;
        while let Some(next) = self.takes_lazy(lazy) {
            lazy = next;
        }
        lazy
    }

    /// `"true" | "false"`
    fn truth(&mut self) -> Result<bool, ReadFault>
        ensures found { IfOk result (λ b. truth (left self.old.cursor.rest.now) ≡ got b (left self.new.cursor.rest.now)) }
        ensures fault { IfErr result (λ e. Fails e (left self.new.cursor.rest.now) (truth (left self.old.cursor.rest.now))) }
    {
        if self.cursor.takes_word("true").is_some() {
            return Ok(true);
        }
        if self.cursor.takes_word("false").is_some() {
            return Ok(false);
        }
        Err(ReadFault::For(Breach::Here(JavaCode::Syntax)))
    }

    /// `"[" truth "]"`
    fn start(&mut self) -> Result<bool, ReadFault>
        ensures found { IfOk result (λ b. start (left self.old.cursor.rest.now) ≡ got b (left self.new.cursor.rest.now)) }
        ensures fault { IfErr result (λ e. Fails e (left self.new.cursor.rest.now) (start (left self.old.cursor.rest.now))) }
    {
        self.expects("[")?;
        let start = self.truth()?;
        self.expects("]")?;
        Ok(start)
    }

    /// The same, behind the `circular` at this place: another start is left out there.
    fn start_of(&mut self, at: Place) -> Result<bool, ReadFault>
        ensures found { IfOk result (λ b. or_fails (at_place LeftOut at) (start (left self.old.cursor.rest.now)) ≡ got b (left self.new.cursor.rest.now)) }
        ensures fault { IfErr result (λ e. Fails e (left self.new.cursor.rest.now) (or_fails (at_place LeftOut at) (start (left self.old.cursor.rest.now)))) }
    {
        match self.start() {
            Ok(start) => Ok(start),
            Err(Failure::For(_)) => Err(ReadFault::For(Breach::At(JavaCode::LeftOut, at))),
            Err(Failure::Memory) => Err(ReadFault::Memory),
        }
    }

    /// `["circular" start]` of a boolean: what is circular else is left out there.
    fn circular(&mut self, kind: &KindWord) -> Result<Option<bool>, ReadFault>
        ensures found { IfOk result (λ o. circular (kind_word_view kind.now).kind (left self.old.cursor.rest.now) ≡ got o (left self.new.cursor.rest.now)) }
        ensures fault { IfErr result (λ e. Fails e (left self.new.cursor.rest.now) (circular (kind_word_view kind.now).kind (left self.old.cursor.rest.now))) }
    {
        let Some(at) = self.cursor.takes_word("circular") else {
            return Ok(None);
        };
        if !is_boolean(kind) {
            return Err(ReadFault::For(Breach::At(JavaCode::LeftOut, at)));
        }
        Ok(Some(self.start_of(at)?))
    }

    /// A declared attribute, behind `lazy` and `final`, up to its ending.
    pub fn head(&mut self) -> Result<Head, ReadFault>
        ensures found { IfOk result (λ h. head (left self.old.cursor.rest.now) ≡ got (head_view h) (left self.new.cursor.rest.now)) }
        ensures fault { IfErr result (λ e. Fails e (left self.new.cursor.rest.now) (head (left self.old.cursor.rest.now))) }
    {
        let kind = self.kind()?;
        let target = self.target()?;
        let start = self.circular(&kind)?;
        Ok(Head {
            kind,
            target,
            start,
        })
    }
}
