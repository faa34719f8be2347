//! Whether a declared attribute is circular, and its start.

ghost use Rattle.std.specs.Prelude.{◌≡◌, [], ◌∷◌, true, false, cond, IfOk, IfErr, OnOk};
ghost use lib.Chars.{codes};
ghost use Rattle.at_text.specs.Rows.{left, is_word, next_is};
ghost use Rattle.at_text.specs.declared.fault.Failure.TheVariants as failure;
ghost use Rattle.at_jrag.specs.View.{kind_word_view};
ghost use Rattle.at_jrag.specs.Grammar.{Keyword, Circular, StartOf, truth_text, may_be_circular, begins_other};
ghost use Rattle.at_jrag.specs.Wants as want;
ghost use Rattle.at_jrag.specs.Runs.{Stay, reason_of};
ghost use Rattle.at_jrag.specs.declared.JragCode.TheVariants as code;

use super::operators::begins_other;
use super::{ReadFault, Reader};
use crate::syntax::{Kind, KindWord};
use crate::{Forms, JragCode};

/// Whether an attribute of the kind may be circular.
pub fn may_be_circular(forms: Forms, kind: &KindWord) -> bool
    ensures { result ≡ may_be_circular forms (kind_word_view kind.now).kind }
{
    match kind.kind {
        Kind::Bool => forms.circular,
        _ => false,
    }
}

impl<'a> Reader<'a> {
    /// `["circular" "[" ("true" | "false") "]"]`, where `circular` is left out if it may not stand here, or again behind that.
    pub fn circular(&mut self, may_stand: bool) -> Result<Option<bool>, ReadFault>
        ensures found { IfOk result (λ o. Circular may_stand o (left self.old.cursor.rest.now) (left self.new.cursor.rest.now)) }
        ensures behind { IfOk result (λ o. next_is (is_word (codes "circular")) (left self.new.cursor.rest.now) ≡ false) }
        ensures stays { IfErr result
            (λ e. Stay (want.Circular may_stand ∷ []) (reason_of e) (left self.old.cursor.rest.now) (left self.new.cursor.rest.now)) }
    {
        if !may_stand {
            self.not_circular()?;
            return Ok(None);
        }
        if self.cursor.takes_word("circular").is_none() {
            return Ok(None);
        }
        let start = self.start()?;
        self.not_circular()?;
        Ok(Some(start))
    }

    /// Nothing; `circular` is left out here.
    fn not_circular(&self) -> Result<(), ReadFault>
        ensures none { OnOk result (next_is (is_word (codes "circular")) (left self.now.cursor.rest.now) ≡ false) }
        ensures refused { IfErr result
            (λ e. (e ≡ failure.For code.LeftOut) × (next_is (is_word (codes "circular")) (left self.now.cursor.rest.now) ≡ true)) }
    {
        if self.cursor.is_before_word("circular") {
            return Err(ReadFault::For(JragCode::LeftOut));
        }
        Ok(())
    }

    /// `"[" ("true" | "false") "]"`
    fn start(&mut self) -> Result<bool, ReadFault>
        ensures found { IfOk result (λ b. StartOf b (left self.old.cursor.rest.now) (left self.new.cursor.rest.now)) }
        ensures stays { IfErr result
            (λ e. Stay (want.Bracket ∷ want.Mark (codes "]") ∷ []) (reason_of e) (left self.old.cursor.rest.now) (left self.new.cursor.rest.now)) }
    {
        self.expects("[")?;
        let start = self.truth()?;
        self.expects("]")?;
        Ok(start)
    }

    /// `"true" | "false"`, where another expression is left out.
    fn truth(&mut self) -> Result<bool, ReadFault>
        ensures found { IfOk result (λ b. Keyword (truth_text b) (left self.old.cursor.rest.now) (left self.new.cursor.rest.now)) }
        ensures stays { IfErr result (λ e. Stay (want.Start ∷ []) (reason_of e) (left self.old.cursor.rest.now) (left self.new.cursor.rest.now)) }
    {
        if self.cursor.takes_word("true").is_some() {
            return Ok(true);
        }
        if self.cursor.takes_word("false").is_some() {
            return Ok(false);
        }
        Err(self.no_truth())
    }

    /// The fault where `true` or `false` was wanted: another expression is left out.
    fn no_truth(&self) -> ReadFault
        ensures { result ≡ cond (next_is begins_other (left self.now.cursor.rest.now)) (failure.For code.LeftOut) (failure.For code.Syntax) }
    {
        match self.cursor.rest {
            [token, ..] if begins_other(token) => ReadFault::For(JragCode::LeftOut),
            _ => ReadFault::For(JragCode::Syntax),
        }
    }
}
