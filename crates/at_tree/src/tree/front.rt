//! What stands at the front of a text: a class's name, a sign, the value of a token.
ghost use Rattle.std.specs.Prelude.{◌≡◌, ◌<◌, ◌++◌, ◌∷◌, true, false, length, string_bytes, IfOk, OnOk};
ghost use Rattle.std.specs.Fmt.{signed_decimal};
ghost use Rattle.std.specs.Str.{IsUtf8};
ghost use Rattle.at_model.specs.Classes.{AreSound, fits, name_of};
ghost use Rattle.at_model.specs.Names.{IsName};
ghost use Rattle.at_model.specs.Terms.{IsToken, IsInt32, token_text};
ghost use Rattle.at_model.specs.Texts.{quoted};
ghost use Rattle.at_model.specs.Trees.{Truth, is_of_kind};
ghost use Rattle.at_class.specs.View.{token_kind_view};
ghost use Rattle.at_class.specs.Token.{token_view};

use crate::fault::{Misfit, Untaken};
use crate::runs::{Run, cut};
use at_class::token::TokVal;
use at_class::{ClassId, ClassTable, TokenKind};
use at_text::decimal::read_int;
use at_text::quoted::{QuoteFault, read_quoted};
use std::alloc::Global;

/// What is left of a text.
#[derive(Drop)]
pub(crate) struct Front<'a> {
    pub rest: &'a str,
}

/// Whether the sign stands at the front, and takes it.
pub(crate) fn takes(front: &mut Front<'_>, sign: char) -> bool
    requires { sign < 128 }
    ensures taken { result ≡ true → front.old.rest.now ≡ sign ∷ front.new.rest.now }
    ensures stays { result ≡ false → front.new.rest.now ≡ front.old.rest.now }
{
    match front.rest.strip_prefix(sign) {
        Some(rest) => {
            front.rest = rest;
            true
        }
        None => false,
    }
}

/// Takes the sign.
pub(crate) fn take(front: &mut Front<'_>, sign: char) -> Result<(), Untaken>
    requires { sign < 128 }
    ensures { OnOk result (front.old.rest.now ≡ sign ∷ front.new.rest.now) }
{
    if takes(front, sign) {
        Ok(())
    } else {
        Err(Untaken::For(Misfit::Form))
    }
}

/// Takes the name of a class that fits, and the parenthesis behind it.
pub(super) fn take_class(
    classes: &ClassTable,
    front: &mut Front<'_>,
    under: ClassId,
) -> Result<ClassId, Untaken>
    ensures sound { OnOk result (AreSound classes.now) }
    ensures fits { IfOk result (λ c. fits classes.now c under ≡ true) }
    ensures within { IfOk result (λ c. c < length classes.now) }
    ensures named { IfOk result (λ c. IsName (name_of classes.now c)) }
    ensures taken { IfOk result (λ c. front.old.rest.now ≡ name_of classes.now c ++ 40 ∷ front.new.rest.now) }
{
    let Some((name, behind)) = front.rest.split_once('(') else {
        return Err(Untaken::For(Misfit::Form));
    };
    let Some(class) = classes.id_of(name) else {
        return Err(Untaken::For(Misfit::Form));
    };
    if !classes.fits(class, under) {
        return Err(Untaken::For(Misfit::Form));
    }
    front.rest = behind;
    Ok(class)
}

/// Takes the value of a token of the kind.
pub(crate) fn take_value(
    alloc: Global,
    front: &mut Front<'_>,
    kind: TokenKind,
) -> Result<TokVal, Untaken>
    ensures kind { IfOk result (λ v. is_of_kind (token_view v) (token_kind_view kind) ≡ true) }
    ensures token { IfOk result (λ v. IsToken (token_view v)) }
    ensures taken { IfOk result (λ v. front.old.rest.now ≡ token_text (token_view v) ++ front.new.rest.now) }
{
    match kind {
        TokenKind::Str => Ok(TokVal::of_text(alloc, take_text(alloc, front)?)),
        TokenKind::Int => Ok(TokVal::Int(take_int(front)?)),
        TokenKind::Bool => Ok(TokVal::Bool(take_truth(front)?)),
    }
}

fn take_text(alloc: Global, front: &mut Front<'_>) -> Result<String, Untaken>
    ensures text { IfOk result (λ s. IsUtf8 (string_bytes s)) }
    ensures taken { IfOk result (λ s. front.old.rest.now ≡ quoted (string_bytes s) ++ front.new.rest.now) }
{
    let (text, rest) = text_first(alloc, front.rest)?;
    front.rest = rest;
    Ok(text)
}

/// The text whose spelling between quotes stands at the front, and the rest.
fn text_first(alloc: Global, text: &str) -> Result<(String, &str), Untaken>
    ensures text { IfOk result (λ r. IsUtf8 (string_bytes r.0)) }
    ensures first { IfOk result (λ r. text.now ≡ quoted (string_bytes r.0) ++ r.1.now) }
{
    match read_quoted(alloc, text) {
        Ok((value, length)) => Ok((value, text.split_at(length).1)),
        Err(QuoteFault::Form) => Err(Untaken::For(Misfit::Form)),
        Err(QuoteFault::Memory) => Err(Untaken::Memory),
    }
}

fn take_int(front: &mut Front<'_>) -> Result<i32, Untaken>
    ensures token { IfOk result (λ n. IsInt32 n) }
    ensures taken { IfOk result (λ n. front.old.rest.now ≡ signed_decimal n ++ front.new.rest.now) }
{
    let (word, rest) = cut(front.rest, Run::Number);
    let Some(value) = read_int(word) else {
        return Err(Untaken::For(Misfit::Form));
    };
    front.rest = rest;
    Ok(value)
}

fn take_truth(front: &mut Front<'_>) -> Result<bool, Untaken>
    ensures { IfOk result (λ b. front.old.rest.now ≡ token_text (Truth b) ++ front.new.rest.now) }
{
    if let Some(rest) = front.rest.strip_prefix("true") {
        front.rest = rest;
        return Ok(true);
    }
    match front.rest.strip_prefix("false") {
        Some(rest) => {
            front.rest = rest;
            Ok(false)
        }
        None => Err(Untaken::For(Misfit::Form)),
    }
}
