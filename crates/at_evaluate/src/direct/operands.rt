//! Operands whose values come with no recursion: what is at hand, and a child or a token of a node at hand.

ghost use Rattle.std.specs.Prelude.{IfOk};
ghost use Rattle.at_store.specs.Shown.{contents};
ghost use Rattle.at_rules.specs.Bodies.{body_view};
ghost use Rattle.at_body.specs.Rest.{ev};
ghost use Rattle.at_evaluate.specs.Looking.{MayHaveLooked};
ghost use Rattle.at_evaluate.specs.Parts.{one_of};
ghost use Rattle.at_evaluate.specs.Place.{place_at};

use crate::applying::with_one;
use crate::basis::Basis;
use crate::here::Here;
use crate::near::at_hand;
use crate::stop::Stop;
use at_body::{Reads, Unary, Value};
use at_rules::Body;

// The value of such an operand; what is looked at for it stands behind the reads. None of others: then nothing is looked at. Gives up at a
// child that isn't there. Or memory is wanting.
#[inline(always)]
pub fn value_at_once(
    basis: &Basis<'_>,
    reads: &mut Reads,
    here: &Here,
    body: &Body,
) -> Result<Option<Value>, Stop>
    ensures { IfOk result (MayHaveLooked (contents basis.now.store.now) reads.old reads.new
        (ev basis.now.rules.now.classes (body_view body.now) (place_at here.now))) }
{
    match body {
        Body::Child(of, part) => done_at_once(basis, reads, here, Unary::Child(*part), of),
        Body::TokenOf(of, part) => done_at_once(basis, reads, here, Unary::Token(*part), of),
        _ => Ok(at_hand(here, body)),
    }
}

// To what comes what is done with a value at hand. None where the operand isn't at hand.
#[inline(always)]
fn done_at_once(
    basis: &Basis<'_>,
    reads: &mut Reads,
    here: &Here,
    unary: Unary,
    operand: &Body,
) -> Result<Option<Value>, Stop>
    ensures { IfOk result (MayHaveLooked (contents basis.now.store.now) reads.old reads.new
        (one_of basis.now.rules.now.classes (place_at here.now) unary operand.now)) }
{
    let Some(value) = at_hand(here, operand) else {
        return Ok(None);
    };
    let done = with_one(basis.rules, basis.store, reads, unary, &value)?;
    Ok(Some(done))
}
