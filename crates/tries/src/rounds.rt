//! Rounds of the evaluation of one equation, in which `bench/bench.py` measures a trial against a plain recursion.

ghost use Rattle.tries.specs.Worlds.{IsSound, IsTyped};

use crate::files::World;
use crate::instances::instance;
use crate::plain::plain;
use crate::refusal::Refusal;
use crate::texts::write_value;
use at_body::{Inst, Step, Trial, Value};

/// How an equation is evaluated.
#[derive(Clone, Copy)]
pub enum Way {
    /// By a trial, which could be put aside.
    Trial,
    /// By a plain recursion.
    Plain,
}

/// Appends the value of the last of so many evaluations of an instance; the text has their number, a place and a call.
///
/// # Errors
///
/// The text isn't of that form, or names what isn't there; or an evaluation comes to no value. Or want of memory.
pub fn tell_last(world: &World, way: Way, text: &str, out: &mut Vec<u8>) -> Result<(), Refusal>
    requires { IsSound world.now }
{
    let Some((count, call)) = text.split_once(" ") else {
        return Err(Refusal::Line);
    };
    let Ok(rounds) = count.parse::<u32>() else {
        return Err(Refusal::Line);
    };
    let inst = instance(world, call)?;
    let value = last(world, way, rounds, &inst)?;
    out.extend_from_slice(b"value ")?;
    Ok(write_value(world, &value, out)?)
}

/// The value of the last of so many evaluations; null where there is none.
fn last(world: &World, way: Way, rounds: u32, inst: &Inst) -> Result<Value, Refusal>
    requires sound { IsSound world.now }
    requires typed { IsTyped world.now inst.now }
{
    let mut value = Value::default();
    for _ in 0..rounds {
        value = once(world, way, inst)?;
    }
    Ok(value)
}

/// The value of one evaluation, where it comes to one by itself.
fn once(world: &World, way: Way, inst: &Inst) -> Result<Value, Refusal>
    requires sound { IsSound world.now }
    requires typed { IsTyped world.now inst.now }
{
    if let Way::Plain = way {
        return plain(world, inst);
    }
    let (_, step) = Trial::start(world.alloc, &world.rules, &world.store, inst)?;
    match step {
        Step::Value(value) => Ok(value),
        _ => Err(Refusal::NoValue),
    }
}
