//! What is told of a try for a formula: the formula as an expression, in which instances stand for calls. Where memory is wanting, a
//! part of it may have been appended.

ghost use Rattle.tries.specs.Worlds.{IsSound};

use crate::files::World;
use crate::texts::{write_fault, write_instance, write_need};
use at_body::{Formula, Piece, Progress};
use std::alloc::AllocError;

/// A part of a formula as an expression, and whether `||` stands between its sides.
#[derive(Drop)]
struct Expression {
    text: Vec<u8>,
    is_either: bool,
}

/// Appends what a try for a formula found.
pub fn write_progress(
    world: &World,
    progress: &Progress,
    out: &mut Vec<u8>,
) -> Result<(), AllocError>
    requires { IsSound world.now }
{
    match progress {
        Progress::Formula(formula) => {
            out.extend_from_slice(b"formula ")?;
            write_formula(world, formula, out)
        }
        Progress::Fault(kind) => write_fault(*kind, out),
        Progress::Need(inst) => write_need(world, inst, out),
    }
}

/// Appends a formula. Where it is deep on its right side, the texts there are copied once for each operator.
fn write_formula(world: &World, formula: &Formula, out: &mut Vec<u8>) -> Result<(), AllocError>
    requires { IsSound world.now }
{
    let mut waiting = Vec::new(world.alloc);
    for piece in formula.pieces() {
        let expression = expression_of(world, piece, &mut waiting)?;
        waiting.push(expression)?;
    }
    let whole = operand(world, &mut waiting)?;
    out.extend_from_slice(whole.text.as_slice())
}

/// A piece, with its operands, which are taken from those that wait.
fn expression_of(
    world: &World,
    piece: &Piece,
    waiting: &mut Vec<Expression>,
) -> Result<Expression, AllocError>
    requires { IsSound world.now }
{
    match piece {
        Piece::Known(value) => truth(world, *value),
        Piece::Asks(inst) => {
            let mut text = Vec::new(world.alloc);
            write_instance(world, inst, &mut text)?;
            Ok(Expression {
                text,
                is_either: false,
            })
        }
        Piece::Both => both(world, waiting),
        Piece::Either => either(world, waiting),
    }
}

fn truth(world: &World, value: bool) -> Result<Expression, AllocError> {
    let mut text = Vec::new(world.alloc);
    let word = if value { "true" } else { "false" };
    text.extend_from_slice(word.as_bytes())?;
    Ok(Expression {
        text,
        is_either: false,
    })
}

/// The last one that waits; `false` where there is none, as a formula has it.
fn operand(world: &World, waiting: &mut Vec<Expression>) -> Result<Expression, AllocError> {
    match waiting.pop() {
        Some(expression) => Ok(expression),
        None => truth(world, false),
    }
}

/// Both of the last two, in parentheses where `||` stands in one.
fn both(world: &World, waiting: &mut Vec<Expression>) -> Result<Expression, AllocError> {
    let right = operand(world, waiting)?;
    let left = operand(world, waiting)?;
    let mut text = Vec::new(world.alloc);
    write_side(&left, &mut text)?;
    text.extend_from_slice(b" && ")?;
    write_side(&right, &mut text)?;
    Ok(Expression {
        text,
        is_either: false,
    })
}

/// Appends a side of `&&`.
fn write_side(side: &Expression, out: &mut Vec<u8>) -> Result<(), AllocError> {
    if !side.is_either {
        return out.extend_from_slice(side.text.as_slice());
    }
    out.push(b'(')?;
    out.extend_from_slice(side.text.as_slice())?;
    Ok(out.push(b')')?)
}

/// Either of the last two.
fn either(world: &World, waiting: &mut Vec<Expression>) -> Result<Expression, AllocError> {
    let right = operand(world, waiting)?;
    let left = operand(world, waiting)?;
    let mut text = left.text;
    text.extend_from_slice(b" || ")?;
    text.extend_from_slice(right.text.as_slice())?;
    Ok(Expression {
        text,
        is_either: true,
    })
}
