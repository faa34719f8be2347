//! What is told of a try. Where memory is wanting, a part of it may have been appended.

ghost use Rattle.tries.specs.Worlds.{IsSound};

use crate::files::World;
use at_body::{FaultKind, Inst, Tried, Value};
use at_class::Part;
use at_store::{Loc, Node};
use at_text::decimal::write_int;
use at_text::quoted::write_quoted;
use at_tree::path::write_path;
use std::alloc::AllocError;
use std::collections::BTreeSet;

/// Appends what a try found.
pub fn write_found(world: &World, found: &Tried, out: &mut Vec<u8>) -> Result<(), AllocError>
    requires { IsSound world.now }
{
    match found {
        Tried::Value(value) => {
            out.extend_from_slice(b"value ")?;
            write_value(world, value, out)
        }
        Tried::Fault(kind) => write_fault(*kind, out),
        Tried::Need(inst) => write_need(world, inst, out),
    }
}

/// Appends that there is a fault.
pub fn write_fault(kind: FaultKind, out: &mut Vec<u8>) -> Result<(), AllocError> {
    out.extend_from_slice(b"fault ")?;
    out.extend_from_slice(kind.text().as_bytes())
}

/// Appends that the value of an instance is wanted.
pub fn write_need(world: &World, inst: &Inst, out: &mut Vec<u8>) -> Result<(), AllocError>
    requires { IsSound world.now }
{
    out.extend_from_slice(b"need ")?;
    write_instance(world, inst, out)
}

/// Appends a value.
pub fn write_value(world: &World, value: &Value, out: &mut Vec<u8>) -> Result<(), AllocError>
    requires { IsSound world.now }
{
    match value {
        Value::Int(number) => write_int(i64::from(*number), out),
        Value::Bool(true) => out.extend_from_slice(b"true"),
        Value::Bool(false) => out.extend_from_slice(b"false"),
        Value::Text(text) => write_quoted(text.as_ref().as_str(), out),
        Value::Ref(Some(node)) => write_node(world, *node, out),
        Value::Ref(None) => out.extend_from_slice(b"null"),
    }
}

/// Appends the path of the node.
fn write_node(world: &World, node: Node, out: &mut Vec<u8>) -> Result<(), AllocError>
    requires { IsSound world.now }
{
    let path = world
        .store
        .path_of(world.alloc, world.rules.classes(), node)?;
    write_path(&path, out)
}

/// Appends the place and the call of an instance.
pub fn write_instance(world: &World, inst: &Inst, out: &mut Vec<u8>) -> Result<(), AllocError>
    requires { IsSound world.now }
{
    write_node(world, inst.node(), out)?;
    out.push(b' ')?;
    out.extend_from_slice(world.rules.told_name(inst.attribute()).as_bytes())?;
    out.push(b'(')?;
    for (i, argument) in inst.arguments().iter().enumerate() {
        if i > 0 {
            out.push(b',')?;
        }
        write_value(world, argument, out)?;
    }
    Ok(out.push(b')')?)
}

/// Appends the texts of the locations, each once and in order, with a semicolon in front of each.
pub fn write_locations(world: &World, reads: &[Loc], out: &mut Vec<u8>) -> Result<(), AllocError>
    requires { IsSound world.now }
{
    let mut texts = BTreeSet::new(world.alloc);
    for loc in reads {
        let mut text = Vec::new(world.alloc);
        write_location(world, loc, &mut text)?;
        texts.insert(text)?;
    }
    for text in &texts {
        out.extend_from_slice(b"; ")?;
        out.extend_from_slice(text)?;
    }
    Ok(())
}

/// Appends the text of a location.
fn write_location(world: &World, loc: &Loc, out: &mut Vec<u8>) -> Result<(), AllocError>
    requires { IsSound world.now }
{
    let (word, part) = match loc {
        Loc::Is(_) => ("is ", None),
        Loc::Tok(_, part) => ("token ", Some(*part)),
        Loc::Slot(_, part) => ("slot ", Some(*part)),
        Loc::Up(_) => ("up ", None),
        Loc::Idx(_) => ("index ", None),
        Loc::Drawer { part, .. } => ("drawer ", Some(*part as usize)),
    };
    out.extend_from_slice(word.as_bytes())?;
    write_node(world, loc.node(), out)?;
    if let Some(part) = part {
        out.push(b' ')?;
        out.extend_from_slice(part_name(world, loc.node(), part).as_bytes())?;
    }
    Ok(())
}

/// The name of the component of the node's class at that position; a question mark where there is none.
fn part_name(world: &World, node: Node, part: usize) -> &str
    requires { IsSound world.now }
{
    let classes = world.rules.classes();
    let class = world.store.class(node);
    if class.index() >= classes.len() {
        return "?";
    }
    match classes.parts(class).get(part) {
        Some(Part { name, .. }) => name.as_str(),
        None => "?",
    }
}
