//! Paths to nodes: as they are written, by the names of components.
ghost use Rattle.std.specs.Prelude.{◌≡◌, ◌≤◌, ◌++◌, IfOk, OnOk, OnErr, vec_capacity};
ghost use Rattle.at_model.specs.Paths.{IsPath, path_text, step_text};
ghost use Rattle.at_tree.specs.Appending.{Appends};
ghost use Rattle.at_tree.specs.PathView.{path_view, step_view};

use at_text::decimal::write_int;
use std::alloc::{AllocError, Global};
use std::borrow::CowStr;

/// A step down: a component's name, and an index where it is a list. The name is lent by the text that was read, or owned.
#[derive(Drop)]
pub struct Step<'a> {
    pub part: CowStr<'a>,
    pub index: Option<u32>,
}

/// A path: the steps from the root down.
#[derive(Drop)]
pub struct Path<'a> {
    pub steps: Vec<Step<'a>>,
}

impl<'a> Step<'a> {
    /// The same step with a name of its own, or want of memory.
    pub fn copied(&self, alloc: Global) -> Result<Step<'static>, AllocError>
        ensures { IfOk result (λ s. step_view s ≡ step_view self.now) }
    {
        let part = String::from_str(alloc, self.part.as_str())?;
        Ok(Step {
            part: CowStr::Owned(part),
            index: self.index,
        })
    }
}

impl<'a> Path<'a> {
    /// The same path with names of its own, or want of memory.
    pub fn copied(&self, alloc: Global) -> Result<Path<'static>, AllocError>
        ensures { IfOk result (λ p. path_view p ≡ path_view self.now) }
    {
        let mut steps = Vec::with_capacity(alloc, self.steps.len())?;
        for step in &self.steps {
            steps.push(step.copied(alloc)?)?;
        }
        Ok(Path { steps })
    }
}

mod read;

pub use read::read_path;

/// Appends a step's text. Where memory is wanting, it may have appended a part of it.
fn write_step(step: &Step<'_>, out: &mut Vec<u8>) -> Result<(), AllocError>
    ensures text { Appends (step_text (step_view step.now)) result out.old.items out.new.items }
    ensures grows { vec_capacity out.old ≤ vec_capacity out.new }
{
    out.push(b'/')?;
    out.extend_from_slice(step.part.as_str().as_bytes())?;
    if let Some(index) = step.index {
        out.push(b':')?;
        write_int(i64::from(index), out)?;
    }
    Ok(())
}

/// Appends a path's text. Where memory is wanting, it may have appended a part of it.
fn write_steps(path: &Path<'_>, out: &mut Vec<u8>) -> Result<(), AllocError>
    ensures text { Appends (path_text (path_view path.now)) result out.old.items out.new.items }
    ensures grows { vec_capacity out.old ≤ vec_capacity out.new }
{
    if path.steps.is_empty() {
        return Ok(out.push(b'/')?);
    }
    for step in &path.steps {
        write_step(step, out)?;
    }
    Ok(())
}

/// Appends the text of a path whose parts are names and whose indexes have at most nine digits: a
/// slash for the root, and else a slash, the name, and a colon and the index if any, for each step.
/// Where memory is wanting, the output stays as it was.
pub fn write_path(path: &Path<'_>, out: &mut Vec<u8>) -> Result<(), AllocError>
    requires { IsPath (path_view path.now) }
    ensures ok { OnOk result (out.new.items ≡ out.old.items ++ path_text (path_view path.now)) }
    ensures err { OnErr result (out.new.items ≡ out.old.items) }
    ensures grows { vec_capacity out.old ≤ vec_capacity out.new }
{
    let len = out.len();
    let written = write_steps(path, out);
    if written.is_err() {
        out.truncate(len);
    }
    written
}
