//! The engine: it holds a tree, its rules and marks, answers questions line by line, and takes edits.
//!
//! **Its specs.** Each function promises one record. Of the loop, from above: `Running` (what a run has done, and
//! what it promises), `Going` (what each function of the loop promises), `Loop` and `Taking` (pieces of any size),
//! `Serving` (one call of the engine), `Stepping` (what an engine has gone through), `Ends` and `RunFaults` (streams
//! that fail). Of a line: `Holding` and
//! `Engines` (which state of the machine an engine holds, and when it is sound), `Commanding` (what a command
//! promises), `Meant` (what its words come to), `Following` and `Telling` (what a verdict leads to, in the program's
//! words), `Hearing` (one step, and what turns try for a line that waits), `Lasting` (where the last question was
//! asked). By numbers for nodes: `Seen`, `Naming`, `Marks`, `Asking`, `Answered`, `Fitting`, `Collected`. Open
//! questions: `Posted`, `PostedFor`, `Turning`, `Turned`. What is kept: `Keeping`, `KeptOver`, `KeepingRuns`. How what
//! can be kept again came to be what it is: `Making`, by questions, turns and the edit of the line, on the tree as it was;
//! which edits those of a run are: `edits_in` of `Stepping`. What a value may carry: `OneProof`.
//!
//! **Where to begin:** `engine.rt` serves one line, `engine/` has its commands, whose words are read over a `View`;
//! `stream.rt` serves all, between an `Input` and an `Output`.
//!
//! **What it keeps true:** `IsSound`: no edit waits, the tree conforms, the nodes of marks are there, what is kept
//! is right and well typed, and so is what can be kept again, open questions stand on the tree, rules are well formed,
//! circular attributes are lazy and boolean, tokens can be written, and the place of the last question, where it is
//! remembered, is there. `new` gives it over a keeper that keeps nothing yet (`KeepsNothing`), and each line and turn keeps it.
//!
//! **Where attributes are circular** turns are those of a search (`AreTurns` in `Turning`), what is worth keeping for a question that a
//! circle answers is what its search has met before (`IsWorthKeeping` of `at_model`), and what is kept is spare, where no bound is set, as long
//! as nothing was answered `memory` (`KeepsWhole`); `laws.rt` has what that is where none is circular.
#![tactic(auto)]

mod engine;
mod laws;
mod marks;
mod nodes;
mod posts;
mod stream;

pub use engine::Engine;
pub use stream::{Input, Output, Report, RunFault, Watched, run, run_for, run_gathering};
