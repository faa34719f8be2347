//! Lines of sessions, read, and replies, written: one text for each.
//!
//! **Its specs:** `LineView` and `ReplyView` are what lines and replies stand for, `Commands`, `Calls` and `Words`
//! the texts of their parts; `Faults` says what is answered of bytes that are no line, `Writable` which replies can
//! be written, and which need little room, `Appending` what a part of a reply puts behind the bytes that are there; `Laws`
//! what bytes say of the line that they spell; `Again` what stands before the attribute of a question.
//!
//! **Where to begin:** `line/commands.rt` reads the commands, `reply.rt` writes replies.
//!
//! **What it keeps true:** bytes spell one line or none; a reply that finds no room leaves the output as it was.
#![tactic(auto)]

pub mod laws;
pub mod line;
pub mod reply;
