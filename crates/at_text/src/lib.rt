//! Tokens, names, quoted texts, decimals and places: the base of every reader.
//!
//! **Its specs:** `Pieces` is the one cut of a text, `Symbols` its tokens as a grammar sees them, `Rows` rows of
//! placed tokens before which a reader stands, `Place` lines and columns, `Quoted` texts between quotes, `Front`
//! what may be stepped over; `Machine` and `Reading` are the base of readers over tokens: a table of wants with
//! one symbol of look ahead, whose first fault is the grammar's; `Faults` is where a text can't be cut any further,
//! `Recoding` a fault by the codes of another type.
//!
//! **Where to begin:** `scan.rt` and `cursor.rt`; readers above take tokens through a `Cursor`. A `Fault<C>` is a
//! code at a place, a `Failure<R>` a reason, each or want of memory: the errors of all readers and checks below
//! `at_start`.
//!
//! **What it keeps true:** a text that has tokens is scanned, each fault is the first one, and one text has one
//! spelling.
#![tactic(auto)]

pub mod cursor;
pub mod decimal;
pub mod fault;
pub mod names;
pub mod place;
pub mod placed;
pub mod quoted;
pub mod scan;
pub mod token;
