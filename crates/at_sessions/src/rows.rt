//! What has to hold of a row of a table. The text that is told where it doesn't is put together here alone: each test would
//! have a proof of that else.

use std::process::Abort;

/// Ends the test, and tells the row's number, where that doesn't hold of it.
pub fn holds_at(rt: &impl Abort, row: usize, holds: bool) {
    assert!(rt; holds, "row {row}");
}

/// Ends the test, and tells the row's text, where that doesn't hold of it.
pub fn holds_for(rt: &impl Abort, text: &str, holds: bool) {
    assert!(rt; holds, "{text}");
}
