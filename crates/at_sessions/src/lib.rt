//! Tests of what no session of the program shows: lines and turns one by one, a writer that can't flush, reads that are
//! counted, aspects as they are read, a store and its drawers; keepers by themselves, and beside plain models, also over lines by chance;
//! what is derived, components, and searches over formulas, found by hand.
//!
//! **Where to begin:** `turns.rt` has lines and turns as rows of a table. A test that a page can show stands on a page,
//! and one that the program shows, such as a whole session with its work, in tools/of_the_program (docs/TESTING.md).
//! Want of memory, or a file that isn't read, ends a test by `expect`: an exit by `?` would be proved with all that it lets go.
#![tactic(auto)]

#[cfg(test)]
mod applying;
#[cfg(test)]
mod caches;
#[cfg(test)]
mod circular_texts;
#[cfg(test)]
mod constant_texts;
#[cfg(test)]
mod cutting;
#[cfg(test)]
mod drawers;
#[cfg(test)]
mod failing;
#[cfg(test)]
mod hearing;
#[cfg(test)]
mod keepers;
#[cfg(test)]
mod keeping;
#[cfg(test)]
mod rows;
#[cfg(test)]
mod samples;
#[cfg(test)]
mod searching;
#[cfg(test)]
mod solving;
#[cfg(test)]
mod stores;
#[cfg(test)]
mod turns;
