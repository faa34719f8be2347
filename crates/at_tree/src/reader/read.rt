//! The whole run over a term's text.
ghost use Rattle.std.specs.Prelude.{◌≡◌, IfOk, IfErr};
ghost use Rattle.at_model.specs.Terms.{Term as Words, IsTerm, term_text};
ghost use Rattle.at_tree.specs.View.{term_view};
ghost use Rattle.at_tree.specs.Partial.{whole_term};
ghost use Rattle.at_tree.specs.Seen.{partial_view};
ghost use Rattle.at_tree.specs.Stops.{IsTermText};
ghost use Rattle.at_tree.specs.Reads.{Reads, StopsWith, ReadsText};
ghost use Rattle.at_tree.specs.Finishes.{Finishes};

use super::advance::advance;
use super::{Partial, Place};
use crate::fault::{TermFault, Untaken};
use crate::term::{Term, whole_term};
use std::alloc::Global;

impl Partial {
    /// The term that is whole at the end of its text.
    fn finish(self, at: usize) -> Result<Term, TermFault>
        ensures { Finishes term_view result (whole_term (partial_view self)) at }
    {
        let Partial { levels: _, place } = self;
        match place {
            Place::Done(term) => Ok(term),
            _ => Err(TermFault::Syntax { at }),
        }
    }
}

/// The term of a text: no blank stands outside its quoted texts, and at most 512 terms stand in one
/// another. Its work is linear in the text.
///
/// ```text
/// term = name "(" [cell { "," cell }] ")"      cell = term | "[" [term { "," term }] "]" | "-" | value
/// value = int | "true" | "false" | text        int = "0" | ["-"] nonzero { digit }, within 32 bits
/// ```
///
/// A text stands between quotes; in it a quote, a backslash, a newline and a tab are written `\"`,
/// `\\`, `\n` and `\t`, and nothing else with a backslash. `Syntax` has the offset of the first
/// character with which no term's text goes on, or the end of the text; `Memory` is want of memory.
pub fn read_term(alloc: Global, text: &str) -> Result<Term, TermFault>
    // What is read is the text's term.
    ensures found { IfOk result (λ t. IsTerm (term_view t) × (term_text (term_view t) ≡ text.now)) }
    // A term's text is read as that term, unless memory runs out.
    ensures only { (t : Words) → IsTerm t → term_text t ≡ text.now → Reads term_view result t }
    // Else the fault stands at the first character that leads to no term's text.
    ensures fault { IfErr result (StopsWith IsTermText text.now) }
{
    match whole_term(alloc, text) {
        Ok(term) => Ok(term),
        Err(Untaken::Memory) => Err(TermFault::Memory),
        Err(Untaken::For(_)) => read_by_characters(alloc, text),
    }
}

/// The same for any text, character by character, which shows where it stops.
fn read_by_characters(alloc: Global, text: &str) -> Result<Term, TermFault>
    ensures { ReadsText term_view IsTerm term_text IsTermText text.now result }
{
    let mut partial = Partial {
        levels: Vec::new(alloc),
        place: Place::Start,
    };
    let mut rest = text;
    while !rest.is_empty() {
        match advance(alloc, partial, rest) {
            Ok((next, behind)) => {
                partial = next;
                rest = behind;
            }
            Err(Untaken::For(_)) => {
                return Err(TermFault::Syntax {
                    at: text.len() - rest.len(),
                });
            }
            Err(Untaken::Memory) => return Err(TermFault::Memory),
        }
    }
    partial.finish(text.len())
}
