//! The marks that commands use.

ghost use Rattle.std.specs.Prelude.{◌≡◌, ◌++◌, ◌∷◌, [], IfOk, OnOk};
ghost use Rattle.std.specs.List.{flat_map, list_all};
ghost use Rattle.at_model.specs.Machine.{marks_in, marks_in_argument, marks_used};
ghost use Rattle.at_protocol.specs.LineView.{argument_view, arguments_view, command_view, edit_view, place_view};
ghost use Rattle.at_engine.specs.Marks.{has_mark, listed, Copies};

use super::{Lookup, Marks, Noted};
use at_protocol::line::{Argument, Command, EditWords, Place};
use std::alloc::{AllocError, Global};

/// Whether the session has the marks that its command uses.
pub fn has_used<M: Lookup>(marks: &M, session: u16, command: &Command<'_>) -> bool
    ensures { result ≡ list_all (has_mark (M.marks marks.now) session) (marks_used (command_view command.now)) }
{
    match command {
        Command::Post {
            place,
            attribute: _,
            arguments,
        } => has_asked(marks, session, place, arguments),
        Command::Edit(words) => has_named(marks, session, words),
        Command::Show { place } => has_in(marks, session, place),
        Command::Mark { place, .. } => has_in(marks, session, place),
        Command::Unmark { name } => has_mark(marks, session, name),
        Command::Where { name } => has_mark(marks, session, name),
        Command::Version => true,
        Command::Wait { .. } => true,
    }
}

/// Whether the session has the marks that the words of an edit use.
fn has_named<M: Lookup>(marks: &M, session: u16, words: &EditWords<'_>) -> bool
    ensures { result ≡ list_all (has_mark (M.marks marks.now) session) (marks_used (edit_view words.now)) }
{
    match words {
        EditWords::Set { place, .. } => has_in(marks, session, place),
        EditWords::Put { place, .. } => has_in(marks, session, place),
        EditWords::Drop { place } => has_in(marks, session, place),
        EditWords::Insert { place, .. } => has_in(marks, session, place),
        EditWords::Token { place, .. } => has_in(marks, session, place),
        EditWords::Move { place, to, .. } => {
            has_in(marks, session, place) && has_in(marks, session, to)
        }
    }
}

/// Whether the session has a mark of that name.
pub fn has_mark<M: Lookup>(marks: &M, session: u16, name: &str) -> bool
    ensures { result ≡ has_mark (M.marks marks.now) session name.now }
{
    marks.get(session, name).is_some()
}

/// Whether the session has the marks that the words of a question use.
pub fn has_asked<M: Lookup>(
    marks: &M,
    session: u16,
    place: &Place<'_>,
    arguments: &[Argument<'_>],
) -> bool
    ensures { result
        ≡ list_all (has_mark (M.marks marks.now) session) (marks_in (place_view place.now) ++ flat_map marks_in_argument (arguments_view arguments.now)) }
{
    if !has_in(marks, session, place) {
        return false;
    }
    has_in_all(marks, session, arguments)
}

/// Whether the session has the mark that the place uses.
fn has_in<M: Lookup>(marks: &M, session: u16, place: &Place<'_>) -> bool
    ensures { result ≡ list_all (has_mark (M.marks marks.now) session) (marks_in (place_view place.now)) }
{
    match place {
        Place::FromRoot(_) => true,
        Place::FromMark { name, steps: _ } => has_mark(marks, session, name.as_str()),
    }
}

/// Whether the session has the mark that the argument uses.
fn has_in_argument<M: Lookup>(marks: &M, session: u16, argument: &Argument<'_>) -> bool
    ensures { result ≡ list_all (has_mark (M.marks marks.now) session) (marks_in_argument (argument_view argument.now)) }
{
    match argument {
        Argument::Node(place) => has_in(marks, session, place),
        Argument::Text(_) => true,
        Argument::Int(_) => true,
        Argument::Bool(_) => true,
        Argument::Null => true,
    }
}

/// Whether the session has the marks that the arguments use.
fn has_in_all<M: Lookup>(marks: &M, session: u16, arguments: &[Argument<'_>]) -> bool
    ensures { result ≡ list_all (λ a. list_all (has_mark (M.marks marks.now) session) (marks_in_argument (argument_view a))) arguments.now }
{
    for argument in arguments {
        if !has_in_argument(marks, session, argument) {
            return false;
        }
    }
    true
}

impl Marks {
    /// The session's marks that the words of a question use.
    pub fn asked(
        &self,
        alloc: Global,
        session: u16,
        place: &Place<'_>,
        arguments: &[Argument<'_>],
    ) -> Result<Noted, AllocError>
        ensures { IfOk result (λ ms. Copies session
            (marks_in (place_view place.now) ++ flat_map marks_in_argument (arguments_view arguments.now)) (listed self.now.items.entries) [] ms.items.items) }
    {
        let mut copies = Noted::new(alloc);
        self.copy_in(alloc, session, place, &mut copies)?;
        for argument in arguments {
            self.copy_in_argument(alloc, session, argument, &mut copies)?;
        }
        Ok(copies)
    }

    /// Copies the session's mark that the argument uses behind these.
    fn copy_in_argument(
        &self,
        alloc: Global,
        session: u16,
        argument: &Argument<'_>,
        copies: &mut Noted,
    ) -> Result<(), AllocError>
        ensures { OnOk result (Copies session (marks_in_argument (argument_view argument.now)) (listed self.now.items.entries)
            copies.old.items.items copies.new.items.items) }
    {
        match argument {
            Argument::Node(place) => self.copy_in(alloc, session, place, copies),
            Argument::Text(_) => Ok(()),
            Argument::Int(_) => Ok(()),
            Argument::Bool(_) => Ok(()),
            Argument::Null => Ok(()),
        }
    }

    /// Copies the session's mark that the place uses behind these.
    fn copy_in(
        &self,
        alloc: Global,
        session: u16,
        place: &Place<'_>,
        copies: &mut Noted,
    ) -> Result<(), AllocError>
        ensures { OnOk result (Copies session (marks_in (place_view place.now)) (listed self.now.items.entries) copies.old.items.items copies.new.items.items) }
    {
        match place {
            Place::FromRoot(_) => Ok(()),
            Place::FromMark { name, steps: _ } => self.copy(alloc, session, name.as_str(), copies),
        }
    }

    /// Copies the session's mark of that name behind these, where there is one.
    fn copy(
        &self,
        alloc: Global,
        session: u16,
        name: &str,
        copies: &mut Noted,
    ) -> Result<(), AllocError>
        ensures { OnOk result (Copies session (name.now ∷ []) (listed self.now.items.entries) copies.old.items.items copies.new.items.items) }
    {
        match self.get(session, name) {
            Some(node) => {
                let name = String::from_str(alloc, name)?;
                copies.push(session, name, node)?;
                Ok(())
            }
            None => Ok(()),
        }
    }
}
