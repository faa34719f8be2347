//! Whether a line can be read: ints and booleans are arguments where an attribute takes such.
ghost use Rattle.std.specs.Prelude.{◌≡◌};
ghost use Rattle.std.specs.List.{list_any};
ghost use Rattle.at_model.specs.Machine.{is_number};
ghost use Rattle.at_protocol.specs.LineView.{argument_view};

use super::Engine;
use at_evict::Bounded;
use at_protocol::line::{Argument, Command};

/// Whether ints or booleans are among the arguments.
fn pass_numbers(arguments: &[Argument<'_>]) -> bool
    ensures { result ≡ list_any (λ a. is_number (argument_view a)) arguments.now }
{
    arguments.iter().any(|argument| is_number(argument))
}

/// Whether the argument is an int or a boolean.
fn is_number(argument: &Argument<'_>) -> bool
    ensures { result ≡ is_number (argument_view argument.now) }
{
    match argument {
        Argument::Int(_) => true,
        Argument::Bool(_) => true,
        Argument::Text(_) => false,
        Argument::Node(_) => false,
        Argument::Null => false,
    }
}

impl<K: Bounded> Engine<K> {
    ghost use Rattle.std.specs.Prelude.{◌≡◌, ◌||◌, not};
    ghost use Rattle.std.specs.List.{list_any};
    ghost use Rattle.at_model.specs.Machine.{is_number, is_read, takes_numbers};
    ghost use Rattle.at_protocol.specs.LineView.{arguments_view, command_view};
    ghost use Rattle.at_engine.specs.Engines.{rules_of};

    /// Whether a question with these arguments can be read: it passes neither ints nor booleans, or an attribute takes such.
    pub(super) fn reads(&self, arguments: &[Argument<'_>]) -> bool
        ensures { result ≡ (takes_numbers (rules_of self.now) || not (list_any is_number (arguments_view arguments.now))) }
    {
        if !pass_numbers(arguments) {
            return true;
        }
        self.rules.takes_numbers()
    }

    /// The same of a command.
    pub(super) fn reads_command(&self, command: &Command<'_>) -> bool
        ensures { result ≡ is_read (rules_of self.now) (command_view command.now) }
    {
        match command {
            Command::Post { arguments, .. } => self.reads(arguments),
            _ => true,
        }
    }
}
