//! Runs: characters of one sort at the front of a text.
ghost use Rattle.std.specs.Prelude.{◌≡◌};
ghost use Rattle.at_text.specs.Front.{EndsRun};
ghost use Rattle.at_tree.specs.Runs.{takes, Cuts};

use at_text::names::continues_name;

/// Characters of one sort.
#[derive(Clone, Copy)]
pub(crate) enum Run {
    /// Those that a name goes on with.
    Name,
    /// Those that stand for themselves between quotes.
    Plain,
    /// Those of which numbers are written.
    Number,
}

/// Whether the run goes on with the character.
fn takes(run: Run, c: char) -> bool
    ensures { result ≡ takes run c }
{
    match run {
        Run::Name => continues_name(c),
        Run::Plain => c != '"' && c != '\\' && c != '\n' && c != '\t',
        Run::Number => c == '-' || c.is_ascii_digit(),
    }
}

/// What follows the run at the front.
pub(crate) fn past(text: &str, run: Run) -> &str
    ensures { EndsRun (takes run) text.now result.now }
{
    let mut chars = text.chars();
    let mut rest = text;
    while let Some(c) = chars.next() {
        if !takes(run, c) {
            break;
        }
        rest = chars.as_str();
    }
    rest
}

/// The run at the front, and what follows it.
pub(crate) fn cut(text: &str, run: Run) -> (&str, &str)
    ensures { Cuts (takes run) text.now result.0.now result.1.now }
{
    let rest = past(text, run);
    text.split_at(text.len() - rest.len())
}
