//! Where declarations begin among tokens.

ghost use Rattle.std.specs.Prelude.{◌≡◌};
ghost use Rattle.at_text.specs.Symbols.{placed};
ghost use Rattle.at_text.specs.Rows.{left};
ghost use Rattle.at_jrag.specs.Faults.{begins_declaration, last_declaration};

use at_text::cursor::is_word;
use at_text::place::Place;
use at_text::placed::Placed;

/// Whether a declaration begins with the token.
fn begins_declaration(token: &Placed<'_>) -> bool
    ensures { result ≡ begins_declaration (placed token.now) }
{
    is_word(token, "syn") || is_word(token, "inh") || is_word(token, "eq")
}

/// The place of the last declaration that begins among the tokens; line 1, column 1, where none does.
pub fn declaration_place(tokens: &[Placed<'_>]) -> Place
    ensures { result ≡ last_declaration (left tokens.now) }
{
    let mut at = Place::START;
    let mut rest = tokens;
    while let [token, more @ ..] = rest {
        if begins_declaration(token) {
            at = token.at;
        }
        rest = more;
    }
    at
}
