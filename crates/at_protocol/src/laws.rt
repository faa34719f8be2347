//! Laws about the texts of lines.
ghost use Rattle.at_protocol.specs.Laws.{OneLineEach, OneSessionEach, SessionIsOfLine};

/// A line is known from its text.
pub fn one_line_each()
    ensures { OneLineEach }
{}

/// A session is known from the bytes that begin with it.
pub fn one_session_each()
    ensures { OneSessionEach }
{}

/// The session at the front of a line's text is the line's.
pub fn session_is_of_line()
    ensures { SessionIsOfLine }
{}
