//! Which lines are answered without that anything is evaluated.

ghost use Rattle.at_engine.specs.Engines.{IsHeld};

use super::Engine;
use super::asking::Asked;
use at_evict::Bounded;
use at_protocol::line::{Command, Line, Request, read_line};
use std::alloc::AllocError;

/// Whether the line is answered as it stands: it asks for nothing that isn't kept, and doesn't wait.
pub(crate) fn is_prompt<K: Bounded>(engine: &Engine<K>, line: &[u8]) -> bool
    requires { IsHeld K.contents K.memories engine.now }
{
    if !may_ask(line) {
        return true;
    }
    let view = engine.view();
    if let Some(attribute) = engine.asked_again(line) {
        let last = &engine.last;
        return is_at_hand(
            engine,
            view.asked_of(last.session, last.node, attribute, &[]),
        );
    }
    match read_line(engine.alloc, line) {
        Ok(
            Line {
                session,
                expected: _,
                request: Request::Ask {
                    place,
                    attribute,
                    arguments,
                },
            },
        ) => is_at_hand(engine, view.asked(session, &place, attribute, &arguments)),
        Ok(line) => !matches!(line.request, Request::Command(Command::Wait { .. })),
        Err(_) => true,
    }
}

/// Whether the line may ask or wait: whether its word behind the session begins as `ask`, `at` and `wait` do.
fn may_ask(line: &[u8]) -> bool {
    let word = match line {
        [_, b' ', word, ..] => word,
        [_, _, b' ', word, ..] => word,
        [_, _, _, b' ', word, ..] => word,
        _ => return true,
    };
    matches!(word, b'a' | b'w')
}

/// Whether the words of a question were refused, or what they ask for is kept.
fn is_at_hand<K: Bounded>(engine: &Engine<K>, asked: Result<Asked, AllocError>) -> bool {
    match asked {
        Ok(Asked::Instance(inst)) => engine.demand.is_kept(&inst),
        Ok(Asked::Refused(_)) => true,
        Err(_) => false,
    }
}
