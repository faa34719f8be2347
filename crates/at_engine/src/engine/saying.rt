//! Replies as they are written: what is told, or `memory` where there is no room for that.

ghost use Rattle.std.specs.Prelude.{◌≡◌, ◌++◌, ◌+◌, ◌≤◌, Ok, vec_len, vec_capacity};
ghost use Rattle.at_model.specs.Replies.{reply_text};
ghost use Rattle.at_engine.specs.Telling.{memory_for, CanSay, HasSaid};

use at_protocol::reply::{Form, Posting, Reply, write_reply};
use std::alloc::AllocError;

/// What is told, or that memory ran out; whose session is told it, where that could be read, and of which question that was
/// posted it is the answer, where it is one.
#[derive(Drop)]
pub struct Told {
    pub(super) session: Option<u16>,
    pub(super) done: Option<Posting>,
    pub(super) form: Result<Form, AllocError>,
}

impl Told {
    ghost use Rattle.std.specs.Prelude.{◌≡◌, None};

    /// What is told at once of a line.
    pub(super) fn at_once(session: Option<u16>, form: Result<Form, AllocError>) -> Told
        ensures session { result.session ≡ session }
        ensures done { result.done ≡ None }
        ensures form { result.form ≡ form }
    {
        Told {
            session,
            done: None,
            form,
        }
    }
}

/// Appends what is told; or `memory`, where memory ran out or is wanting now. Whether it is `memory`.
#[inline(always)]
pub(super) fn say(told: Told, out: &mut Vec<u8>) -> bool
    requires { CanSay told out.old }
    ensures { HasSaid told result out.old out.new }
{
    let Told {
        session,
        done,
        form,
    } = told;
    match form {
        Ok(form) => say_form(session, done, form, out),
        Err(_) => {
            say_memory(session, done, out);
            true
        }
    }
}

/// Appends what is told, or `memory` where there is no room for it; whether it is `memory`.
fn say_form(session: Option<u16>, done: Option<Posting>, form: Form, out: &mut Vec<u8>) -> bool
    requires { CanSay (record { session = session; done = done; form = Ok form }) out.old }
    ensures { HasSaid (record { session = session; done = done; form = Ok form }) result out.old out.new }
{
    let reply = Reply {
        session,
        done,
        form,
    };
    match write_reply(&reply, out) {
        Ok(()) => false,
        Err(_) => {
            say_memory(session, done, out);
            true
        }
    }
}

/// Appends `memory`.
fn say_memory(session: Option<u16>, done: Option<Posting>, out: &mut Vec<u8>)
    requires room { vec_len out.old + 64 ≤ vec_capacity out.old }
    ensures said { out.new.items ≡ out.old.items ++ reply_text (memory_for session done) }
    ensures room { vec_capacity out.old ≤ vec_capacity out.new }
{
    let form = Form::Memory;
    let reply = Reply {
        session,
        done,
        form,
    };
    match write_reply(&reply, out) {
        Ok(()) => {}
        Err(_) => unreachable!(),
    }
}
