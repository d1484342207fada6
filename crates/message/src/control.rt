// Control and error messages, and those of other types.
ghost use Rattle.std.specs.Prelude.{◌≡◌};
ghost use Rattle.message.specs.Effects.{control_answer, control_reply, control, peer_error, skipped};

use crate::Effect;
use crate::changes::note;
use session::reply_bytes::no_reply;
use session::{Answer, Connection, Reply};

#[tactic(auto, unfolding(crate::specs::Effects::control_answer))]
fn control_answer(kind: u8) -> Answer
    ensures { result ≡ control_answer kind }
{
    match kind {
        0 => Answer::Request,
        1 => Answer::Finished,
        2 => Answer::Partial,
        3 => Answer::Confirmed,
        _ => Answer::Heartbeat,
    }
}

#[tactic(auto, unfolding(crate::specs::Effects::control_reply))]
fn control_reply(kind: u8) -> Reply
    ensures { result ≡ control_reply kind }
{
    match kind {
        1 | 2 => Reply::copy_from_slice(&[0, 3]),
        _ => no_reply(),
    }
}

// A control message of this type, 0 to 4.
#[tactic(auto, unfolding(crate::specs::Effects::control))]
pub fn control(connection: Connection, kind: u8) -> Effect
    ensures { result ≡ control connection kind }
{
    note(connection, control_answer(kind), control_reply(kind))
}

// A peer's error message of this type: it is accepted, and closes the session with number 0.
#[tactic(auto, unfolding(crate::specs::Effects::peer_error))]
pub fn peer_error(connection: Connection, kind: u8) -> Effect
    ensures { result ≡ peer_error connection kind }
{
    let closed = session::close_connection(connection, 0);
    note(closed, Answer::Error(kind), no_reply())
}

// A message of another type.
#[tactic(auto, unfolding(crate::specs::Effects::skipped))]
pub fn skipped(connection: Connection, kind: u8) -> Effect
    ensures { result ≡ skipped connection kind }
{
    note(connection, Answer::Skipped(kind), no_reply())
}
