// Opening a session as answerer or caller, and the record of a refused opening.
#![tactic(auto)]

pub mod fresh;

ghost use Rattle.std.specs.Prelude.{◌≡◌, length};
ghost use Rattle.opening.specs.Opening.{answerer, caller, opening_refusal, refuse_opening, «open», open_room, opened_of};

use crate::fresh::{names_given, new_session};
use handshake::writing::write_hello;
use session::{AWAITING_HELLO, AWAITING_STATUS, Answer, Outcome, Session};

// Room that opening asks for, in either role.
pub const OPENING_ROOM: usize = 101;

// What opening gives back: the record, and the outcome with no bytes taken.
#[derive(Clone, Copy)]
pub struct Opened {
    pub session: Session,
    pub outcome: Outcome,
}

// The number of the refusal, where opening with these names and so much room is refused.
#[tactic(auto, unfolding(crate::specs::Opening::opening_refusal))]
fn opening_refusal(local: &[u8], remote: &[u8], room: usize) -> Option<u8>
    ensures { result ≡ opening_refusal local.now remote.now room }
{
    if room < OPENING_ROOM {
        Some(1)
    } else if names_given(local, remote) {
        None
    } else {
        Some(3)
    }
}

#[tactic(auto, unfolding(crate::specs::Opening::opened_of, crate::specs::Opening::refused_opening))]
fn refused_opening(number: u8) -> Opened
    ensures { result ≡ opened_of (refuse_opening number) }
{
    Opened {
        session: new_session(AWAITING_HELLO, 1, u32::from(number), b"", b""),
        outcome: Outcome {
            taken: 0,
            reply_len: 0,
            answer: Answer::Refused(number),
        },
    }
}

// What opening gives for a new session and a reply of so many bytes.
fn opened_with(session: Session, reply_len: usize) -> Opened
    ensures { result ≡ record { session = session; outcome = record { taken = 0; reply_len = reply_len; answer = Answer.More } } }
{
    Opened {
        session,
        outcome: Outcome {
            taken: 0,
            reply_len,
            answer: Answer::More,
        },
    }
}

// Opens a session that awaits a hello. Nothing is written.
#[tactic(auto, using(crate::proofs::Making::opening))]
pub fn open_answerer(local: &[u8], remote: &[u8], room: &mut [u8]) -> Opened
    ensures result { result ≡ opened_of («open» answerer local.now remote.now (length room.old)) }
    ensures content { room.new ≡ open_room answerer local.now remote.now room.old }
{
    if let Some(number) = opening_refusal(local, remote, room.len()) {
        return refused_opening(number);
    }
    let session = new_session(AWAITING_HELLO, 0, 0, local, remote);
    opened_with(session, 0)
}

// Opens a session that awaits a status. The caller's hello stands at the front of the room.
#[tactic(auto, using(crate::proofs::Making::opening))]
pub fn open_caller(
    local: &[u8],
    remote: &[u8],
    process: u32,
    relative: u32,
    room: &mut [u8],
) -> Opened
    ensures result { result ≡ opened_of («open» (caller process relative) local.now remote.now (length room.old)) }
    ensures content { room.new ≡ open_room (caller process relative) local.now remote.now room.old }
{
    if let Some(number) = opening_refusal(local, remote, room.len()) {
        return refused_opening(number);
    }
    let session = new_session(AWAITING_STATUS, 0, 0, local, remote);
    // 101 bytes are enough for every hello with such names
    let n = write_hello(room, remote, local, process, relative).unwrap_or(0);
    opened_with(session, n)
}
