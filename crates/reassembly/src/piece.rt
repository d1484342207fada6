// Taking a piece: its bytes join the unfinished ones until these end a message or show a refusal.
ghost use Rattle.std.specs.Prelude.{◌≡◌};
ghost use Rattle.session.specs.Session.{unfinished};
ghost use Rattle.reassembly.specs.Skip.{waits_until};
ghost use Rattle.reassembly.specs.Pieces.{take_piece};

use crate::{MESSAGE_MAX, Part};
use frame::BODY_MAX;
use lists::inline::Bytes;
use session::{ESTABLISHED, Session, unfinished_len};
use session_soundness::unfinished::bytes_wait;

#[tactic(auto, using(crate::proofs::Taking::unfinished_rules))]
fn unfinished_bytes(session: Session) -> Bytes<MESSAGE_MAX>
    ensures { result ≡ unfinished session }
{
    let len = unfinished_len(session);
    let buffer = session.buffer;
    Bytes::copy_from_slice(&buffer[..len])
}

// How many bytes the message has of which these are the first, where its encoded body length is there; else 0. Waiting bytes wait on
// while they are fewer.
#[tactic(auto, using(frame::proofs::Judging::end_fits), unfolding(crate::specs::Skip::waits_until, crate::specs::Skip::message_end))]
fn waits_until(phase: u32, u: &[u8]) -> usize
    ensures { result ≡ waits_until phase u.now }
{
    if phase != ESTABLISHED {
        return 0;
    }
    match wire::read_int(u, 2) {
        Ok((value, next)) if value <= BODY_MAX => next + value as usize,
        _ => 0,
    }
}

// Takes bytes of a piece behind the unfinished ones, up to and with the first that ends a message or shows a refusal.
#[tactic(auto, using(crate::proofs::piece::Skipping::skipping))]
pub fn take_piece(session: Session, piece: &[u8]) -> Part
    ensures { result ≡ take_piece session.connection (unfinished session) piece.now }
{
    let c = session.connection;
    let mut bytes = unfinished_bytes(session);
    let mut until = 0;
    for (i, b) in piece.iter().enumerate() {
        bytes.push(*b);
        if until <= bytes.len() {
            let u = bytes.as_slice();
            if !bytes_wait(c, u) {
                return Part {
                    bytes,
                    taken: i + 1,
                    ended: true,
                };
            }
            until = waits_until(c.phase, u);
        }
    }
    Part {
        bytes,
        taken: piece.len(),
        ended: false,
    }
}
