// What a reading call gives back, for each way that it ends.
ghost use Rattle.std.specs.Prelude.{◌≡◌};
ghost use Rattle.session.specs.Session.{holding};
ghost use Rattle.reading.specs.Results.{stays, waits, gives, replied};

use lists::pad;
use message::{Change, Effect};
use session::{Answer, BUFFER, Connection, Outcome, Sending, Session};
use store::Store;

// What a reading call by value gives back: what the lent one returns, and the record and the store that it leaves.
#[derive(Clone, Copy)]
pub struct Step {
    pub outcome: Outcome,
    pub session: Session,
    pub store: Store,
}

// The same with the change of the store in place of the store.
#[derive(Clone, Copy)]
pub struct StepChange {
    pub outcome: Outcome,
    pub session: Session,
    pub change: Change,
}

// A record with the sending state, a connection, and unfinished bytes, zeros behind them.
#[tactic(auto, unfolding(session::specs::Session::holding))]
pub fn record_with(sending: Sending, connection: Connection, bytes: &[u8]) -> Session
    ensures { result ≡ holding sending connection bytes.now }
{
    let mut buffer = [0u8; BUFFER];
    pad(&mut buffer, bytes);
    let len = bytes.len();
    Session {
        connection,
        len,
        buffer,
        sending,
    }
}

// Nothing is taken: the record is the one that came, and the store stays.
#[tactic(auto, unfolding(crate::specs::Results::stays, message::specs::Changes::no_change))]
pub fn stay(session: Session, answer: Answer) -> StepChange
    ensures { result ≡ stays session answer }
{
    StepChange {
        outcome: Outcome {
            taken: 0,
            reply_len: 0,
            answer,
        },
        session,
        change: Change::Nothing,
    }
}

// The whole piece is taken, and more is wanted.
#[tactic(auto, unfolding(crate::specs::Results::waits, message::specs::Changes::no_change))]
pub fn wait(sending: Sending, connection: Connection, bytes: &[u8], count: usize) -> StepChange
    ensures { result ≡ waits sending connection bytes.now count }
{
    StepChange {
        outcome: Outcome {
            taken: count,
            reply_len: 0,
            answer: Answer::More,
        },
        session: record_with(sending, connection, bytes),
        change: Change::Nothing,
    }
}

// What a message did is answered; its reply stands at the front of the room, if both have room for it.
#[tactic(auto, unfolding(crate::specs::Results::gives, crate::specs::Results::replied))]
pub fn give(sending: Sending, effect: Effect, count: usize, reply: &mut [u8]) -> StepChange
    ensures result { result ≡ gives sending count effect }
    ensures content { reply.new ≡ replied effect.reply reply.old }
{
    let written = effect.reply;
    if written.len() <= 12 {
        wire::buffer::fit_bytes(reply, 0, written.as_slice());
    }
    StepChange {
        outcome: Outcome {
            taken: count,
            reply_len: written.len(),
            answer: effect.answer,
        },
        session: record_with(sending, effect.connection, b""),
        change: effect.change,
    }
}
