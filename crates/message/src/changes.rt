// What a message does that leaves the store as it is: accepted, or refused.
ghost use Rattle.std.specs.Prelude.{◌≡◌};
ghost use Rattle.message.specs.Effects.{note, refuse_with, refuse, refusal, failure_number, refuse_body};

use crate::{Asked, Change, Effect};
use body::{Failure, Fault};
use session::reply_bytes::refusal_reply;
use session::{Answer, Connection, Reply};

// An accepted message that leaves the store as it is.
#[tactic(auto, unfolding(crate::specs::Effects::note, crate::specs::Changes::no_change))]
pub fn note(connection: Connection, answer: Answer, reply: Reply) -> Effect
    ensures { result ≡ note connection answer reply }
{
    Effect {
        answer,
        reply,
        connection,
        change: Change::Nothing,
    }
}

// A message that is refused with a number: it closes the session, and changes nothing else.
#[tactic(auto, unfolding(crate::specs::Effects::note, crate::specs::Effects::refuse_with))]
fn refuse_with(connection: Connection, number: u8, answer: Answer) -> Effect
    ensures { result ≡ refuse_with connection number answer }
{
    let closed = session::close_connection(connection, number);
    note(closed, answer, refusal_reply(number))
}

// A message that is refused with a number alone.
#[tactic(auto, unfolding(crate::specs::Effects::refuse))]
pub fn refuse(connection: Connection, number: u8) -> Effect
    ensures { result ≡ refuse connection number }
{
    refuse_with(connection, number, Answer::Refused(number))
}

// The number of a failure.
#[tactic(auto, unfolding(crate::specs::Effects::failure_number))]
fn failure_number(failure: Failure) -> u8
    ensures { result ≡ failure_number failure }
{
    match failure {
        Failure::Short => 23,
        Failure::OutOfRange => 24,
        Failure::NotPlain => 30,
    }
}

// A message whose body can't be read, with the offset at which the failing field starts.
#[tactic(auto, unfolding(crate::specs::Effects::refuse_body))]
pub fn refuse_body(connection: Connection, fault: Fault) -> Effect
    ensures { result ≡ refuse_body connection fault }
{
    let number = failure_number(fault.failure);
    let answer = Answer::RefusedAt {
        number,
        offset: fault.start,
    };
    refuse_with(connection, number, answer)
}

// A refusal, asked before the entries are looked at.
#[tactic(auto, unfolding(crate::specs::Effects::refusal))]
pub fn ask_refusal(connection: Connection, number: u8) -> Asked
    ensures { result ≡ refusal connection number }
{
    Asked::Done(refuse(connection, number))
}
