// The end of a reading call: what was asked is done by what the entries said, and what is to be put into the store is told.
ghost use Rattle.std.specs.Prelude.{◌≡◌, length};
ghost use Rattle.reading.specs.Finish.{end_of, end_step, end_room, finished_as};

use crate::counts::answered_counts;
use crate::results::{StepChange, give, stay, wait};
use crate::start::Started;
use message::Change;
use message::commit::finish_at;
use session::{Answer, Outcome, Session};
use store::TABLES;
use store::entries::Place;

// The least room for a reply.
pub const REPLY_ROOM: usize = 12;

// What is left to do: the outcome to return, the new record, the new counts, and the change of the store.
#[derive(Clone, Copy)]
pub struct Finished {
    pub outcome: Outcome,
    pub session: Session,
    pub counts: [u32; TABLES],
    pub change: Change,
}

// A reading call's end, by what its start and the scan of the entries said. The refusals are answered in the order 1, 4, 2.
#[tactic(auto, unfolding(crate::specs::Finish::end_of, crate::specs::Finish::end_at, crate::specs::Finish::end_step, crate::specs::Finish::end_room, session::specs::Session::is_closed))]
fn finish_change(
    session: Session,
    started: Started,
    scanned: Option<Place>,
    reply: &mut [u8],
) -> StepChange
    ensures { (result ≡ end_step session started.part (end_of session started scanned (length reply.old))) × (reply.new ≡ end_room reply.old (end_of session started scanned (length reply.old))) }
{
    if reply.len() < REPLY_ROOM {
        return stay(session, Answer::Refused(1));
    }
    if !started.sound {
        return stay(session, Answer::Refused(4));
    }
    let Some(place) = scanned else {
        return stay(session, Answer::Refused(4));
    };
    let connection = session.connection;
    if connection.closed == 1 {
        return stay(session, Answer::Refused(2));
    }
    let part = started.part;
    if part.taken == 0 {
        return stay(session, Answer::More);
    }
    if part.ended {
        let effect = finish_at(connection, place, started.asked);
        return give(session.sending, effect, part.taken, reply);
    }
    wait(
        session.sending,
        connection,
        part.bytes.as_slice(),
        part.taken,
    )
}

// The end of the call, and what is put into the store.
#[tactic(auto, unfolding(crate::specs::Finish::finished_as))]
pub fn finish_read(
    session: Session,
    started: Started,
    scanned: Option<Place>,
    counts: [u32; TABLES],
    reply: &mut [u8],
) -> Finished
    ensures { (result ≡ finished_as counts (end_step session started.part (end_of session started scanned (length reply.old)))) × (reply.new ≡ end_room reply.old (end_of session started scanned (length reply.old))) }
{
    let step = finish_change(session, started, scanned, reply);
    let counts = answered_counts(counts, step.outcome.answer);
    Finished {
        outcome: step.outcome,
        session: step.session,
        counts,
        change: step.change,
    }
}
