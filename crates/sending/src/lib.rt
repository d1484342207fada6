// The sending half: a definition of a table, and then its entries, each as one whole message. Record and store are lent; the store is only read.
#![tactic(auto)]

pub mod finish;
pub mod messages;
pub mod plans;

ghost use Rattle.sending.specs.Sending.{Askable, SendPromise};
ghost use Rattle.std.specs.Prelude.{◌≡◌};
ghost use Rattle.sending.specs.Finish.{asked_by, place_of};

use crate::finish::finish_send;
use session::Session;
use session::lent::session_shaped;
use store::Store;
use store::lent::store_shaped;
use store_scan::{entry_at, store_ok};

// What is asked for: the definition of the table at a place, with this ID, or the entry at a place, with this update ID.
#[derive(Clone, Copy, Debug, PartialEq, Eq)]
pub enum Ask {
    Definition { place: usize, id: u32 },
    Entry { place: usize, id: u32 },
}

// What sending by value gives back: what the lent call returns, and the record that it leaves.
#[derive(Clone, Copy)]
pub struct Step {
    pub sent: Result<usize, u8>,
    pub session: Session,
}

// The place that is asked for. Place and ID are numbers of their types.
#[tactic(auto, unfolding(crate::specs::Finish::place_of, crate::specs::Finish::asked_by, crate::specs::Sending::Askable))]
fn place_of(ask: Ask) -> usize
    ensures value { result ≡ place_of ask }
    ensures askable { Askable (asked_by ask) }
{
    match ask {
        Ask::Definition { place, id: _ } => place,
        Ask::Entry { place, id: _ } => place,
    }
}

// Writes one whole message to the front of the room, and answers its length, or the refusal's number. For a definition the entry at its
// place is copied too, and not looked at.
pub fn send_lent(
    session: &mut Session,
    store: &Store,
    ask: Ask,
    room: &mut [u8],
) -> Result<usize, u8>
    ensures { SendPromise session.old store.now (record { asked = asked_by ask; room = room.old; result = result; session = session.new; final = room.new }) }
{
    // What the types of store and record say, which the promise repeats. Neither call has code.
    store_shaped(store);
    session_shaped(session);
    let sound = store_ok(store);
    let tables = store.tables;
    let entry = entry_at(store, place_of(ask));
    let (len, sending) = finish_send(*session, sound, tables, ask, entry, room)?;
    session.sending = sending;
    Ok(len)
}

// The same by value. The record is lent where it lies in the step that is returned.
pub fn send(session: Session, store: Store, ask: Ask, room: &mut [u8]) -> Step
    ensures { SendPromise session store (record { asked = asked_by ask; room = room.old; result = result.sent; session = result.session; final = room.new }) }
{
    let mut step = Step {
        sent: Err(0),
        session,
    };
    step.sent = send_lent(&mut step.session, &store, ask, room);
    step
}
