// The reading call: one session record, one store, a piece of the stream and room for a reply.
#![tactic(auto)]

pub mod counts;
pub mod finish;
pub mod results;
pub mod start;

ghost use Rattle.receiver.specs.Promise.{ReadPromise};

pub use crate::finish::REPLY_ROOM;
use crate::finish::finish_read;
pub use crate::results::Step;
use crate::start::start_read;
use message::Change;
use message::commit::sought;
use session::{Outcome, Session};
use store::lent::store_shaped;
use store::{ENTRIES, Store, TABLES};
use store_scan::{Query, scan};

// Reads bytes of a piece up to and with the first that ends a message or shows a refusal, else all of it. Record and store are lent, and
// hold the new state afterwards. Tables and counts are copied; the entries are tested and looked up where they lie.
pub fn read_lent(
    session: &mut Session,
    store: &mut Store,
    piece: &[u8],
    reply: &mut [u8],
) -> Outcome
    ensures { ReadPromise session.old store.old (record { piece = piece.entry.now; room = reply.old; outcome = result; session = session.new; store = store.new; final = reply.new }) }
{
    store_shaped(store);
    let tables = store.tables;
    let started = start_read(*session, tables, piece);
    let entry = sought(started.asked);
    let scanned = scan(store, Query { tables, entry });
    let counts = store.counts;
    let finished = finish_read(*session, started, scanned, counts, reply);
    *session = finished.session;
    let counts = finished.counts;
    store.counts = counts;
    match finished.change {
        Change::Nothing => {}
        Change::Table { place, table } => {
            if place < TABLES {
                store.tables[place] = table;
            }
        }
        Change::Entry { place, entry } => {
            if place < ENTRIES {
                store.entries[place] = entry;
            }
        }
    }
    finished.outcome
}

// The same by value: record and store are lent where they lie in the step, which is returned with the new outcome.
pub fn read(mut step: Step, piece: &[u8], reply: &mut [u8]) -> Step
    ensures { ReadPromise step.session step.store (record { piece = piece.entry.now; room = reply.old; outcome = result.outcome; session = result.session; store = result.store; final = reply.new }) }
{
    step.outcome = read_lent(&mut step.session, &mut step.store, piece, reply);
    step
}
