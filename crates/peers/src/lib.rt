// The library for hosts in C and Rust: opening, reading, sending, passing time, an empty store and the version, each defined on every input.
// An enum can't cross the border to C, so an answer goes as its number and values.
#![tactic(auto)]

pub mod numbers;

ghost use Rattle.std.specs.Prelude.{◌≡◌, length};
ghost use Rattle.store.specs.Store.{empty_store};
ghost use Rattle.store.specs.Time.{PassPromise};
ghost use Rattle.opening.specs.Opening.{answerer, caller, «open», open_room, opened_of};
ghost use Rattle.peers.specs.Numbers.{raw_opened};
ghost use Rattle.peers.specs.Reading.{RawPromise};
ghost use Rattle.sending.specs.Sending.{definition, entry};
ghost use Rattle.peers.specs.Sending.{RawSendPromise};
ghost use Rattle.peers.specs.Version.{archive_version};

use crate::numbers::{RawOpened, RawOutcome, RawSent};
use passing::pass_lent;
use reading::read_lent;
use sending::{Ask, send_lent};
use session::Session;
use store::Store;

// The version of the calls, and that of the structs' layout.
const VERSION: u32 = 7;

const LAYOUT: u32 = 5;

// What this archive was built as, so that a header or a wrapper of another version is noticed.
#[tactic(auto, unfolding(crate::specs::Version::archive_version, crate::specs::Version::version, crate::specs::Version::layout))]
#[unsafe(no_mangle)]
pub extern "C" fn peers_version() -> u32
    ensures { result ≡ archive_version }
{
    VERSION * 65536 + LAYOUT
}

// A store without tables and entries.
#[unsafe(no_mangle)]
pub extern "C" fn peers_empty_store() -> Store
    ensures { result ≡ empty_store }
{
    store::empty_store()
}

// Opens a session that awaits a hello. Nothing is written to the room.
#[unsafe(no_mangle)]
pub extern "C" fn peers_open_answerer(local: &[u8], remote: &[u8], room: &mut [u8]) -> RawOpened
    ensures result { result ≡ raw_opened (opened_of («open» answerer local.now remote.now (length room.old))) }
    ensures content { room.new ≡ open_room answerer local.now remote.now room.old }
{
    RawOpened::from(opening::open_answerer(local, remote, room))
}

// Opens a session that awaits a status. The caller's hello stands at the front of the room.
#[unsafe(no_mangle)]
pub extern "C" fn peers_open_caller(
    local: &[u8],
    remote: &[u8],
    process: u32,
    relative: u32,
    room: &mut [u8],
) -> RawOpened
    ensures result { result ≡ raw_opened (opened_of («open» (caller process relative) local.now remote.now (length room.old))) }
    ensures content { room.new ≡ open_room (caller process relative) local.now remote.now room.old }
{
    RawOpened::from(opening::open_caller(local, remote, process, relative, room))
}

// The reading call: record and store are lent, and hold the new state afterwards.
#[unsafe(no_mangle)]
pub extern "C" fn peers_read(
    session: &mut Session,
    store: &mut Store,
    piece: &[u8],
    reply: &mut [u8],
) -> RawOutcome
    ensures { RawPromise session.old store.old (record { piece = piece.entry.now; room = reply.old; outcome = result; session = session.new; store = store.new; final = reply.new }) }
{
    RawOutcome::from(read_lent(session, store, piece, reply))
}

// Passes milliseconds on a lent store: 0; or 4, and nothing is changed, where the store isn't sound.
#[unsafe(no_mangle)]
pub extern "C" fn peers_pass_time(store: &mut Store, milliseconds: u32) -> u32
    ensures { PassPromise store.old (record { milliseconds = milliseconds; number = result; store = store.new }) }
{
    pass_lent(store, milliseconds)
}

// Writes the definition of the table at a place, with this ID, to the front of the room: 0 and its length, or the refusal's number and 0.
#[unsafe(no_mangle)]
pub extern "C" fn peers_send_definition(
    session: &mut Session,
    store: &Store,
    place: usize,
    id: u32,
    room: &mut [u8],
) -> RawSent
    ensures { RawSendPromise session.old store.now (record { asked = definition place id; room = room.old; outcome = result; session = session.new; final = room.new }) }
{
    RawSent::from(send_lent(session, store, Ask::Definition { place, id }, room))
}

// Writes the entry at a place, with this update ID, to the front of the room: 0 and its length, or the refusal's number and 0.
#[unsafe(no_mangle)]
pub extern "C" fn peers_send_entry(
    session: &mut Session,
    store: &Store,
    place: usize,
    id: u32,
    room: &mut [u8],
) -> RawSent
    ensures { RawSendPromise session.old store.now (record { asked = entry place id; room = room.old; outcome = result; session = session.new; final = room.new }) }
{
    RawSent::from(send_lent(session, store, Ask::Entry { place, id }, room))
}
