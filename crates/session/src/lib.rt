// The session record, one for each connection: what reading and sending need to know between two calls, as plain numbers; and what a call
// answers.
// The lender of a record can put any number anywhere: `session_ok`, of the crate `session_soundness`, says whether it is one that the rules allow with a store.
#![tactic(auto)]

pub mod answers;
pub mod bound_ids;
pub mod lent;
pub mod reply_bytes;

ghost use Rattle.std.specs.Prelude.{◌≡◌, ◌≤◌, length};
ghost use Rattle.session.specs.Session.{unfinished_max, unfinished, closed_with, establish, current_of, make_current, nothing_sent};

use handshake::PEER_NAME_MAX;
use lists::inline::Bytes;
use store::TABLES;

// ---- limits

// Unfinished bytes are at most 194 of a hello, 3 of a status, 1,027 of a message.
pub const UNFINISHED_MAX: usize = 1027;

// The bytes of a record's buffer: five more, so that the record has no padding.
pub const BUFFER: usize = 1032;

// The phases of a session: a hello is awaited, a status is awaited, the handshake is done (numbers for the C interface).
pub const AWAITING_HELLO: u32 = 0;

pub const AWAITING_STATUS: u32 = 1;

pub const ESTABLISHED: u32 = 2;

// ---- the records, as C holds them: flags, places plus 1 and arrays with a length beside (the C interface)

// What the session knows of the table at a place: the ID that the sender bound to it, where `bound` is 1, and the ID of its last
// committed update, where `updated` is 1.
#[repr(C)]
#[derive(Clone, Copy, PartialEq, Eq, Default)]
pub struct Binding {
    pub bound: u32,
    pub updated: u32,
    pub id: u32,
    pub previous: u32,
}

// The record but for its unfinished bytes. `closed` is 1 for a closed session, and `number` is then the number it was closed with.
// `current` is 0 for no current table, else its place plus 1. Only the first bytes of a name's array are the name.
#[repr(C)]
#[derive(Clone, Copy)]
pub struct Connection {
    pub phase: u32,
    pub closed: u32,
    pub number: u32,
    pub current: u32,
    pub local_len: usize,
    pub remote_len: usize,
    pub local: [u8; PEER_NAME_MAX],
    pub remote: [u8; PEER_NAME_MAX],
    pub bindings: [Binding; TABLES],
}

// The sending state between two calls. `defined` is 0 where no table was defined to the peer, else the place of the one defined last plus 1.
// `sent` is 1 where an entry was sent since that definition, and `last` is then the update ID of the last one.
#[repr(C)]
#[derive(Clone, Copy, PartialEq, Eq, Default)]
pub struct Sending {
    pub defined: usize,
    pub sent: u32,
    pub last: u32,
}

// The session record. The first `len` bytes of `buffer` are the unfinished bytes. Reading uses all of it but `sending`.
#[repr(C)]
#[derive(Clone, Copy)]
pub struct Session {
    pub connection: Connection,
    pub len: usize,
    pub buffer: [u8; BUFFER],
    pub sending: Sending,
}

// ---- answers

// How an update was committed: a new entry, or a known one whose values were replaced.
#[derive(Clone, Copy)]
pub enum Commit {
    New,
    Replaced,
}

// What a call answers: more bytes are wanted, a message of some kind with its fields, or a refusal with its number and, where a body can't
// be read, the offset in the body at which the failing field starts. A refusal's number is the document's, as the theorems and C have it.
#[derive(Clone, Copy)]
pub enum Answer {
    More,
    Hello {
        process: u32,
        relative: u32,
    },
    Status,
    Request,
    Finished,
    Partial,
    Confirmed,
    Heartbeat,
    Error(u8),
    Table(usize),
    Switch(usize),
    Update {
        table: usize,
        id: u32,
        entry: usize,
        commit: Commit,
    },
    Acknowledgement {
        id: u32,
        update: u32,
    },
    Skipped(u8),
    Refused(u8),
    RefusedAt {
        number: u8,
        offset: usize,
    },
}

// What a call gives back: the bytes taken, the reply's length and the answer.
#[derive(Clone, Copy)]
pub struct Outcome {
    pub taken: usize,
    pub reply_len: usize,
    pub answer: Answer,
}

// An answer's values: the first `count` of `numbers`, zeros after them, as the C record of an outcome holds them (the C interface).
#[derive(Clone, Copy)]
pub struct Values {
    pub numbers: [u64; 4],
    pub count: u32,
}

// A reply: no reply of a call is longer than twelve bytes. One that is can be given, and isn't put (`reading::results::give`).
pub type Reply = Bytes<16>;

// ---- the sending state

// No table was defined, and no entry sent.
#[tactic(auto, unfolding(crate::specs::Session::nothing_sent))]
pub fn nothing_sent() -> Sending
    ensures { result ≡ nothing_sent }
{
    Sending::default()
}

// ---- the unfinished bytes

// How many bytes of a record are unfinished: no more than the limit, whatever its length says.
pub fn unfinished_len(session: Session) -> usize
    ensures { (result ≡ length (unfinished session)) × (result ≤ unfinished_max) }
{
    session.len.min(UNFINISHED_MAX)
}

// ---- changes of a connection

// The connection closed with a number; all else stays.
#[tactic(auto, unfolding(crate::specs::Session::closed_with))]
pub fn close_connection(c: Connection, number: u8) -> Connection
    ensures { result ≡ closed_with c number }
{
    Connection {
        closed: 1,
        number: u32::from(number),
        ..c
    }
}

// The connection after an accepted hello or status.
#[tactic(auto, unfolding(crate::specs::Session::establish))]
pub fn establish_connection(c: Connection) -> Connection
    ensures { result ≡ establish c }
{
    Connection {
        phase: ESTABLISHED,
        ..c
    }
}

// What `current` holds for the table at a place: its place plus 1, and 0 past the last place.
#[tactic(auto, unfolding(crate::specs::Session::current_of))]
pub fn current_of(place: usize) -> u32
    ensures { result ≡ current_of place }
{
    if place < TABLES {
        (place + 1) as u32
    } else {
        0
    }
}

// The connection with the table at a place as its current one.
#[tactic(auto, unfolding(crate::specs::Session::make_current, crate::specs::Session::with_tables))]
pub fn make_current(c: Connection, place: usize) -> Connection
    ensures { result ≡ make_current c place }
{
    Connection {
        current: current_of(place),
        ..c
    }
}
