// Runs a script of commands from standard input through the library, and writes what each gives. A command is a byte and what follows it:
//   O ROLE                 a new session, 0 as answerer and 1 as caller, and an empty store: `open`, then the reply
//   N ROLE                 a new session on the store as it stands: the same
//   C ROOM LENGTH PIECE    a reading call on a piece of LENGTH bytes (two, big-endian), with so much room for the reply, filled with AA:
//                          `took N`, the answer's line (`more` for more wanted), the reply, `spoiled` if a byte past the reply changed
//   T MILLISECONDS         so many milliseconds (four bytes, big-endian) pass on the store: `passed 0`, or `passed 4` where it isn't sound
//   P PLACE ID ROOM        the definition of the table at a place (a byte) with an ID (four bytes, big-endian) is sent, with so much room
//                          (two bytes, big-endian), filled with AA: `sent` and the message, or `refused N`; `spoiled` if a byte past the
//                          message, or any byte in a refused call, changed
//   E PLACE ID ROOM        the entry at a place with an update ID is sent: the same
//   D                      a dump of record and store
// Anything else ends the script, and so do all but O before the first O and the end of the input: `end`. That line is left out where a
// read or a write failed.
#![tactic(auto)]

ghost use Rattle.std.specs.Prelude.{◌≡◌};

use dump::counts::put_counts;
use dump::lines::{put_entry, put_table};
use dump::record_lines::put_record;
use listing::answer::put_answer;
use listing::reply::put_reply;
use opening::{OPENING_ROOM, open_answerer, open_caller};
use passing::pass;
use reading::{Step, read};
use sending::{Ask, send};
use store::Store;
use store::tables::table_at;
use text::arguments::{none_given, words};
use text::front;
use text::input::{InputError, fill};
use text::output::{Page, flush, room_at};
use text::spaced::{put_decimal_word, put_hex_word};
use wire::writer::Writer;

// More than the lines of one command, or of one entry, need.
const MARGIN: usize = 4096;

// For a piece, for a message and for the lines.
const ROOM: usize = 65_536;

// The lines that aren't written yet, and whether all before them were written.
#[derive(Clone, Copy)]
struct Output {
    room: [u8; ROOM],
    page: Page,
}

impl Output {
    // What `lines` puts at a position of the room. It takes no `Writer`: a call through a bound says nothing of the room that one has afterwards.
    fn put<F: Fn(&mut [u8], usize) -> usize + Drop>(&mut self, rt: &(impl Print + Eprint), lines: F)
        requires { F.IsAlwaysCallable lines }
    {
        self.page = room_at(rt, &self.room, self.page, MARGIN);
        self.page.next = lines(&mut self.room, self.page.next);
    }

    fn flush(&mut self, rt: &(impl Print + Eprint)) {
        self.page = flush(rt, &self.room, self.page);
    }
}

// The next N bytes of the script.
fn bytes<const N: usize>(rt: &(impl Input + Eprint)) -> Result<[u8; N], InputError> {
    let mut bytes = [0u8; N];
    fill(rt, &mut bytes)?;
    Ok(bytes)
}

// ---- opening

fn open_session(
    rt: &(impl Input + Print + Eprint),
    store: Store,
    output: &mut Output,
) -> Result<Step, InputError> {
    let [role] = bytes::<1>(rt)?;
    let mut room = [0u8; OPENING_ROOM];
    let opened = match role {
        0 => open_answerer(b"east", b"west", &mut room),
        1 => open_caller(b"east", b"west", 7, 0, &mut room),
        _ => return Err(InputError::End),
    };
    let session = opened.session;
    let outcome = opened.outcome;
    output.put(rt, |lines, at| {
        let mut w = Writer { room: lines, at };
        w.put(b"open\n");
        put_reply(&mut w, &room, outcome.reply_len);
        w.at
    });
    Ok(Step {
        outcome,
        session,
        store,
    })
}

// ---- a reading call

// Whether all bytes from a position on are AA.
fn untouched(room: &[u8], from: usize) -> bool {
    room.len() <= from || room[from..].iter().all(|b| *b == 0xaa)
}

// The lines of a call.
fn put_call(room: &mut [u8], at: usize, step: &Step, reply: &[u8]) -> usize {
    let outcome = step.outcome;
    let connection = step.session.connection;
    let tables = step.store.tables;
    let mut w = Writer { room, at };
    w.put(b"took");
    put_decimal_word(&mut w, outcome.taken as u64);
    w.put(b"\n");
    put_answer(&mut w, connection, tables, outcome.answer);
    put_reply(&mut w, reply, outcome.reply_len);
    if untouched(reply, outcome.reply_len) {
        return w.at;
    }
    w.put(b"spoiled\n");
    w.at
}

fn call(
    rt: &(impl Input + Print + Eprint),
    step: &mut Step,
    output: &mut Output,
) -> Result<(), InputError> {
    let [room, high, low] = bytes::<3>(rt)?;
    let mut buffer = [0u8; ROOM];
    let piece = &mut buffer[..u16::from_be_bytes([high, low]) as usize];
    fill(rt, piece)?;
    let mut reply = [0xaau8; 256];
    *step = read(*step, piece, &mut reply[..room as usize]);
    output.put(rt, |lines, at| put_call(lines, at, &*step, &reply));
    Ok(())
}

// ---- passing time

fn pass_time(
    rt: &(impl Input + Print + Eprint),
    step: &mut Step,
    output: &mut Output,
) -> Result<(), InputError> {
    let passed = pass(step.store, u32::from_be_bytes(bytes::<4>(rt)?));
    let store = passed.store;
    step.store = store;
    output.put(rt, |lines, at| {
        let mut w = Writer { room: lines, at };
        w.put(b"passed");
        put_decimal_word(&mut w, passed.number as u64);
        w.put(b"\n");
        w.at
    });
    Ok(())
}

// ---- sending

// What was sent, or the refusal's number.
fn put_sent_word(w: &mut Writer<'_>, sent: Result<usize, u8>, room: &[u8])
    ensures { w.new.room.ghost_name ≡ w.old.room.ghost_name }
{
    match sent {
        Ok(len) => {
            w.put(b"sent");
            put_hex_word(w, front(room, len));
        }
        Err(number) => {
            w.put(b"refused");
            put_decimal_word(w, number as u64);
        }
    }
}

// The lines of a sending call.
fn put_sent(lines: &mut [u8], at: usize, sent: Result<usize, u8>, room: &[u8]) -> usize {
    let mut w = Writer { room: lines, at };
    put_sent_word(&mut w, sent, room);
    w.put(b"\n");
    if untouched(room, sent.unwrap_or(0)) {
        return w.at;
    }
    w.put(b"spoiled\n");
    w.at
}

// What is asked for with a place and an ID is sent.
fn send_message<F: Fn(usize, u32) -> Ask + Drop>(
    rt: &(impl Input + Print + Eprint),
    step: &mut Step,
    ask: F,
    output: &mut Output,
) -> Result<(), InputError>
    requires { F.IsAlwaysCallable ask }
{
    let [place, a, b, c, d, high, low] = bytes::<7>(rt)?;
    let asked = ask(place as usize, u32::from_be_bytes([a, b, c, d]));
    let n = u16::from_be_bytes([high, low]) as usize;
    let mut room = [0xaau8; ROOM];
    let s = send(step.session, step.store, asked, &mut room[..n]);
    let session = s.session;
    let sent = s.sent;
    step.session = session;
    let lent = &room[..n];
    output.put(rt, |lines, at| put_sent(lines, at, sent, lent));
    Ok(())
}

// ---- a dump

fn dump(rt: &(impl Print + Eprint), step: &Step, output: &mut Output) {
    let session = step.session;
    let store = step.store;
    let tables = store.tables;
    let counts = store.counts;
    let entries = store.entries;
    output.put(rt, |lines, at| {
        let mut w = Writer { room: lines, at };
        put_record(&mut w, session);
        w.at
    });
    for (place, t) in tables.iter().enumerate() {
        output.put(rt, |lines, at| {
            let mut w = Writer { room: lines, at };
            put_table(&mut w, place, *t);
            w.at
        });
    }
    output.put(rt, |lines, at| {
        let mut w = Writer { room: lines, at };
        put_counts(&mut w, counts);
        w.at
    });
    for (place, e) in entries.iter().enumerate() {
        let types = table_at(tables, e.table).data_types;
        output.put(rt, |lines, at| {
            let mut w = Writer { room: lines, at };
            put_entry(&mut w, place, types, *e);
            w.at
        });
    }
}

// ---- the script

// The next command. Step and output are lent, and left as they were where the script ends.
fn command(
    rt: &(impl Input + Print + Eprint),
    step: &mut Step,
    output: &mut Output,
) -> Result<(), InputError> {
    match bytes::<1>(rt)? {
        [b'O'] => *step = open_session(rt, store::empty_store(), output)?,
        [b'N'] => *step = open_session(rt, step.store, output)?,
        [b'C'] => call(rt, step, output)?,
        [b'T'] => pass_time(rt, step, output)?,
        [b'P'] => send_message(rt, step, |place, id| Ask::Definition { place, id }, output)?,
        [b'E'] => send_message(rt, step, |place, id| Ask::Entry { place, id }, output)?,
        [b'D'] => dump(rt, &*step, output),
        _ => return Err(InputError::End),
    }
    Ok(())
}

// Nothing says that a script ends, so the turns are bounded by a number that no run uses up.
fn run_all(rt: &(impl Input + Print + Eprint), output: &mut Output) -> Result<(), InputError> {
    if bytes::<1>(rt)? != [b'O'] {
        return Err(InputError::End);
    }
    let mut step = open_session(rt, store::empty_store(), output)?;
    for _ in 0..u64::MAX {
        command(rt, &mut step, output)?;
        if !output.page.written {
            return Ok(());
        }
    }
    Ok(())
}

fn main(rt: HostRuntime) {
    if !none_given(&rt, &rt.stderr(), b"replay", words(&rt)) {
        return;
    }
    let mut output = Output {
        room: [0; ROOM],
        page: Page {
            next: 0,
            written: true,
        },
    };
    // A failed write is seen by `flush`.
    if run_all(&rt, &mut output) != Err(InputError::Failed) {
        output.put(&rt, |lines, at| {
            let mut w = Writer { room: lines, at };
            w.put(b"end\n");
            w.at
        });
    }
    output.flush(&rt);
}
