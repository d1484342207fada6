// Lists what a peer sends: standard input is read as answerer `east`, which accepts `west`, in pieces as they come.
// The last line, `end`, is left out where a read or a write failed.
#![tactic(auto)]

use listing::end::put_end;
use listing::put_call;
use opening::{OPENING_ROOM, open_answerer};
use reading::{REPLY_ROOM, Step, read};
use session::{Connection, Outcome, Session};
use store::{TABLES, Table};
use text::arguments::{none_given, words};
use text::front;
use text::input::{InputError, next_of, read_some};
use text::output::{Page, flush, room_at, write};
use wire::writer::Writer;

// More than any call's lines need.
const MARGIN: usize = 1024;

// For a piece, and for its lines.
const ROOM: usize = 65_536;

// A read or a write failed, which is told already.
#[derive(Clone, Copy)]
struct Failed;

// The lines of a call.
fn put_lines(
    rt: &(impl Print + Eprint),
    out: &mut [u8],
    page: Page,
    connection: Connection,
    tables: [Table; TABLES],
    outcome: Outcome,
    reply: &[u8],
) -> Page {
    let p = room_at(rt, out, page, MARGIN);
    let mut w = Writer {
        room: out,
        at: p.next,
    };
    put_call(
        &mut w,
        connection,
        tables,
        outcome.answer,
        reply,
        outcome.reply_len,
    );
    Page { next: w.at, ..p }
}

// A piece, offered until all of it is taken, a call takes nothing, as on a closed session, or a write failed. The step goes to the
// call whole and from the loop itself: taken apart, or passed on by another function, it would be copied once more.
fn list_piece(
    rt: &(impl Print + Eprint),
    given: Step,
    piece: &[u8],
    out: &mut [u8],
) -> Result<Step, Failed> {
    let mut step = given;
    let mut page = Page {
        next: 0,
        written: true,
    };
    let mut reply = [0u8; REPLY_ROOM];
    let mut rest = piece;
    while !rest.is_empty() {
        step = read(step, rest, &mut reply);
        let outcome = step.outcome;
        let session = step.session;
        let connection = session.connection;
        let store = step.store;
        let tables = store.tables;
        page = put_lines(rt, out, page, connection, tables, outcome, &reply);
        let taken = outcome.taken;
        if taken == 0 || connection.closed == 1 || !page.written || rest.len() < taken {
            break;
        }
        rest = &rest[taken..];
    }
    if flush(rt, out, page).written {
        return Ok(step);
    }
    Err(Failed)
}

// What comes is listed in pieces, until the input ends, a call takes nothing or the session is closed. Nothing says that an input ends, so
// the turns are bounded by a number that no run uses up.
fn list_all(
    rt: &(impl Input + Print + Eprint),
    given: Step,
    out: &mut [u8],
) -> Result<Session, Failed> {
    let mut step = given;
    let mut buffer = [0u8; ROOM];
    for _ in 0..u64::MAX {
        match next_of(read_some(rt, &mut buffer)) {
            Ok(Some(n)) => {
                step = list_piece(rt, step, front(&buffer, n), out)?;
                if step.outcome.taken == 0 || step.session.connection.closed == 1 {
                    break;
                }
            }
            Ok(None) => {}
            Err(InputError::End) => break,
            Err(InputError::Failed) => return Err(Failed),
        }
    }
    Ok(step.session)
}

fn main(rt: HostRuntime) {
    if !none_given(&rt, &rt.stderr(), b"peerlist", words(&rt)) {
        return;
    }
    let mut room = [0u8; OPENING_ROOM];
    let opened = open_answerer(b"east", b"west", &mut room);
    let session = opened.session;
    let store = store::empty_store();
    let outcome = opened.outcome;
    let step = Step {
        outcome,
        session,
        store,
    };
    let mut out = [0u8; ROOM];
    if let Ok(last) = list_all(&rt, step, &mut out) {
        let mut w = Writer {
            room: &mut out,
            at: 0,
        };
        put_end(&mut w, last);
        let n = w.at;
        write(&rt, &out, n);
    }
}
