// Runs the cases of document 01 that are not in the proved table, each refusal, and each side of the rules of requests 1, 2 and 8: key
// types, remaining times and table names. A line with # says what is tried; the lines below it are those of the listing, with `more` for
// more wanted, `passed` and the number for time that passes, then the entries afterwards where values or times are tried, and where a call
// has to change nothing, how many bytes it took and the record's lines afterwards.
#![tactic(auto)]

use dump::lines::put_entry;
use dump::record_lines::put_record;
use listing::answer::put_answer;
use listing::reply::put_reply;
use opening::{OPENING_ROOM, Opened, open_answerer, open_caller};
use passing::pass;
use reading::{REPLY_ROOM, Step, read};
use session::{Answer, Session};
use store::Store;
use text::output::write;
use wire::fixed::write_number;
use wire::writer::Writer;

// For the lines of a call.
const ROOM: usize = 4096;

// ---- output

fn title(rt: &impl Print, text: &str) {
    let _ = println!(rt; "# {text}");
}

fn show_record(rt: &(impl Print + Eprint), session: Session) {
    let mut out = [0u8; ROOM];
    let mut w = Writer {
        room: &mut out,
        at: 0,
    };
    put_record(&mut w, session);
    let n = w.at;
    write(rt, &out, n);
}

// The lines of an answer and of the reply, the first n bytes of a room.
fn show_answer(
    rt: &(impl Print + Eprint),
    session: Session,
    store: Store,
    answer: Answer,
    room: &[u8],
    n: usize,
) {
    let mut out = [0u8; ROOM];
    let connection = session.connection;
    let tables = store.tables;
    let mut w = Writer {
        room: &mut out,
        at: 0,
    };
    put_answer(&mut w, connection, tables, answer);
    put_reply(&mut w, room, n);
    let end = w.at;
    write(rt, &out, end);
}

// The entries at places 0 and 1, of a table with these data types.
fn show_entries(rt: &(impl Print + Eprint), store: Store, types: u32) {
    let mut out = [0u8; ROOM];
    let entries = store.entries;
    let first = entries[0];
    let second = entries[1];
    let mut w = Writer {
        room: &mut out,
        at: 0,
    };
    put_entry(&mut w, 0, types, first);
    put_entry(&mut w, 1, types, second);
    let n = w.at;
    write(rt, &out, n);
}

// ---- calls

// One reading call; its lines are written if they are to be shown, which the caller says in a word.
fn call(
    rt: &(impl Print + Eprint),
    given: Step,
    piece: &[u8],
    room: &mut [u8],
    shown: bool,
) -> Step {
    let step = read(given, piece, room);
    let outcome = step.outcome;
    let answer = outcome.answer;
    if shown {
        let session = step.session;
        let store = step.store;
        show_answer(rt, session, store, answer, room, outcome.reply_len);
    }
    step
}

// Calls on the bytes until all are taken or the session is closed.
fn feed(rt: &(impl Print + Eprint), given: Step, bytes: &[u8], shown: bool) -> Step {
    let mut room = [0u8; REPLY_ROOM];
    let mut r = given;
    let mut rest = bytes;
    while !rest.is_empty() {
        r = call(rt, r, rest, &mut room, shown);
        let taken = r.outcome.taken;
        if taken == 0 || rest.len() < taken || r.session.connection.closed == 1 {
            return r;
        }
        rest = &rest[taken..];
    }
    r
}

fn opened(o: Opened) -> Step {
    let outcome = o.outcome;
    let session = o.session;
    let store = store::empty_store();
    Step {
        outcome,
        session,
        store,
    }
}

fn answerer() -> Step {
    let mut room = [0u8; OPENING_ROOM];
    opened(open_answerer(b"east", b"west", &mut room))
}

// A session after its hello.
fn greeted(rt: &(impl Print + Eprint)) -> Step {
    feed(rt, answerer(), b"HAProxyS 2.1\neast\nwest 7 0\n", false)
}

// ---- cases

// What the bytes come to after the hello.
fn after_hello(rt: &(impl Print + Eprint), text: &str, bytes: &[u8]) {
    title(rt, text);
    feed(rt, greeted(rt), bytes, true);
}

fn as_hello(rt: &(impl Print + Eprint), text: &str, bytes: &[u8]) {
    title(rt, text);
    feed(rt, answerer(), bytes, true);
}

fn as_status(rt: &(impl Print + Eprint), text: &str, bytes: &[u8]) {
    let mut room = [0u8; OPENING_ROOM];
    title(rt, text);
    feed(
        rt,
        opened(open_caller(b"east", b"west", 7, 0, &mut room)),
        bytes,
        true,
    );
}

// What the bytes come to on a table with these data types, and its entries.
fn on_table(rt: &(impl Print + Eprint), text: &str, given: Step, types: u32, bytes: &[u8]) {
    title(rt, text);
    let r = feed(rt, given, bytes, true);
    show_entries(rt, r.store, types);
}

// ---- server IDs

// An update of a table whose only data type is 0.
fn server_id(rt: &(impl Print + Eprint), text: &str, update: &[u8]) {
    let given = feed(rt, greeted(rt), b"\x0a\x82\x06\x01\x01t\x02\x04\x01", false);
    on_table(rt, text, given, 1, update);
}

fn server_ids(rt: &(impl Print + Eprint)) {
    server_id(
        rt,
        "server ID 2^31 - 1",
        b"\x0a\x80\x0d\x00\x00\x00\x01\x00\x00\x00\x2a\xff\xf0\xfe\xfe\x3e",
    );
    server_id(
        rt,
        "server ID 2^31",
        b"\x0a\x80\x0d\x00\x00\x00\x01\x00\x00\x00\x2a\xf0\xf1\xfe\xfe\x3e",
    );
    server_id(
        rt,
        "server ID 2^64 - 2^31",
        b"\x0a\x80\x12\x00\x00\x00\x01\x00\x00\x00\x2a\xf0\xf1\xfe\xfe\xbe\xfe\xfe\xfe\xfe\x0e",
    );
    server_id(
        rt,
        "server ID 2^64 - 2^31 - 1",
        b"\x0a\x80\x12\x00\x00\x00\x01\x00\x00\x00\x2a\xff\xf0\xfe\xfe\xbe\xfe\xfe\xfe\xfe\x0e",
    );
}

// ---- calls that take nothing

// A call on a piece with so much room, and the record afterwards.
fn taking_nothing(
    rt: &(impl Print + Eprint),
    text: &str,
    given: Step,
    piece: &[u8],
    room: &mut [u8],
) {
    title(rt, text);
    let r = call(rt, given, piece, room, true);
    let _ = println!(rt; "took {}", r.outcome.taken);
    show_record(rt, r.session);
}

// A session after its hello, with two bytes unfinished.
fn half_way(rt: &(impl Print + Eprint)) -> Step {
    feed(rt, greeted(rt), b"\x0a\x82", false)
}

fn spoiled_record(rt: &(impl Print + Eprint)) -> Step {
    let mut r = half_way(rt);
    r.session.connection.current = 3;
    r
}

fn spoiled_store(rt: &(impl Print + Eprint)) -> Step {
    let mut r = half_way(rt);
    r.store.tables[0].held = 2;
    r
}

fn closed(rt: &(impl Print + Eprint)) -> Step {
    feed(rt, greeted(rt), b"\x00\x05", false)
}

fn nothing_taken(rt: &(impl Print + Eprint)) {
    let mut room = [0u8; REPLY_ROOM];
    let mut short = [0u8; 11];
    taking_nothing(
        rt,
        "an empty piece on an open session",
        half_way(rt),
        b"",
        &mut room,
    );
    taking_nothing(
        rt,
        "refusal 1: reply room of 11",
        half_way(rt),
        b"\x06",
        &mut short,
    );
    taking_nothing(
        rt,
        "refusal 2: session closed",
        closed(rt),
        b"\x06",
        &mut room,
    );
    taking_nothing(
        rt,
        "refusal 4: a current table that isn't held",
        spoiled_record(rt),
        b"\x06",
        &mut room,
    );
    taking_nothing(
        rt,
        "refusal 4: a table that is neither held nor free",
        spoiled_store(rt),
        b"\x06",
        &mut room,
    );
}

// ---- opening

fn show_opening(rt: &(impl Print + Eprint), text: &str, o: Opened, room: &[u8]) {
    title(rt, text);
    let session = o.session;
    let outcome = o.outcome;
    let answer = outcome.answer;
    let store = store::empty_store();
    show_answer(rt, session, store, answer, room, outcome.reply_len);
    show_record(rt, session);
}

fn openings(rt: &(impl Print + Eprint)) {
    let mut room = [0u8; OPENING_ROOM];
    let mut short = [0u8; 100];
    let a = open_answerer(b"east", b"west", &mut short);
    show_opening(rt, "opening, refusal 1: room of 100", a, &short);
    let b = open_answerer(b"", b"west", &mut room);
    show_opening(rt, "opening, refusal 3: no name of ours", b, &room);
    let c = open_caller(b"east", b"we st", 7, 0, &mut room);
    show_opening(
        rt,
        "opening, refusal 3: a space in the peer's name",
        c,
        &room,
    );
    let d = open_caller(b"east", b"west", 7, 0, &mut room);
    show_opening(rt, "opening as caller", d, &room);
}

// ---- handshake

fn handshakes(rt: &(impl Print + Eprint)) {
    as_hello(rt, "refusal 10: no numbers", b"HAProxyS 2.1\neast\nwest\n");
    as_hello(
        rt,
        "refusal 11: version 2.2",
        b"HAProxyS 2.2\neast\nwest 7 0\n",
    );
    as_hello(
        rt,
        "refusal 12: another peer is addressed",
        b"HAProxyS 2.1\nnorth\nwest 7 0\n",
    );
    as_hello(
        rt,
        "refusal 13: another sender",
        b"HAProxyS 2.1\neast\nsouth 7 0\n",
    );
    as_status(rt, "status 200", b"200\n");
    as_status(rt, "refusal 14: status 503", b"503\n");
    as_status(rt, "refusal 15: status 201", b"201\n");
}

// ---- messages

// Each key type with the shortest and the longest key that it has.
fn key_types(rt: &(impl Print + Eprint)) {
    after_hello(
        rt,
        "key types 2, 4 and 5",
        b"\x0a\x82\x06\x01\x01a\x02\x04\x00\x0a\x82\x06\x02\x01b\x04\x04\x00\x0a\x82\x06\x03\x01c\x05\x10\x00",
    );
    after_hello(
        rt,
        "key types 6 and 7",
        b"\x0a\x82\x06\x01\x01a\x06\x01\x00\x0a\x82\x06\x02\x01b\x06\x40\x00\x0a\x82\x06\x03\x01c\x07\x01\x00\x0a\x82\x06\x04\x01d\x07\x40\x00",
    );
}

// The numbers beside them, and the key length of another kind.
fn other_key_types(rt: &(impl Print + Eprint)) {
    after_hello(
        rt,
        "refusal 24: key type 0",
        b"\x0a\x82\x06\x01\x01t\x00\x04\x00",
    );
    after_hello(
        rt,
        "refusal 24: key type 1",
        b"\x0a\x82\x06\x01\x01t\x01\x04\x00",
    );
    after_hello(
        rt,
        "refusal 24: key type 3",
        b"\x0a\x82\x06\x01\x01t\x03\x04\x00",
    );
    after_hello(
        rt,
        "refusal 24: key type 8",
        b"\x0a\x82\x06\x01\x01t\x08\x04\x00",
    );
    after_hello(
        rt,
        "refusal 24: key type 2^32 + 2, and no key length",
        b"\x0a\x82\x08\x01\x01t\xf2\xf1\xfe\xfe\x7e",
    );
    after_hello(
        rt,
        "refusal 24: an integer key of 16 bytes",
        b"\x0a\x82\x06\x01\x01t\x02\x10\x00",
    );
    after_hello(
        rt,
        "refusal 24: an IPv6 key of 4 bytes",
        b"\x0a\x82\x06\x01\x01t\x05\x04\x00",
    );
}

// Nine tables, with the names a to i.
fn nine_tables(rt: &(impl Print + Eprint)) {
    title(rt, "refusal 26: a ninth table");
    let mut r = greeted(rt);
    for i in 0u8..9 {
        let message = [0x0a, 0x82, 6, i, 1, 97 + i, 2, 4, 0];
        r = feed(rt, r, &message, true);
    }
}

// 129 entries of a table without data types; the last two updates are shown.
fn many_entries(rt: &(impl Print + Eprint)) {
    title(rt, "refusal 29: a 129th entry, after the 128th");
    let mut r = feed(rt, greeted(rt), b"\x0a\x82\x06\x01\x01t\x02\x04\x00", false);
    for i in 0u8..129 {
        let message = [0x0a, 0x80, 8, 0, 0, 0, i, 0, 0, 0, i];
        r = feed(rt, r, &message, 127 <= i);
    }
}

fn messages(rt: &(impl Print + Eprint)) {
    after_hello(rt, "refusal 20: class 0, type 5", b"\x00\x05");
    after_hello(
        rt,
        "refusal 21: length over 2^64 - 1",
        b"\x0a\x80\xf0\xf1\xfe\xfe\xfe\xfe\xfe\xfe\xfe\x0e",
    );
    after_hello(rt, "refusal 22: length 1,025", b"\x0a\x80\xf1\x31");
    after_hello(
        rt,
        "refusal 23: a definition that ends in its name",
        b"\x0a\x82\x03\x01\x02t",
    );
    after_hello(
        rt,
        "refusal 23: an update that ends in its string key",
        b"\x0a\x82\x06\x01\x01t\x06\x04\x00\x0a\x80\x08\x00\x00\x00\x01\x04abc",
    );
    after_hello(
        rt,
        "refusal 24: a name of 33 bytes",
        b"\x0a\x82\x02\x01\x21",
    );
    after_hello(
        rt,
        "refusal 24: an update whose second value is 2^32",
        b"\x0a\x82\x06\x01\x01t\x02\x04\x06\x0a\x80\x0e\x00\x00\x00\x01\x00\x00\x00\x2a\x05\xf0\xf1\xfe\xfe\x7e",
    );
    after_hello(
        rt,
        "refusal 25: another key type under a held name",
        b"\x0a\x82\x06\x01\x01t\x02\x04\x00\x0a\x82\x06\x01\x01t\x04\x04\x00",
    );
    key_types(rt);
    other_key_types(rt);
    nine_tables(rt);
    after_hello(rt, "refusal 27: no current table", b"\x0a\x80\x00");
    after_hello(
        rt,
        "refusal 27: a switch to an unbound ID",
        b"\x0a\x83\x01\x01",
    );
    after_hello(
        rt,
        "refusal 28: no previous ID",
        b"\x0a\x82\x06\x01\x01t\x02\x04\x00\x0a\x81\x04\x00\x00\x00\x2a",
    );
    many_entries(rt);
    after_hello(rt, "the peer's error message", b"\x01\x01");
}

// ---- remaining times

// A session with the table t, whose only data type is 2.
fn without_expiry(rt: &(impl Print + Eprint)) -> Step {
    feed(rt, greeted(rt), b"\x0a\x82\x06\x01\x01t\x02\x04\x04", false)
}

// The same with an expiry of 60,000.
fn with_expiry(rt: &(impl Print + Eprint)) -> Step {
    feed(
        rt,
        greeted(rt),
        b"\x0a\x82\x09\x01\x01t\x02\x04\x04\xf0\x97\x1c",
        false,
    )
}

// An untimed update of a table without expiry.
fn updated(rt: &(impl Print + Eprint)) -> Step {
    feed(
        rt,
        without_expiry(rt),
        b"\x0a\x80\x09\x00\x00\x00\x01\x00\x00\x00\x2a\x05",
        false,
    )
}

// An entry with this time remaining.
fn lasting(rt: &(impl Print + Eprint), remaining: u32) -> Step {
    let time = write_number(remaining);
    let a = feed(
        rt,
        without_expiry(rt),
        b"\x0a\x85\x0d\x00\x00\x00\x01",
        false,
    );
    let b = feed(rt, a, &time, false);
    feed(rt, b, b"\x00\x00\x00\x2a\x05", false)
}

fn timed_updates(rt: &(impl Print + Eprint)) {
    on_table(
        rt,
        "a timed update with 60,000",
        without_expiry(rt),
        4,
        b"\x0a\x85\x0f\x00\x00\x00\x01\x00\x00\xea\x60\x00\x00\x00\x2a\xf4\x94\x01",
    );
    on_table(
        rt,
        "a timed update with 0",
        without_expiry(rt),
        4,
        b"\x0a\x85\x0d\x00\x00\x00\x01\x00\x00\x00\x00\x00\x00\x00\x2a\x05",
    );
    on_table(
        rt,
        "a timed update with 2^32 - 1, over the expiry",
        with_expiry(rt),
        4,
        b"\x0a\x85\x0d\x00\x00\x00\x01\xff\xff\xff\xff\x00\x00\x00\x2a\x05",
    );
    on_table(
        rt,
        "a timed incremental update with 60,000 of an entry without a time",
        updated(rt),
        4,
        b"\x0a\x86\x09\x00\x00\xea\x60\x00\x00\x00\x2a\x06",
    );
    on_table(
        rt,
        "a timed incremental update with 6 of a new key",
        lasting(rt, 5),
        4,
        b"\x0a\x86\x09\x00\x00\x00\x06\x00\x00\x00\x2b\x06",
    );
}

// "an untimed update takes the table's expiry, else none"
fn untimed_updates(rt: &(impl Print + Eprint)) {
    on_table(
        rt,
        "untimed updates, expiry 60,000",
        with_expiry(rt),
        4,
        b"\x0a\x80\x09\x00\x00\x00\x01\x00\x00\x00\x2a\x05\x0a\x81\x05\x00\x00\x00\x2b\x06",
    );
    on_table(
        rt,
        "an untimed update, expiry 0",
        greeted(rt),
        4,
        b"\x0a\x82\x07\x01\x01t\x02\x04\x04\x00\x0a\x80\x09\x00\x00\x00\x01\x00\x00\x00\x2a\x05",
    );
    on_table(
        rt,
        "an untimed update of an entry with 5, expiry 60,000",
        with_expiry(rt),
        4,
        b"\x0a\x85\x0d\x00\x00\x00\x01\x00\x00\x00\x05\x00\x00\x00\x2a\x05\x0a\x80\x09\x00\x00\x00\x02\x00\x00\x00\x2a\x06",
    );
    on_table(
        rt,
        "an untimed update of an entry with 5, no expiry",
        lasting(rt, 5),
        4,
        b"\x0a\x80\x09\x00\x00\x00\x02\x00\x00\x00\x2a\x06",
    );
    on_table(
        rt,
        "an untimed incremental update of an entry with 5, no expiry",
        lasting(rt, 5),
        4,
        b"\x0a\x81\x05\x00\x00\x00\x2a\x06",
    );
    on_table(
        rt,
        "a definition without expiry between two untimed updates",
        with_expiry(rt),
        4,
        b"\x0a\x80\x09\x00\x00\x00\x01\x00\x00\x00\x2a\x05\x0a\x82\x06\x01\x01t\x02\x04\x04\x0a\x81\x05\x00\x00\x00\x2b\x06",
    );
}

fn faults_of_timed_updates(rt: &(impl Print + Eprint)) {
    on_table(
        rt,
        "refusal 23: a timed update that ends in its ID",
        without_expiry(rt),
        4,
        b"\x0a\x85\x03\x00\x00\x00",
    );
    on_table(
        rt,
        "refusal 23: a timed update that ends before its remaining time",
        without_expiry(rt),
        4,
        b"\x0a\x85\x04\x00\x00\x00\x01",
    );
    on_table(
        rt,
        "refusal 23: a timed update that ends in its remaining time",
        without_expiry(rt),
        4,
        b"\x0a\x85\x07\x00\x00\x00\x01\x00\x00\xea",
    );
    on_table(
        rt,
        "refusal 23: a timed update that ends behind its remaining time",
        without_expiry(rt),
        4,
        b"\x0a\x85\x08\x00\x00\x00\x01\x00\x00\xea\x60",
    );
    after_hello(
        rt,
        "refusal 27: a timed update, no current table",
        b"\x0a\x85\x00",
    );
}

fn faults_of_timed_incremental_updates(rt: &(impl Print + Eprint)) {
    on_table(
        rt,
        "refusal 23: a timed incremental update that ends before its remaining time",
        updated(rt),
        4,
        b"\x0a\x86\x00",
    );
    on_table(
        rt,
        "refusal 23: a timed incremental update that ends in its remaining time",
        updated(rt),
        4,
        b"\x0a\x86\x03\x00\x00\xea",
    );
    on_table(
        rt,
        "refusal 23: a timed incremental update that ends behind its remaining time",
        updated(rt),
        4,
        b"\x0a\x86\x04\x00\x00\xea\x60",
    );
    on_table(
        rt,
        "refusal 28: a timed incremental update, no previous ID",
        without_expiry(rt),
        4,
        b"\x0a\x86\x00",
    );
}

fn message_types(rt: &(impl Print + Eprint)) {
    after_hello(
        rt,
        "message types 132, 135 and 255",
        b"\x0a\x84\x05\x05\x00\x00\x00\x07\x0a\x87\x02\xff\xff\x0a\xff\x00",
    );
    after_hello(
        rt,
        "refusal 23: an acknowledgement that ends in its update ID",
        b"\x0a\x84\x04\x05\x00\x00\x00",
    );
}

// ---- time that passes

// So many milliseconds pass; the entries afterwards.
fn passing(rt: &(impl Print + Eprint), text: &str, given: Step, milliseconds: u32) -> Step {
    title(rt, text);
    let p = pass(given.store, milliseconds);
    let store = p.store;
    let _ = println!(rt; "passed {}", p.number);
    show_entries(rt, store, 4);
    let mut r = given;
    r.store = store;
    r
}

// "entries with at most e remaining are removed, other times lowered by e"
fn times_passed(rt: &(impl Print + Eprint)) {
    passing(rt, "0 of 60,000 pass", lasting(rt, 60000), 0);
    passing(rt, "59,999 of 60,000 pass", lasting(rt, 60000), 59999);
    passing(rt, "60,000 of 60,000 pass", lasting(rt, 60000), 60000);
    passing(rt, "60,001 of 60,000 pass", lasting(rt, 60000), 60001);
    passing(rt, "0 of 0 pass", lasting(rt, 0), 0);
    passing(rt, "0 of 1 pass", lasting(rt, 1), 0);
    passing(
        rt,
        "2^32 - 2 of 2^32 - 1 pass",
        lasting(rt, 0xffff_ffff),
        0xffff_fffe,
    );
    passing(
        rt,
        "2^32 - 1 of 2^32 - 1 pass",
        lasting(rt, 0xffff_ffff),
        0xffff_ffff,
    );
    passing(
        rt,
        "2^32 - 1 pass, an entry without a time",
        updated(rt),
        0xffff_ffff,
    );
}

// Entries with 5 and with 10, of which the first is removed; its place is then the lowest free one.
fn places_used_again(rt: &(impl Print + Eprint)) {
    let two = feed(
        rt,
        lasting(rt, 5),
        b"\x0a\x86\x09\x00\x00\x00\x0a\x00\x00\x00\x2b\x06",
        false,
    );
    let one = passing(rt, "5 of 5 and of 10 pass", two, 5);
    on_table(
        rt,
        "new keys behind the removed one, and a known one",
        one,
        4,
        b"\x0a\x81\x05\x00\x00\x00\x2c\x07\x0a\x81\x05\x00\x00\x00\x2d\x08\x0a\x81\x05\x00\x00\x00\x2b\x09",
    );
}

// An entry with 5 whose mark of a time is then this, and the mark of being held at the place beside it.
fn marked(rt: &(impl Print + Eprint), timed: u32, beside: u32) -> Step {
    let mut r = lasting(rt, 5);
    r.store.entries[0].timed = timed;
    r.store.entries[1].held = beside;
    r
}

fn marks(rt: &(impl Print + Eprint)) {
    let mut room = [0u8; REPLY_ROOM];
    taking_nothing(
        rt,
        "a store with a number beside a time mark of 0",
        marked(rt, 0, 0),
        b"",
        &mut room,
    );
    taking_nothing(
        rt,
        "refusal 4: a store with a time mark of 2",
        marked(rt, 2, 0),
        b"",
        &mut room,
    );
    passing(
        rt,
        "5 pass, a number beside a time mark of 0",
        marked(rt, 0, 0),
        5,
    );
    passing(
        rt,
        "refusal 4: 5 pass, a time mark of 2",
        marked(rt, 2, 0),
        5,
    );
    passing(
        rt,
        "refusal 4: 5 of 5 pass, and a place that is neither held nor free",
        marked(rt, 1, 2),
        5,
    );
}

fn times(rt: &(impl Print + Eprint)) {
    timed_updates(rt);
    untimed_updates(rt);
    faults_of_timed_updates(rt);
    faults_of_timed_incremental_updates(rt);
    message_types(rt);
    times_passed(rt);
    places_used_again(rt);
    marks(rt);
}

// ---- names of tables

// A definition whose name has this byte between two letters, and one that ends behind that name.
fn name_with(rt: &(impl Print + Eprint), byte: u8) {
    let whole = [0x0a, 0x82, 8, 1, 3, b'a', byte, b'b', 2, 4, 0];
    let named = [0x0a, 0x82, 5, 1, 3, b'a', byte, b'b'];
    let _ = println!(rt; "# a name with byte {byte}");
    feed(rt, greeted(rt), &whole, true);
    feed(rt, greeted(rt), &named, true);
}

// The first and the last byte of each range of plain bytes, and those beside them.
const BYTES_OF_NAMES: [u8; 21] = [
    44, 45, 46, 47, 48, 57, 58, 59, 64, 65, 90, 91, 94, 95, 96, 97, 122, 123, 127, 128, 255,
];

// Names that aren't plain, with faults behind and before them.
fn names_with_faults(rt: &(impl Print + Eprint)) {
    after_hello(
        rt,
        "refusal 30: a line feed first in a name",
        b"\x0a\x82\x07\x01\x02\nt\x02\x04\x00",
    );
    after_hello(
        rt,
        "refusal 30: a line feed last in a name",
        b"\x0a\x82\x07\x01\x02t\n\x02\x04\x00",
    );
    after_hello(
        rt,
        "refusal 30: a line feed as name, and key type 3",
        b"\x0a\x82\x06\x01\x01\n\x03\x04\x00",
    );
    after_hello(
        rt,
        "refusal 30: a held name and a space, and another key type",
        b"\x0a\x82\x06\x01\x01t\x02\x04\x00\x0a\x82\x07\x01\x02t \x04\x04\x00",
    );
    after_hello(
        rt,
        "refusal 23: a line feed, and the body ends in the name",
        b"\x0a\x82\x03\x01\x02\n",
    );
    after_hello(
        rt,
        "refusal 24: a name of 33 bytes with a line feed",
        b"\x0a\x82\x03\x01\x21\n",
    );
}

// A session with the table `ab`, whose name then has these bytes at its last place and behind it.
fn renamed(rt: &(impl Print + Eprint), last: u8, behind: u8) -> Step {
    let mut r = feed(
        rt,
        greeted(rt),
        b"\x0a\x82\x07\x01\x02ab\x02\x04\x00",
        false,
    );
    r.store.tables[0].name[1] = last;
    r.store.tables[0].name[2] = behind;
    r
}

fn closed_by_name(rt: &(impl Print + Eprint)) -> Step {
    feed(rt, half_way(rt), b"\x06\x01\x01\n\x02\x04\x00", false)
}

fn names(rt: &(impl Print + Eprint)) {
    let mut room = [0u8; REPLY_ROOM];
    for byte in BYTES_OF_NAMES {
        name_with(rt, byte);
    }
    names_with_faults(rt);
    taking_nothing(
        rt,
        "a store with the name a:, and a line feed behind it",
        renamed(rt, 58, 10),
        b"",
        &mut room,
    );
    taking_nothing(
        rt,
        "refusal 4: a store with a line feed in a name",
        renamed(rt, 10, 0),
        b"",
        &mut room,
    );
    taking_nothing(
        rt,
        "refusal 2: session closed with 30",
        closed_by_name(rt),
        b"\x06",
        &mut room,
    );
}

fn main(rt: HostRuntime) {
    server_ids(&rt);
    nothing_taken(&rt);
    openings(&rt);
    handshakes(&rt);
    messages(&rt);
    times(&rt);
    names(&rt);
}
