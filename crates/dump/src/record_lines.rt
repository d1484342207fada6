// The lines of a session record.
ghost use Rattle.std.specs.Prelude.{[], ◌∷◌};
ghost use Rattle.session.specs.Session.{unfinished};
ghost use Rattle.text.specs.Text.{hex_or_none, spaced};
ghost use Rattle.wire.specs.Writing.{Writes};
ghost use Rattle.dump.specs.RecordLines.{unfinished_line, current_line, record_lines};

use crate::bound::bindings_lines;
use crate::phase::phase_line;
use crate::sending::{number_line, place_before, sending_lines};
use session::{Connection, Session, unfinished_len};
use text::spaced::put_hex_or_none;
use wire::writer::Writer;

fn put_unfinished(w: &mut Writer<'_>, session: Session)
    ensures { Writes (spaced (hex_or_none (unfinished session) ∷ [])) w.old w.new }
{
    let n = unfinished_len(session);
    let buffer = session.buffer;
    put_hex_or_none(w, &buffer[..n]);
}

fn unfinished_line(w: &mut Writer<'_>, session: Session)
    ensures { Writes (unfinished_line session) w.old w.new }
{
    w.put(b"unfinished");
    put_unfinished(w, session);
    w.put(b"\n");
}

fn current_line(w: &mut Writer<'_>, c: Connection)
    ensures { Writes (current_line c) w.old w.new }
{
    number_line(w, b"current", place_before(c.current as usize));
}

// The lines of a session record.
pub fn put_record(w: &mut Writer<'_>, session: Session)
    ensures { Writes (record_lines session) w.old w.new }
{
    let connection = session.connection;
    phase_line(w, connection);
    unfinished_line(w, session);
    current_line(w, connection);
    let sending = session.sending;
    sending_lines(w, sending);
    let bindings = connection.bindings;
    bindings_lines(w, bindings);
}
