// The first line of a session record: its phase, or the number it was closed with.
ghost use Rattle.wire.specs.Writing.{Writes};
ghost use Rattle.dump.specs.RecordLines.{phase_line};

use session::{Connection, ESTABLISHED};
use text::spaced::put_decimal_word;
use wire::writer::Writer;

pub fn phase_line(w: &mut Writer<'_>, c: Connection)
    ensures { Writes (phase_line c) w.old w.new }
{
    if c.closed == 1 {
        w.put(b"session closed");
        put_decimal_word(w, u64::from(c.number));
        w.put(b"\n");
    } else if c.phase == ESTABLISHED {
        w.put(b"session open\n");
    } else {
        w.put(b"session handshake\n");
    }
}
