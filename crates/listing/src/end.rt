// The last line.
ghost use Rattle.std.specs.Prelude.{[], ◌∷◌};
ghost use Rattle.handshake.specs.Bytes.{ascii, decimal};
ghost use Rattle.text.specs.Text.{line};
ghost use Rattle.wire.specs.Writing.{Writes};
ghost use Rattle.listing.specs.EndLines.{end_line};

use session::Session;
use text::spaced::{put_decimal_word, put_word};
use wire::writer::Writer;

fn end_line(w: &mut Writer<'_>, state: &[u8], n: u64)
    ensures { Writes (line (ascii "end") (state.now ∷ decimal n ∷ [])) w.old w.new }
{
    w.put(b"end");
    put_word(w, state);
    put_decimal_word(w, n);
    w.put(b"\n");
}

// The last line.
pub fn put_end(w: &mut Writer<'_>, session: Session)
    ensures { Writes (end_line session) w.old w.new }
{
    let connection = session.connection;
    if connection.closed == 1 {
        end_line(w, b"closed", u64::from(connection.number));
    } else {
        end_line(w, b"open", session.len as u64);
    }
}
