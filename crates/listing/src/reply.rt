// The line of a reply.
ghost use Rattle.std.specs.Prelude.{take};
ghost use Rattle.wire.specs.Writing.{Writes};
ghost use Rattle.listing.specs.ReplyLines.{reply_line};

use text::front;
use text::spaced::put_hex_word;
use wire::writer::Writer;

fn reply_line(w: &mut Writer<'_>, reply: &[u8])
    ensures { Writes (reply_line reply.now) w.old w.new }
{
    if reply.len() != 0 {
        w.put(b"reply");
        put_hex_word(w, reply);
        w.put(b"\n");
    }
}

// The line of a reply, which is the first `len` bytes of a room; none for no bytes.
pub fn put_reply(w: &mut Writer<'_>, reply: &[u8], len: usize)
    ensures { Writes (reply_line (take len reply.now)) w.old w.new }
{
    reply_line(w, front(reply, len));
}
