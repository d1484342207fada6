// The line of the counts.
ghost use Rattle.std.specs.Prelude.{map};
ghost use Rattle.handshake.specs.Bytes.{decimal};
ghost use Rattle.text.specs.Text.{spaced};
ghost use Rattle.wire.specs.Writing.{Writes};
ghost use Rattle.dump.specs.StoreLines.{counts_line};

use store::TABLES;
use text::spaced::put_decimal_word;
use wire::writer::Writer;

fn put_numbers(w: &mut Writer<'_>, counts: [u32; TABLES])
    ensures { Writes (spaced (map decimal counts)) w.old w.new }
{
    for n in &counts {
        put_decimal_word(w, u64::from(*n));
    }
}

// The number of entries of each table place.
pub fn put_counts(w: &mut Writer<'_>, counts: [u32; TABLES])
    ensures { Writes (counts_line counts) w.old w.new }
{
    w.put(b"counts");
    put_numbers(w, counts);
    w.put(b"\n");
}
