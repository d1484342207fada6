// The words of a line, each with a space before it.
ghost use Rattle.std.specs.Prelude.{[], ◌∷◌};
ghost use Rattle.handshake.specs.Bytes.{decimal};
ghost use Rattle.text.specs.Text.{hex, hex_or_none, signed, spaced};
ghost use Rattle.wire.specs.Writing.{Writes};

use crate::decimal::{put_decimal, put_integer};
use crate::hex::put_hex;
use wire::writer::Writer;

// The bytes as they are.
pub fn put_word(w: &mut Writer<'_>, word: &[u8])
    ensures { Writes (spaced (word.now ∷ [])) w.old w.new }
{
    w.put(b" ");
    w.put(word);
}

// The decimal digits of a number.
pub fn put_decimal_word(w: &mut Writer<'_>, n: u64)
    ensures { Writes (spaced (decimal n ∷ [])) w.old w.new }
{
    w.put(b" ");
    put_decimal(w, n);
}

// Each byte as two hex digits.
pub fn put_hex_word(w: &mut Writer<'_>, bytes: &[u8])
    ensures { Writes (spaced (hex bytes.now ∷ [])) w.old w.new }
{
    w.put(b" ");
    put_hex(w, bytes);
}

// The same, or a dash for no bytes.
pub fn put_hex_or_none(w: &mut Writer<'_>, bytes: &[u8])
    ensures { Writes (spaced (hex_or_none bytes.now ∷ [])) w.old w.new }
{
    if bytes.len() == 0 {
        put_word(w, b"-");
    } else {
        put_hex_word(w, bytes);
    }
}

// A signed number in decimal.
pub fn put_signed_word(w: &mut Writer<'_>, n: i32)
    ensures { Writes (spaced (signed n ∷ [])) w.old w.new }
{
    w.put(b" ");
    put_integer(w, n);
}
