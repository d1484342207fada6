// Decimal numbers, without a sign or with one.
ghost use Rattle.handshake.specs.Bytes.{decimal};
ghost use Rattle.text.specs.Text.{signed};
ghost use Rattle.wire.specs.Writing.{Writes};

use handshake::writing::decimal_digits;
use wire::writer::Writer;

// The decimal digits of a number.
pub fn put_decimal(w: &mut Writer<'_>, n: u64)
    ensures { Writes (decimal n) w.old w.new }
{
    w.put(decimal_digits(n).as_slice());
}

// A minus sign before the digits of a negative number.
pub fn put_integer(w: &mut Writer<'_>, n: i32)
    ensures { Writes (signed n) w.old w.new }
{
    if n < 0 {
        w.put(b"-");
    }
    put_decimal(w, n.unsigned_abs() as u64);
}
