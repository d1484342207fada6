// The hello of a caller written, and the decimal digits of a number.
ghost use Rattle.std.specs.Prelude.{◌≡◌, ◌≤◌, length};
ghost use Rattle.wire.specs.Writing.{Writes};
ghost use Rattle.handshake.specs.Bytes.{decimal, digits_of, room_with, written_to};
ghost use Rattle.handshake.specs.Handshake.{spaced, ended, hello_bytes};

use lists::inline::Bytes;
use wire::writer::Writer;

// The decimal digits of a number. They come last digit first, and a `Bytes` has no way to put one at its front, so an
// array is filled from its end.
#[tactic(auto, using(crate::proofs::writing::DigitArray::filling))]
pub fn decimal_digits(n: u64) -> Bytes<20>
    ensures { result ≡ digits_of n }
{
    let mut bytes = [0u8; 20];
    let mut i: usize = 19;
    let mut y = n;
    while 10 <= y {
        bytes[i] = (48 + y % 10) as u8;
        y /= 10;
        i -= 1;
    }
    bytes[i] = (48 + y) as u8;
    Bytes::copy_from_slice(&bytes[i..])
}

// How many digits a number has.
fn count_digits(n: u32) -> usize
    ensures { (result ≡ length (decimal n)) × (result ≤ 20) }
{
    decimal_digits(u64::from(n)).len()
}

// A line and its LF.
fn put_line(w: &mut Writer<'_>, line: &[u8])
    ensures { Writes (ended line.now) w.old w.new }
{
    w.put(line);
    w.put(b"\n");
}

// A space and a number.
fn put_spaced(w: &mut Writer<'_>, n: u32)
    ensures { Writes (spaced n) w.old w.new }
{
    w.put(b" ");
    w.put(decimal_digits(u64::from(n)).as_slice());
}

fn put_hello(w: &mut Writer<'_>, remote: &[u8], local: &[u8], process: u32, relative: u32)
    ensures { Writes (hello_bytes remote.now local.now process relative) w.old w.new }
{
    put_line(w, b"HAProxyS 2.1");
    put_line(w, remote);
    w.put(local);
    put_spaced(w, process);
    put_spaced(w, relative);
    w.put(b"\n");
}

// The hello that a caller named `local` sends to the peer `remote`, at the front of the room if it fits.
#[tactic(auto, using(crate::proofs::writing::Putting::writing_hello))]
pub fn write_hello(
    room: &mut [u8],
    remote: &[u8],
    local: &[u8],
    process: u32,
    relative: u32,
) -> Option<usize>
    ensures length { result ≡ written_to (hello_bytes remote.now local.now process relative) room.old }
    ensures content { room.new ≡ room_with (hello_bytes remote.now local.now process relative) room.old }
{
    let digits = count_digits(process) + count_digits(relative);
    let left = room
        .len()
        .checked_sub(remote.len())?
        .checked_sub(local.len())?;
    if left < 17 + digits {
        return None;
    }
    let mut w = Writer { room, at: 0 };
    put_hello(&mut w, remote, local, process, relative);
    Some(w.at)
}
