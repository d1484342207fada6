// Numbers on the wire: the encoded integer, 4-byte numbers, values of a width, the server ID, and writing into lent room.
#![tactic(auto)]

pub mod buffer;
pub mod fixed;
pub mod values;
pub mod writer;

ghost use Rattle.std.specs.Prelude.{◌≡◌, ◌*◌, ◌^◌, ◌<◌, drop};
ghost use Rattle.wire.specs.Integer.{read_int, tenth_byte, encoded_int};

use lists::inline::Bytes;

// The most bytes that an encoding has.
const MOST_BYTES: usize = 10;

// Why an encoded integer can't be read: there are too few bytes, or it overflows; with how many bytes were looked at.
#[derive(Clone, Copy, Debug, PartialEq, Eq)]
pub enum IntError {
    Short { looked: usize },
    Overflow { looked: usize },
}

// The tenth byte, at `i`, of this weight, after nine bytes that give `value`.
#[tactic(auto, using(crate::proofs::Reading::tenth))]
fn tenth_byte(s: &[u8], i: usize, value: u64, weight: u64) -> Result<(u64, usize), IntError>
    requires { weight ≡ 16 * 128 ^ 8 }
    ensures { result ≡ tenth_byte value i (drop i s.now) }
{
    let Some(b) = s.get(i) else {
        return Err(IntError::Short { looked: 9 });
    };
    let b = u64::from(*b);
    if 16 <= b {
        return Err(IntError::Overflow { looked: MOST_BYTES });
    }
    let top = weight * b;
    if 0xffff_ffff_ffff_ffff - top < value {
        return Err(IntError::Overflow { looked: MOST_BYTES });
    }
    Ok((value + top, i + 1))
}

// 128 times a weight: by addition, as the document asks for each byte's weight.
fn doubled_seven_times(w: u64) -> u64
    requires { w < 2 ^ 57 }
    ensures { result ≡ 128 * w }
{
    let w2 = w + w;
    let w4 = w2 + w2;
    let w8 = w4 + w4;
    let w16 = w8 + w8;
    let w32 = w16 + w16;
    let w64 = w32 + w32;
    w64 + w64
}

// The encoded integer at `at` and the position after it. The weight of a later byte is 16, then the one before doubled seven times.
#[tactic(auto, using(crate::proofs::Reading::reading))]
pub fn read_int(s: &[u8], at: usize) -> Result<(u64, usize), IntError>
    ensures { result ≡ read_int s.now at }
{
    let Some(first) = s.get(at) else {
        return Err(IntError::Short { looked: 0 });
    };
    let first = u64::from(*first);
    let mut i = at + 1;
    if first < 240 {
        return Ok((first, i));
    }
    let mut value = first;
    let mut weight: u64 = 16;
    for n in 0..8usize {
        let Some(b) = s.get(i) else {
            return Err(IntError::Short { looked: n + 1 });
        };
        let b = u64::from(*b);
        i += 1;
        value += weight * b;
        if b < 128 {
            return Ok((value, i));
        }
        weight = doubled_seven_times(weight);
    }
    tenth_byte(s, i, value, weight)
}

// The encoding of v. The loop counts nothing: y shrinks until it is one byte.
#[tactic(auto, using(crate::proofs::Write::writing))]
pub fn write_int(v: u64) -> Bytes<10>
    ensures { result ≡ encoded_int v }
{
    let mut out = Bytes::new();
    if v < 240 {
        out.push(v as u8);
        return out;
    }
    out.push((240 + v % 16) as u8);
    let mut y = (v - 240) / 16;
    while 128 <= y {
        out.push((128 + y % 128) as u8);
        y = (y - 128) / 128;
    }
    out.push(y as u8);
    out
}
