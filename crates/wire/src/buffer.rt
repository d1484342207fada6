// Bytes and encoded integers put into lent room: whole (`fit_..`), or as far as the room reaches (`put..`).
ghost use Rattle.std.specs.Prelude.{◌≡◌};
ghost use Rattle.wire.specs.Integer.{encode_int};
ghost use Rattle.wire.specs.Room.{put_result, put_room, Wrote};

use crate::write_int;

// `bytes` go to `room` from `at` on, if they fit whole: the position after them.
#[tactic(auto, using(crate::proofs::buffer::Room::putting))]
pub fn fit_bytes(room: &mut [u8], at: usize, bytes: &[u8]) -> Option<usize>
    ensures result { result ≡ put_result room.old at bytes.now }
    ensures left { room.new ≡ put_room room.old at bytes.now }
{
    let next = at.checked_add(bytes.len())?;
    if room.len() < next {
        return None;
    }
    room[at..next].copy_from_slice(bytes);
    Some(next)
}

// The encoding of v goes to `room` from `at` on, if it fits whole: the position after it.
pub fn fit_int(room: &mut [u8], at: usize, v: u64) -> Option<usize>
    ensures result { result ≡ put_result room.old at (encode_int v) }
    ensures left { room.new ≡ put_room room.old at (encode_int v) }
{
    fit_bytes(room, at, write_int(v).as_slice())
}

// `bytes` go to `room` from `at` on, as far as it reaches. The position behind them is returned. A `Writer` calls it for each
// of several.
pub fn put(room: &mut [u8], at: usize, bytes: &[u8]) -> usize
    ensures { Wrote room.old at bytes.now room.new result }
{
    let mut next = at;
    for b in bytes {
        if room.len() <= next {
            return next;
        }
        room[next] = *b;
        next += 1;
    }
    next
}

// The encoding of v goes to `room` from `at` on, as far as it reaches.
pub fn put_int(room: &mut [u8], at: usize, v: u64) -> usize
    ensures { Wrote room.old at (encode_int v) room.new result }
{
    put(room, at, write_int(v).as_slice())
}
