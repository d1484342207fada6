// The parts of the sender's line: the bytes before a space, and a decimal number read.
ghost use Rattle.std.specs.Prelude.{◌≡◌, true, ◌≤◌, ◌<◌, length};
ghost use Rattle.handshake.specs.Bytes.{within, read_digits};
ghost use Rattle.handshake.specs.Handshake.{is_space, part_of, number_of};
ghost use Rattle.lists.specs.Lists.{first_place};

use crate::bytes_within;

// Where the first space stands.
#[tactic(auto, unfolding(lists::specs::Lists::first_place))]
fn first_space(s: &[u8]) -> Option<usize>
    ensures { result ≡ first_place is_space s.now }
{
    s.iter().position(|b| *b == b' ')
}

// Where the first space stands, if a byte stands before it.
#[tactic(auto, using(crate::proofs::sender::Spaces::parting))]
pub fn first_part(s: &[u8]) -> Option<usize>
    ensures { result ≡ part_of s.now }
{
    let k = first_space(s)?;
    if k == 0 {
        return None;
    }
    Some(k)
}

#[tactic(auto, using(crate::proofs::sender::Numbers::summing))]
fn read_digits(s: &[u8]) -> u64
    requires { (length s.now ≤ 10) × (within 48 57 s.now ≡ true) }
    ensures { result ≡ read_digits 0 s.now }
{
    let mut n: u64 = 0;
    for d in s {
        n = n * 10 + u64::from(*d - b'0');
    }
    n
}

#[tactic(auto, unfolding(crate::specs::Handshake::number_of, crate::specs::Handshake::number_b))]
pub fn read_number(s: &[u8]) -> Option<u32>
    ensures { result ≡ number_of s.now }
{
    if s.len() < 1 || 10 < s.len() || !bytes_within(s, b'0', b'9') {
        return None;
    }
    u32::try_from(read_digits(s)).ok()
}
