// 4-byte numbers, big-endian: read and written.
ghost use Rattle.std.specs.Prelude.{◌≡◌};
ghost use Rattle.wire.specs.Number.{read_number, encode_number};

// The 4-byte big-endian number at `at` and the position after it, if the bytes reach so far.
#[tactic(auto, using(crate::proofs::Numbers::numbers))]
pub fn read_number(s: &[u8], at: usize) -> Option<(u32, usize)>
    ensures { result ≡ read_number s.now at }
{
    let bytes = s.get(at..)?.first_chunk::<4>()?;
    Some((u32::from_be_bytes(*bytes), at + 4))
}

// The four bytes of v, the highest first.
#[tactic(auto, unfolding(crate::specs::Number::encode_number))]
pub fn write_number(v: u32) -> [u8; 4]
    ensures { result ≡ encode_number v }
{
    v.to_be_bytes()
}
