// Text in a lent room. Each function here and in the crates `listing` and `dump` that takes a `Writer` puts its text behind what that has,
// as far as its room reaches.
#![tactic(auto)]

pub mod arguments;
pub mod decimal;
pub mod hex;
pub mod input;
pub mod output;
pub mod spaced;

ghost use Rattle.std.specs.Prelude.{◌≡◌, take};

// Bytes as they are, from a position of lent room on; a `Writer` puts them behind what it has.
pub use wire::buffer::put;

// The first n bytes, or all of them where there are fewer.
pub fn front(bytes: &[u8], n: usize) -> &[u8]
    ensures { result.now ≡ take n bytes.now }
{
    &bytes[..n.min(bytes.len())]
}
