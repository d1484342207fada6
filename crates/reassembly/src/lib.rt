// Bytes of a stream until they end a message or show a refusal, and what they then come to.
#![tactic(auto)]

pub mod handshakes;
pub mod judge;
pub mod piece;

use lists::inline::Bytes;

// The longest message: two bytes of a header, two of a length and 1,024 of a body.
pub const MESSAGE_MAX: usize = 1028;

// What was taken of a piece: the unfinished bytes with those taken behind them, how many these are, and whether they end a message or show
// a refusal: a flag, since the bytes are there either way.
#[derive(Clone, Copy)]
pub struct Part {
    pub bytes: Bytes<MESSAGE_MAX>,
    pub taken: usize,
    pub ended: bool,
}
