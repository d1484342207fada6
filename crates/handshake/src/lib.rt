// The handshake of the peers protocol: a hello read and written, a status read, and which names may be given at opening.
// The types that the modules share stand here.
#![tactic(auto)]

pub mod judging;
pub mod lines;
pub mod names;
pub mod sender;
pub mod status_line;
pub mod writing;

ghost use Rattle.std.specs.Prelude.{◌≡◌, true, ◌+◌, ◌<◌};
ghost use Rattle.handshake.specs.Bytes.{within};
ghost use Rattle.handshake.specs.Handshake.{name_ok, hello_error};

// The longest peer name.
pub const PEER_NAME_MAX: usize = 32;

// Why a line has no end: the bytes end before an LF; or a 65th byte stands where an LF had to be.
#[derive(Clone, Copy, Debug, PartialEq, Eq)]
pub enum LineError {
    Open,
    TooLong,
}

// What the bytes of a hello come to so far. Three outcomes, and the document's number of a refusal, as `hello_reply` and an `Answer` hold it.
#[derive(Clone, Copy)]
pub enum Hello {
    Waiting,
    Accepted { process: u32, relative: u32 },
    Refused(u8),
}

// A line that has no end yet is waited for, and one that is too long is refused.
impl From<LineError> for Hello {
    ghost from_gives = { λ e r. r ≡ hello_error e };

    fn from(e: LineError) -> Hello {
        match e {
            LineError::Open => Hello::Waiting,
            LineError::TooLong => Hello::Refused(10),
        }
    }
}

// What the bytes of a status come to so far: three outcomes, and the document's number of a refusal, as an `Answer` holds it.
#[derive(Clone, Copy)]
pub enum Status {
    Waiting,
    Accepted,
    Refused(u8),
}

// Whether each byte is in a range.
#[tactic(auto, unfolding(crate::specs::Bytes::within))]
pub fn bytes_within(s: &[u8], lo: u8, hi: u8) -> bool
    ensures { result ≡ within lo hi s.now }
{
    s.iter().all(|b| lo <= *b && *b <= hi)
}

// Whether a name may be given at opening.
#[tactic(auto, unfolding(crate::specs::Handshake::name_ok))]
pub fn name_ok(name: &[u8]) -> bool
    ensures { result ≡ name_ok name.now }
{
    1 <= name.len() && name.len() <= PEER_NAME_MAX && bytes_within(name, 33, 126)
}
