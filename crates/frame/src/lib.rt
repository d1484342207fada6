// The header of a message and the length of its body, judged on the unfinished bytes.
#![tactic(auto)]

ghost use Rattle.std.specs.Prelude.{◌≡◌};
ghost use Rattle.wire.specs.Integer.{read_int};
ghost use Rattle.frame.specs.Frame.{header_of, with_length, judge_frame};

use wire::IntError;

// The longest body.
pub const BODY_MAX: u64 = 1024;

// The class of stick table messages, and their types.
pub const STICK_TABLE: u8 = 10;

pub const UPDATE: u8 = 128;

pub const INCREMENTAL: u8 = 129;

pub const DEFINITION: u8 = 130;

pub const SWITCH: u8 = 131;

pub const ACKNOWLEDGEMENT: u8 = 132;

pub const TIMED: u8 = 133;

pub const TIMED_INCREMENTAL: u8 = 134;

// What a message's first two bytes, its class and its type, say.
#[derive(Clone, Copy, Debug, PartialEq, Eq)]
pub enum Header {
    Control(u8),
    Error(u8),
    StickTable(u8),
}

// What the bytes of a message come to so far: more bytes are awaited; a whole control or error message; a whole stick table message,
// whose body stands from `start` up to `end`; or a refusal by the document's number, as an `Answer` holds it.
#[derive(Clone, Copy)]
pub enum Frame {
    Waiting,
    Control(u8),
    Error(u8),
    Body { kind: u8, start: usize, end: usize },
    Refused(u8),
}

// What class and type say, if they are known.
#[tactic(auto, unfolding(crate::specs::Frame::header_of))]
pub fn header_of(class: u8, kind: u8) -> Option<Header>
    ensures { result ≡ header_of class kind }
{
    match (class, kind) {
        (0, 0..=4) => Some(Header::Control(kind)),
        (1, 0..=1) => Some(Header::Error(kind)),
        (STICK_TABLE, UPDATE..=255) => Some(Header::StickTable(kind)),
        _ => None,
    }
}

// A stick table message, by the encoded length after its header.
#[tactic(auto, using(crate::proofs::Judging::end_fits), unfolding(crate::specs::Frame::with_length))]
fn judge_body(s: &[u8], kind: u8) -> Frame
    ensures { result ≡ with_length kind s.now (read_int s.now 2) }
{
    let (value, start) = match wire::read_int(s, 2) {
        Ok((value, start)) => (value, start),
        Err(IntError::Short { .. }) => return Frame::Waiting,
        Err(IntError::Overflow { .. }) => return Frame::Refused(21),
    };
    if BODY_MAX < value {
        return Frame::Refused(22);
    }
    let end = start + value as usize;
    if s.len() < end {
        return Frame::Waiting;
    }
    Frame::Body { kind, start, end }
}

// What the bytes of a message come to so far.
#[tactic(auto, unfolding(crate::specs::Frame::judge_frame, crate::specs::Frame::with_header))]
pub fn judge_frame(s: &[u8]) -> Frame
    ensures { result ≡ judge_frame s.now }
{
    if s.len() < 2 {
        return Frame::Waiting;
    }
    match header_of(s[0], s[1]) {
        Some(Header::Control(kind)) => Frame::Control(kind),
        Some(Header::Error(kind)) => Frame::Error(kind),
        Some(Header::StickTable(kind)) => judge_body(s, kind),
        None => Frame::Refused(20),
    }
}
