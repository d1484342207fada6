// Numbers for what a call returns: an enum can't cross the border to C, so an answer goes as its number and values.
ghost use Rattle.std.specs.Prelude.{◌≡◌};
ghost use Rattle.peers.specs.Numbers.{raw_outcome, raw_opened, sent_numbers};

use opening::Opened;
use session::answers::{answer_number, answer_values};
use session::{Outcome, Session};

// What a call gives back: the bytes taken, the reply's length, the answer's number, and its values: the first `count` of `values`, zeros
// after them.
#[repr(C)]
#[derive(Clone, Copy)]
pub struct RawOutcome {
    pub taken: usize,
    pub reply_len: usize,
    pub number: u32,
    pub count: u32,
    pub values: [u64; 4],
}

// What opening gives back.
#[repr(C)]
#[derive(Clone, Copy)]
pub struct RawOpened {
    pub session: Session,
    pub outcome: RawOutcome,
}

// What a sending call gives back: 0 and the message's length, or the refusal's number and 0.
#[repr(C)]
#[derive(Clone, Copy)]
pub struct RawSent {
    pub number: u32,
    pub len: u32,
}

// An outcome with numbers for its answer.
impl From<Outcome> for RawOutcome {
    ghost from_gives = { λ outcome r. r ≡ raw_outcome outcome };

    #[tactic(auto, unfolding(crate::specs::Numbers::raw_outcome, session::specs::Answers::values_of))]
    fn from(outcome: Outcome) -> RawOutcome {
        let told = answer_values(outcome.answer);
        // an array isn't stored straight from a field
        let values = told.numbers;
        RawOutcome {
            taken: outcome.taken,
            reply_len: outcome.reply_len,
            number: answer_number(outcome.answer),
            count: told.count,
            values,
        }
    }
}

impl From<Opened> for RawOpened {
    ghost from_gives = { λ opened r. r ≡ raw_opened opened };

    #[tactic(auto, unfolding(crate::specs::Numbers::raw_opened))]
    fn from(opened: Opened) -> RawOpened {
        RawOpened {
            session: opened.session,
            outcome: opened.outcome.into(),
        }
    }
}

impl From<Result<usize, u8>> for RawSent {
    ghost from_gives = { λ sent r. r ≡ sent_numbers sent };

    #[tactic(auto, unfolding(crate::specs::Numbers::sent_numbers))]
    fn from(sent: Result<usize, u8>) -> RawSent {
        match sent {
            Ok(len) => RawSent {
                number: 0,
                len: (len % 0x1_0000_0000) as u32,
            },
            Err(number) => RawSent {
                number: u32::from(number),
                len: 0,
            },
        }
    }
}
