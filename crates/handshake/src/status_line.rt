// A status judged.
ghost use Rattle.std.specs.Prelude.{◌≡◌};
ghost use Rattle.handshake.specs.Bytes.{one_of};
ghost use Rattle.handshake.specs.Handshake.{failure_lines, judge_status};

use crate::Status;

#[tactic(auto, unfolding(lists::specs::Lists::eq_bytes, crate::specs::Bytes::one_of, crate::specs::Bytes::decimal, crate::specs::Bytes::decimal_in, crate::specs::Handshake::failure_lines, crate::specs::Handshake::status_line, crate::specs::Handshake::lf))]
fn known_failure(four: &[u8; 4]) -> bool
    ensures { result ≡ one_of four.now failure_lines }
{
    four == b"300\n" || four == b"501\n" || four == b"502\n" || four == b"503\n" || four == b"504\n"
}

// What the bytes of a status come to.
#[tactic(auto, unfolding(lists::specs::Lists::eq_bytes, crate::specs::Bytes::one_of, crate::specs::Bytes::decimal, crate::specs::Bytes::decimal_in, crate::specs::Handshake::status_line, crate::specs::Handshake::lf, crate::specs::Handshake::judge_four, crate::specs::Handshake::judge_status))]
pub fn judge_status(s: &[u8]) -> Status
    ensures { result ≡ judge_status s.now }
{
    let Some(four) = s.first_chunk::<4>() else {
        return Status::Waiting;
    };
    if four == b"200\n" {
        return Status::Accepted;
    }
    if known_failure(four) {
        return Status::Refused(14);
    }
    Status::Refused(15)
}
