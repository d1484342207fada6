// What unfinished bytes come to.
ghost use Rattle.std.specs.Prelude.{◌≡◌};
ghost use Rattle.frame.specs.Frame.{judge_frame};
ghost use Rattle.reassembly.specs.Judge.{frame_judged, judge_bytes, asks_of};

use crate::handshakes::{hello_effect, more, status_effect};
use frame::{Frame, judge_frame};
use message::Asked;
use session::{AWAITING_HELLO, AWAITING_STATUS, Connection};
use store::{TABLES, Table};

#[tactic(auto, using(crate::proofs::judge::Judging::whole_body), unfolding(crate::specs::Judge::asks_of, crate::specs::Judge::frame_judged, message::specs::Effects::refusal))]
fn ask_frame(connection: Connection, tables: [Table; TABLES], u: &[u8]) -> Asked
    ensures { result ≡ asks_of connection (frame_judged connection tables u.now (judge_frame u.now)) }
{
    match judge_frame(u) {
        Frame::Waiting => Asked::Done(more(connection)),
        Frame::Control(kind) => Asked::Done(message::control::control(connection, kind)),
        Frame::Error(kind) => Asked::Done(message::control::peer_error(connection, kind)),
        Frame::Body { kind, start, end } => {
            message::stick_table::stick_table(connection, tables, kind, &u[start..end])
        }
        Frame::Refused(number) => Asked::Done(message::changes::refuse(connection, number)),
    }
}

// What unfinished bytes come to before the entries are looked at. Bytes that end nothing and show no refusal come to more wanted, and
// change nothing.
#[tactic(auto, using(crate::proofs::judge::Judging::none_asked), unfolding(crate::specs::Judge::judge_bytes))]
pub fn judge_bytes(connection: Connection, tables: [Table; TABLES], u: &[u8]) -> Asked
    ensures { result ≡ asks_of connection (judge_bytes connection tables u.now) }
{
    match connection.phase {
        AWAITING_HELLO => Asked::Done(hello_effect(connection, u)),
        AWAITING_STATUS => Asked::Done(status_effect(connection, u)),
        _ => ask_frame(connection, tables, u),
    }
}
