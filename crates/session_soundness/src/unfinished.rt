// The test of unfinished bytes: as a hello, a status or a message they end nothing and show no refusal.
ghost use Rattle.std.specs.Prelude.{◌≡◌, ◌≤◌};
ghost use Rattle.handshake.specs.Handshake.{peer_name_max, judge_hello, judge_status};
ghost use Rattle.frame.specs.Frame.{judge_frame};
ghost use Rattle.session.specs.Session.{local_name, remote_name};
ghost use Rattle.session_soundness.specs.Sound.{name_length, hello_waits, status_waits, frame_waits, waits};

use frame::{Frame, judge_frame};
use handshake::judging::judge_hello;
use handshake::status_line::judge_status;
use handshake::{Hello, PEER_NAME_MAX, Status};
use session::{AWAITING_HELLO, AWAITING_STATUS, Connection};

// How many bytes of a name's array are the name: the whole array, where the length is past it.
#[tactic(auto, unfolding(crate::specs::Sound::name_length))]
fn name_len(n: usize) -> usize
    ensures { (result ≡ name_length n) × (result ≤ peer_name_max) }
{
    n.min(PEER_NAME_MAX)
}

// A hello's bytes judged with the names of a connection.
#[tactic(auto, using(crate::proofs::RecordTests::name_taken), unfolding(session::specs::Session::local_name, session::specs::Session::remote_name))]
pub fn hello_of(c: Connection, u: &[u8]) -> Hello
    ensures { result ≡ judge_hello (local_name c) (remote_name c) u.now }
{
    let n = name_len(c.local_len);
    let m = name_len(c.remote_len);
    judge_hello(u, &c.local[..n], &c.remote[..m])
}

fn hello_waits(c: Connection, u: &[u8]) -> bool
    ensures { result ≡ hello_waits (judge_hello (local_name c) (remote_name c) u.now) }
{
    matches!(hello_of(c, u), Hello::Waiting)
}

fn status_waits(u: &[u8]) -> bool
    ensures { result ≡ status_waits (judge_status u.now) }
{
    matches!(judge_status(u), Status::Waiting)
}

fn frame_waits(u: &[u8]) -> bool
    ensures { result ≡ frame_waits (judge_frame u.now) }
{
    matches!(judge_frame(u), Frame::Waiting)
}

// Whether bytes end nothing and show no refusal.
#[tactic(auto, unfolding(crate::specs::Sound::waits))]
pub fn bytes_wait(c: Connection, u: &[u8]) -> bool
    ensures { result ≡ waits c u.now }
{
    match c.phase {
        AWAITING_HELLO => hello_waits(c, u),
        AWAITING_STATUS => status_waits(u),
        _ => frame_waits(u),
    }
}
