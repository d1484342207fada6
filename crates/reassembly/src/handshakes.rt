// What the bytes of a hello and of a status do. Bytes that end nothing and show no refusal come to more wanted, and change nothing.
ghost use Rattle.std.specs.Prelude.{◌≡◌, []};
ghost use Rattle.handshake.specs.Handshake.{judge_hello, judge_status};
ghost use Rattle.session.specs.Session.{local_name, remote_name};
ghost use Rattle.message.specs.Effects.{note};
ghost use Rattle.reassembly.specs.Judge.{hello_judged, status_judged, effect_of};

use handshake::status_line::judge_status;
use handshake::{Hello, Status};
use message::Effect;
use message::changes::{note, refuse};
use session::reply_bytes::{hello_reply, no_reply};
use session::{Answer, Connection, establish_connection};
use session_soundness::unfinished::hello_of;

pub fn more(connection: Connection) -> Effect
    ensures { result ≡ note connection Answer.More [] }
{
    note(connection, Answer::More, no_reply())
}

#[tactic(auto, unfolding(crate::specs::Judge::effect_of, crate::specs::Judge::hello_judged))]
pub fn hello_effect(connection: Connection, u: &[u8]) -> Effect
    ensures { result ≡ effect_of connection (hello_judged connection (judge_hello (local_name connection) (remote_name connection) u.now)) }
{
    let hello = hello_of(connection, u);
    match hello {
        Hello::Waiting => more(connection),
        Hello::Accepted { process, relative } => {
            let established = establish_connection(connection);
            note(
                established,
                Answer::Hello { process, relative },
                hello_reply(hello),
            )
        }
        Hello::Refused(number) => refuse(connection, number),
    }
}

#[tactic(auto, unfolding(crate::specs::Judge::effect_of, crate::specs::Judge::status_judged))]
pub fn status_effect(connection: Connection, u: &[u8]) -> Effect
    ensures { result ≡ effect_of connection (status_judged connection (judge_status u.now)) }
{
    match judge_status(u) {
        Status::Waiting => more(connection),
        Status::Accepted => note(establish_connection(connection), Answer::Status, no_reply()),
        Status::Refused(number) => refuse(connection, number),
    }
}
