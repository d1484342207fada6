// The bytes of the replies to a hello and to refusals.
ghost use Rattle.std.specs.Prelude.{◌≡◌, []};
ghost use Rattle.handshake.specs.Handshake.{refusal_line, hello_reply};
ghost use Rattle.session.specs.Answers.{is_size_limit, is_protocol_error, refusal_reply, reply_of};

use crate::Reply;
use handshake::Hello;

pub fn no_reply() -> Reply
    ensures { result ≡ reply_of [] }
{
    Reply::new()
}

#[tactic(auto, unfolding(crate::specs::Answers::is_size_limit))]
fn is_size_limit(number: u8) -> bool
    ensures { result ≡ is_size_limit number }
{
    matches!(number, 22 | 26 | 29)
}

#[tactic(auto, unfolding(crate::specs::Answers::is_protocol_error))]
fn is_protocol_error(number: u8) -> bool
    ensures { result ≡ is_protocol_error number }
{
    matches!(number, 20 | 21 | 23 | 24 | 25 | 27 | 28 | 30)
}

// The status line that answers a refused hello.
#[tactic(auto, unfolding(handshake::specs::Handshake::refusal_line, handshake::specs::Handshake::status_line, handshake::specs::Handshake::lf, handshake::specs::Bytes::decimal, handshake::specs::Bytes::decimal_in))]
fn refusal_line(number: u8) -> Reply
    ensures { result ≡ reply_of (refusal_line number) }
{
    match number {
        10 => Reply::copy_from_slice(b"501\n"),
        11 => Reply::copy_from_slice(b"502\n"),
        12 => Reply::copy_from_slice(b"503\n"),
        13 => Reply::copy_from_slice(b"504\n"),
        _ => no_reply(),
    }
}

// The reply to a refusal, by document 01's table and request 8 of document 02.
#[tactic(auto, unfolding(crate::specs::Answers::refusal_reply))]
pub fn refusal_reply(number: u8) -> Reply
    ensures { result ≡ reply_of (refusal_reply number) }
{
    if is_size_limit(number) {
        Reply::copy_from_slice(&[1, 1])
    } else if is_protocol_error(number) {
        Reply::copy_from_slice(&[1, 0])
    } else {
        refusal_line(number)
    }
}

// The status line that answers a hello: none while it waits.
#[tactic(auto, unfolding(handshake::specs::Handshake::hello_reply, handshake::specs::Handshake::status_line, handshake::specs::Handshake::lf, handshake::specs::Bytes::decimal, handshake::specs::Bytes::decimal_in))]
pub fn hello_reply(hello: Hello) -> Reply
    ensures { result ≡ reply_of (hello_reply hello) }
{
    match hello {
        Hello::Waiting => no_reply(),
        Hello::Accepted { .. } => Reply::copy_from_slice(b"200\n"),
        Hello::Refused(number) => refusal_line(number),
    }
}
