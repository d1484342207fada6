// The names given at opening tested, and a session record with them, nothing bound, nothing unfinished and nothing sent.
ghost use Rattle.std.specs.Prelude.{◌≡◌, ◌&&◌, []};
ghost use Rattle.lists.specs.Lists.{pad_to};
ghost use Rattle.handshake.specs.Handshake.{name_ok, peer_name_max};
ghost use Rattle.session.specs.Session.{holding, nothing_sent};
ghost use Rattle.opening.specs.New.{new_connection};

use handshake::{PEER_NAME_MAX, name_ok};
use lists::pad;
use session::{BUFFER, Binding, Connection, Session, nothing_sent};
use store::TABLES;

fn name_array(name: &[u8]) -> [u8; PEER_NAME_MAX]
    ensures { result ≡ pad_to peer_name_max name.now }
{
    let mut bytes = [0; PEER_NAME_MAX];
    pad(&mut bytes, name);
    bytes
}

// A session with these names, nothing bound, nothing unfinished and nothing sent.
pub fn new_session(phase: u32, closed: u32, number: u32, local: &[u8], remote: &[u8]) -> Session
    ensures { result ≡ holding nothing_sent (new_connection phase closed number local.now remote.now) [] }
{
    let connection = Connection {
        phase,
        closed,
        number,
        current: 0,
        local_len: local.len(),
        remote_len: remote.len(),
        local: name_array(local),
        remote: name_array(remote),
        bindings: [Binding::default(); TABLES],
    };
    Session {
        connection,
        len: 0,
        buffer: [0; BUFFER],
        sending: nothing_sent(),
    }
}

pub fn names_given(local: &[u8], remote: &[u8]) -> bool
    ensures { result ≡ (name_ok local.now && name_ok remote.now) }
{
    name_ok(local) && name_ok(remote)
}
