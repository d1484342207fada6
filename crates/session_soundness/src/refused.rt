// The test whether a record is the one that a refused opening returns.
ghost use Rattle.std.specs.Prelude.{◌≡◌};
ghost use Rattle.lists.specs.Lists.{all_of, every};
ghost use Rattle.session_soundness.specs.Sound.{empty_binding, name_zeros, connection_zeros, empty_buffer, is_refused_opening};

use crate::fields::refuses_opening;
use crate::sending::sent_nothing;
use lists::all_zero;
use session::{Binding, Connection, Session};
use store::TABLES;

#[tactic(auto, unfolding(crate::specs::Sound::empty_binding, lists::specs::Lists::all_of))]
fn is_empty(b: Binding) -> bool
    ensures { result ≡ empty_binding b }
{
    b == Binding::default()
}

#[tactic(auto, unfolding(lists::specs::Lists::every))]
fn all_empty(bindings: [Binding; TABLES]) -> bool
    ensures { result ≡ every empty_binding bindings }
{
    bindings.iter().all(|b| is_empty(*b))
}

#[tactic(auto, unfolding(lists::specs::Lists::all_of))]
fn no_names(c: Connection) -> bool
    ensures { result ≡ all_of (name_zeros c) }
{
    c.local_len == 0 && c.remote_len == 0 && all_zero(&c.local) && all_zero(&c.remote)
}

#[tactic(auto, unfolding(lists::specs::Lists::all_of))]
fn empty_connection(c: Connection) -> bool
    ensures { result ≡ all_of (connection_zeros c) }
{
    c.phase == 0 && c.current == 0 && no_names(c) && all_empty(c.bindings)
}

#[tactic(auto, unfolding(crate::specs::Sound::empty_buffer))]
fn empty_buffer(s: Session) -> bool
    ensures { result ≡ empty_buffer s }
{
    s.len == 0 && all_zero(&s.buffer)
}

// Whether a record is the one that a refused opening returns.
#[tactic(auto, unfolding(lists::specs::Lists::all_of, crate::specs::Sound::is_refused_opening))]
pub fn is_refused_opening(s: Session) -> bool
    ensures { result ≡ is_refused_opening s }
{
    let c = s.connection;
    c.closed == 1
        && refuses_opening(c.number)
        && sent_nothing(s.sending)
        && empty_buffer(s)
        && empty_connection(c)
}
