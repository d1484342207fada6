// The test of a connection's fields: phase, closed or open, closing number and names.
ghost use Rattle.std.specs.Prelude.{◌≡◌};
ghost use Rattle.lists.specs.Lists.{all_of};
ghost use Rattle.session_soundness.specs.Sound.{refuses_opening, is_closing, number_ok, name_within, names_ok, field_tests};

use handshake::{PEER_NAME_MAX, name_ok};
use session::{Connection, ESTABLISHED};

#[tactic(auto, unfolding(crate::specs::Sound::refuses_opening))]
pub fn refuses_opening(number: u32) -> bool
    ensures { result ≡ refuses_opening number }
{
    matches!(number, 1 | 3)
}

// Whether a session can be closed with a number.
#[tactic(auto, unfolding(crate::specs::Sound::is_closing, crate::specs::Sound::refuses_opening))]
fn is_closing(number: u32) -> bool
    ensures { result ≡ is_closing number }
{
    matches!(number, 0 | 1 | 3 | 10..=15 | 20..=30)
}

#[tactic(auto, unfolding(crate::specs::Sound::number_ok, session::specs::Session::is_closed))]
fn number_ok(c: Connection) -> bool
    ensures { result ≡ number_ok c }
{
    if c.closed == 1 {
        is_closing(c.number)
    } else {
        c.number == 0
    }
}

#[tactic(auto, unfolding(crate::specs::Sound::name_within))]
fn name_within(n: usize, bytes: [u8; PEER_NAME_MAX]) -> bool
    ensures { result ≡ name_within n bytes }
{
    n <= PEER_NAME_MAX && name_ok(&bytes[..n])
}

#[tactic(auto, unfolding(crate::specs::Sound::names_ok))]
fn names_ok(c: Connection) -> bool
    ensures { result ≡ names_ok c }
{
    name_within(c.local_len, c.local) && name_within(c.remote_len, c.remote)
}

// Phase, closed or open, closing number and names.
#[tactic(auto, unfolding(lists::specs::Lists::all_of, crate::specs::Sound::phase_ok, crate::specs::Sound::closed_ok))]
pub fn fields_ok(c: Connection) -> bool
    ensures { result ≡ all_of (field_tests c) }
{
    c.phase <= ESTABLISHED && c.closed <= 1 && number_ok(c) && names_ok(c)
}
