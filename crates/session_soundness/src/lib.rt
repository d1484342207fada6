// Whether the rules allow a session record with a store: "Not sound means", as far as it concerns the record. A module for each kind of fault.
#![tactic(auto)]

pub mod bindings;
pub mod current;
pub mod fields;
pub mod flags;
pub mod free_places;
pub mod refused;
pub mod sending;
pub mod unfinished;

ghost use Rattle.std.specs.Prelude.{◌≡◌};
ghost use Rattle.session_soundness.specs.Sound.{sound_connection, unfinished_ok, sound_session};

use crate::bindings::bindings_ok;
use crate::fields::fields_ok;
use crate::refused::is_refused_opening;
use crate::sending::sending_ok;
use crate::unfinished::bytes_wait;
use session::{Connection, Session, UNFINISHED_MAX};
use store::{TABLES, Table};

#[tactic(auto, unfolding(lists::specs::Lists::all_of, crate::specs::Sound::sound_connection))]
fn connection_ok(tables: [Table; TABLES], c: Connection) -> bool
    ensures { result ≡ sound_connection tables c }
{
    fields_ok(c) && bindings_ok(tables, c)
}

// Tests the whole only: where it waits, each first part of it does.
#[tactic(auto, using(crate::proofs::RecordTests::parts_wait), unfolding(crate::specs::Sound::unfinished_ok, session::specs::Session::is_closed))]
fn unfinished_ok(s: Session) -> bool
    ensures { result ≡ unfinished_ok s }
{
    if UNFINISHED_MAX < s.len {
        false
    } else if s.connection.closed == 1 {
        s.len == 0
    } else {
        bytes_wait(s.connection, &s.buffer[..s.len])
    }
}

// Whether the rules allow the record with a store that has these tables: refusal 4 is given where they don't.
#[tactic(auto, unfolding(crate::specs::Sound::sound_session))]
pub fn session_ok(tables: [Table; TABLES], s: Session) -> bool
    ensures { result ≡ sound_session tables s }
{
    is_refused_opening(s)
        || connection_ok(tables, s.connection) && unfinished_ok(s) && sending_ok(tables, s.sending)
}
