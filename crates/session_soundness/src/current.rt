// The test of the current table: it is held and has an ID.
ghost use Rattle.std.specs.Prelude.{◌≡◌};
ghost use Rattle.session_soundness.specs.Sound.{current_ok};

use session::Connection;
use store::{TABLES, Table};

#[tactic(auto, unfolding(crate::specs::Sound::current_ok, store::specs::Store::table_held, session::specs::Session::is_bound, session::specs::Session::binding_at))]
pub fn current_ok(tables: [Table; TABLES], c: Connection) -> bool
    ensures { result ≡ current_ok tables c }
{
    match (c.current as usize).checked_sub(1) {
        None => true,
        Some(place) => place < TABLES && tables[place].held == 1 && c.bindings[place].bound == 1,
    }
}
