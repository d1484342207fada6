// The tests of the sending state: the table defined last is held.
ghost use Rattle.std.specs.Prelude.{◌≡◌};
ghost use Rattle.session_soundness.specs.Sound.{defined_ok, sending_ok, sent_nothing};

use session::Sending;
use store::{TABLES, Table};

#[tactic(auto, unfolding(crate::specs::Sound::defined_ok, store::specs::Store::table_held))]
fn defined_ok(tables: [Table; TABLES], x: Sending) -> bool
    ensures { result ≡ defined_ok tables x }
{
    match x.defined.checked_sub(1) {
        None => true,
        Some(place) => place < TABLES && tables[place].held == 1,
    }
}

// Whether the mark of a last ID is 0 or 1, and the table defined last, if there is one, is held.
#[tactic(auto, unfolding(crate::specs::Sound::sending_ok))]
pub fn sending_ok(tables: [Table; TABLES], x: Sending) -> bool
    ensures { result ≡ sending_ok tables x }
{
    x.sent <= 1 && defined_ok(tables, x)
}

// Whether there is neither a table defined last nor a last ID.
#[tactic(auto, unfolding(crate::specs::Sound::sent_nothing))]
pub fn sent_nothing(x: Sending) -> bool
    ensures { result ≡ sent_nothing x }
{
    x == Sending::default()
}
