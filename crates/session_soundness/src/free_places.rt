// The test of free places: bound IDs and previous IDs stand at places of held tables alone.
ghost use Rattle.std.specs.Prelude.{◌≡◌, ◌||◌, eqb};
ghost use Rattle.session_soundness.specs.Sound.{no_ids, free_places_ok};

use session::Binding;
use store::{TABLES, Table};

// Whether a place has neither a bound ID nor a previous ID.
#[tactic(auto, unfolding(crate::specs::Sound::no_ids, session::specs::Session::is_bound, session::specs::Session::is_updated))]
fn has_no_ids(b: Binding) -> bool
    ensures { result ≡ no_ids b }
{
    b.bound != 1 && b.updated != 1
}

// Whether a place may have this binding, where its table has this `held`.
fn place_ok(held: u32, b: Binding) -> bool
    ensures { result ≡ (eqb held 1 || no_ids b) }
{
    held == 1 || has_no_ids(b)
}

pub fn free_places_ok(tables: [Table; TABLES], bindings: [Binding; TABLES]) -> bool
    ensures { result ≡ free_places_ok tables bindings }
{
    tables
        .iter()
        .zip(bindings.iter())
        .all(|(t, b)| place_ok(t.held, *b))
}
