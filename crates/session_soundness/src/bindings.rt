// The tests of a connection's bindings together: flags, free places, no ID bound twice, and the current table.
ghost use Rattle.std.specs.Prelude.{◌≡◌};
ghost use Rattle.lists.specs.Lists.{all_of, every, distinct};
ghost use Rattle.session_soundness.specs.Sound.{same_id, other_id, binding_tests};

use crate::current::current_ok;
use crate::flags::all_flags_ok;
use crate::free_places::free_places_ok;
use lists::{Apart, all_distinct};
use session::bound_ids::bound_to;
use session::{Binding, Connection};
use store::{TABLES, Table};

#[tactic(auto, unfolding(crate::specs::Sound::same_id, session::specs::Session::is_bound))]
fn same_id(a: Binding, b: Binding) -> bool
    ensures { result ≡ same_id a b }
{
    a.bound == 1 && bound_to(b, a.id)
}

// Whether none of these bindings has the ID of `a`.
#[tactic(auto, unfolding(lists::specs::Lists::every))]
fn id_apart(a: Binding, others: &[Binding]) -> bool
    ensures { result ≡ every (other_id a) others.now }
{
    others.iter().all(|b| !same_id(a, *b))
}

// Bindings by ID.
struct ById;

impl Apart<Binding> for ById {
    ghost alike = { same_id };

    fn apart(a: &Binding, others: &[Binding]) -> bool {
        id_apart(*a, others)
    }
}

// Whether no ID is bound twice.
fn ids_apart(bindings: [Binding; TABLES]) -> bool
    ensures { result ≡ distinct same_id bindings }
{
    all_distinct::<Binding, ById>(&bindings)
}

// Flags, free places, IDs bound twice and the current table.
#[tactic(auto, unfolding(lists::specs::Lists::all_of))]
pub fn bindings_ok(tables: [Table; TABLES], c: Connection) -> bool
    ensures { result ≡ all_of (binding_tests tables c) }
{
    all_flags_ok(c.bindings)
        && free_places_ok(tables, c.bindings)
        && ids_apart(c.bindings)
        && current_ok(tables, c)
}
