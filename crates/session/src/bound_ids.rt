// The bindings of a connection: which table an ID is bound to, an ID bound anew, and a table's last committed update.
ghost use Rattle.std.specs.Prelude.{◌≡◌};
ghost use Rattle.session.specs.Session.{bound_to, find_bound, rebind, rebind_from, bind, committed};

use crate::{Binding, Connection, current_of};
use store::TABLES;

// Whether an ID is bound to the table of a binding.
#[tactic(auto, unfolding(crate::specs::Session::bound_to, crate::specs::Session::is_bound))]
pub fn bound_to(b: Binding, id: u32) -> bool
    ensures { result ≡ bound_to id b }
{
    b.bound == 1 && b.id == id
}

// The place of the table that an ID is bound to.
#[tactic(auto, unfolding(lists::specs::Lists::first_place, crate::specs::Session::find_bound))]
pub fn find_bound(c: Connection, id: u32) -> Option<usize>
    ensures { result ≡ find_bound c id }
{
    c.bindings.iter().position(|b| bound_to(*b, id))
}

#[tactic(auto, unfolding(crate::specs::Session::rebind, crate::specs::Session::bind_to, crate::specs::Session::unbind))]
fn rebind_one(b: Binding, i: usize, place: usize, id: u32) -> Binding
    ensures { result ≡ rebind i place id b }
{
    if i == place {
        Binding { bound: 1, id, ..b }
    } else if bound_to(b, id) {
        Binding {
            bound: 0,
            id: 0,
            ..b
        }
    } else {
        b
    }
}

fn rebind_all(bindings: [Binding; TABLES], place: usize, id: u32) -> [Binding; TABLES]
    ensures { result ≡ rebind_from 0 place id bindings }
{
    let mut bs = bindings;
    for (i, b) in bs.iter_mut().enumerate() {
        *b = rebind_one(*b, i, place, id);
    }
    bs
}

// The connection with an ID bound to the table at a place, and to no other; this table is then current.
#[tactic(auto, unfolding(crate::specs::Session::bind, crate::specs::Session::with_tables))]
pub fn bind_table(c: Connection, place: usize, id: u32) -> Connection
    ensures { result ≡ bind c place id }
{
    Connection {
        current: current_of(place),
        bindings: rebind_all(c.bindings, place, id),
        ..c
    }
}

// The connection with an update's ID as the last committed one of the table at a place; past the last place nothing changes.
#[tactic(auto, unfolding(crate::specs::Session::committed, crate::specs::Session::with_tables, crate::specs::Session::commit_to, crate::specs::Session::binding_at, crate::specs::Session::no_binding))]
pub fn commit_update(c: Connection, place: usize, update: u32) -> Connection
    ensures { result ≡ committed c place update }
{
    let mut bindings = c.bindings;
    if TABLES <= place {
        return c;
    }
    bindings[place] = Binding {
        updated: 1,
        previous: update,
        ..bindings[place]
    };
    Connection { bindings, ..c }
}
