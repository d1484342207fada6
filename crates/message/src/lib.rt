// Messages past the handshake: what each does to session and store, and its reply.
#![tactic(auto)]

pub mod changes;
pub mod commit;
pub mod control;
pub mod definition;
pub mod stick_table;
pub mod update;

ghost use Rattle.std.specs.Prelude.{◌≡◌, slice_index_or};
ghost use Rattle.session.specs.Session.{no_binding};

use session::{Answer, Binding, Connection, Reply};
use store::{Entry, TABLES, Table};

// What a message does to the store: nothing, or a table or an entry goes to a place.
#[derive(Clone, Copy)]
pub enum Change {
    Nothing,
    Table { place: usize, table: Table },
    Entry { place: usize, entry: Entry },
}

// What a message did: the answer, the reply, the new connection, and the change of the store.
#[derive(Clone, Copy)]
pub struct Effect {
    pub answer: Answer,
    pub reply: Reply,
    pub connection: Connection,
    pub change: Change,
}

// What a message comes to before the entries are looked at: what it does, or, of an update, the entry to commit with this update ID.
#[derive(Clone, Copy)]
pub enum Asked {
    Done(Effect),
    Commit { id: u32, entry: Entry },
}

// What the session knows of the table at a place; past the last place, nothing.
#[tactic(auto, unfolding(session::specs::Session::no_binding))]
pub fn binding_at(bindings: [Binding; TABLES], place: usize) -> Binding
    ensures { result ≡ slice_index_or bindings place no_binding }
{
    match bindings.get(place) {
        Some(b) => *b,
        None => Binding {
            bound: 0,
            updated: 0,
            id: 0,
            previous: 0,
        },
    }
}
