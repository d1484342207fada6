// Committing an entry, and the acknowledgement of its update.
ghost use Rattle.std.specs.Prelude.{◌≡◌};
ghost use Rattle.message.specs.Effects.{acknowledge, commit_at};
ghost use Rattle.message.specs.Structs.{sought, finished};

use crate::changes::refuse;
use crate::{Asked, Change, Effect, binding_at};
use session::{Answer, Commit, Connection, Reply};
use store::entries::Place;
use store::{Entry, no_entry};

// The acknowledgement of an update: class 10, type 132, the length of its body, the table's bound ID and the update's ID.
pub fn acknowledge(id: u32, update: u32) -> Reply
    ensures { result ≡ acknowledge id update }
{
    let e = wire::write_int(id as u64);
    let mut reply = Reply::copy_from_slice(&[
        frame::STICK_TABLE,
        frame::ACKNOWLEDGEMENT,
        (4 + e.len()) as u8,
    ]);
    reply.extend_from_slice(e.as_slice());
    reply.extend_from_slice(&wire::fixed::write_number(update));
    reply
}

// The entry goes to a place, the update's ID is its table's last committed one, and the acknowledgement has the table's bound ID and this ID.
#[tactic(auto, unfolding(crate::specs::Effects::commit_at, crate::specs::Changes::entry_change, session::specs::Session::binding_at))]
pub fn commit_at(connection: Connection, id: u32, entry: Entry, place: usize, how: Commit) -> Effect
    ensures { result ≡ commit_at connection id entry place how }
{
    let table = entry.table;
    let committed = session::bound_ids::commit_update(connection, table, id);
    let bindings = connection.bindings;
    let b = binding_at(bindings, table);
    let reply = acknowledge(b.id, id);
    Effect {
        answer: Answer::Update {
            table,
            id,
            entry: place,
            commit: how,
        },
        reply,
        connection: committed,
        change: Change::Entry { place, entry },
    }
}

// What was asked is done, where a committed entry goes to the place.
#[tactic(auto, unfolding(crate::specs::Structs::finished, crate::specs::Effects::commit_entry))]
pub fn finish_at(connection: Connection, place: Place, asked: Asked) -> Effect
    ensures { result ≡ finished connection place asked }
{
    match asked {
        Asked::Done(effect) => effect,
        Asked::Commit { id, entry } => match place {
            Place::Held(i) => commit_at(connection, id, entry, i, Commit::Replaced),
            Place::Free(i) => commit_at(connection, id, entry, i, Commit::New),
            Place::Full => refuse(connection, 29),
        },
    }
}

// The entry whose place is looked for; where none is committed, that of a free place.
#[tactic(auto, unfolding(crate::specs::Structs::sought))]
pub fn sought(asked: Asked) -> Entry
    ensures { result ≡ sought asked }
{
    match asked {
        Asked::Done(_) => no_entry(),
        Asked::Commit { id: _, entry } => entry,
    }
}
