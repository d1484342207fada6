// The end of a sending call: a refusal, or the message at the front of the room and the sending state then.
ghost use Rattle.std.specs.Prelude.{◌≡◌, ◌&&◌, slice_index_or};
ghost use Rattle.store.specs.Store.{table_held, no_table, no_entry};
ghost use Rattle.session_soundness.specs.Sound.{sound_session};
ghost use Rattle.sending.specs.Sending.{is_of, definition_message, entry_message, can_send, message_for};
ghost use Rattle.sending.specs.Finish.{one_entry, asked_of_one, Finishes};

use crate::Ask;
use crate::messages::{put_definition_message, put_update_message};
use crate::plans::{form_for, is_of, send_number};
use session::{Sending, Session};
use session_soundness::session_ok;
use store::tables::table_at;
use store::{Entry, TABLES, Table};

// The definition of the table at a place, with this ID. No entry is sent since.
fn define(
    session: Session,
    sound: bool,
    tables: [Table; TABLES],
    place: usize,
    id: u32,
    room: &mut [u8],
) -> Result<(usize, Sending), u8>
    ensures { Finishes sound session (table_held (slice_index_or tables place no_table)) (definition_message (one_entry tables no_entry) place id) room.old result room.new }
{
    let table = table_at(tables, place);
    send_number(session, sound, room.len(), table.held == 1)?;
    let len = put_definition_message(room, id, table);
    let after = Sending {
        defined: place + 1,
        sent: 0,
        last: 0,
    };
    Ok((len, after))
}

// An entry of the table defined last, with this update ID.
fn update(
    session: Session,
    sound: bool,
    tables: [Table; TABLES],
    entry: Entry,
    id: u32,
    room: &mut [u8],
) -> Result<(usize, Sending), u8>
    ensures { Finishes sound session (is_of session.sending entry) (entry_message (one_entry tables entry) session.sending 0 id) room.old result room.new }
{
    let before = session.sending;
    send_number(session, sound, room.len(), is_of(before, entry))?;
    let table = table_at(tables, entry.table);
    let form = form_for(before, entry, id);
    let len = put_update_message(room, form, table, id, entry);
    let after = Sending {
        defined: before.defined,
        sent: 1,
        last: id,
    };
    Ok((len, after))
}

// Whether the rules allow the record with a store that has these tables, where the store is sound or not: its test is made where it is lent.
fn is_sound(session: Session, store_sound: bool, tables: [Table; TABLES]) -> bool
    ensures { result ≡ (store_sound && sound_session tables session) }
{
    store_sound && session_ok(tables, session)
}

// The call's end, with the store's tables and the entry at the place that is asked for: the message's length and the sending state
// afterwards, or the refusal's number.
#[tactic(auto, unfolding(crate::specs::Sending::can_send, crate::specs::Sending::message_for, crate::specs::Finish::asked_of_one, crate::specs::Sending::definition_message))]
pub fn finish_send(
    session: Session,
    store_sound: bool,
    tables: [Table; TABLES],
    ask: Ask,
    entry: Entry,
    room: &mut [u8],
) -> Result<(usize, Sending), u8>
    ensures { Finishes (store_sound && sound_session tables session) session (can_send (one_entry tables entry) session.sending (asked_of_one ask)) (message_for (one_entry tables entry) session.sending (asked_of_one ask)) room.old result room.new }
{
    let sound = is_sound(session, store_sound, tables);
    match ask {
        Ask::Definition { place, id } => define(session, sound, tables, place, id, room),
        Ask::Entry { place: _, id } => update(session, sound, tables, entry, id, room),
    }
}
