// Messages put whole at the front of the room, as far as it reaches: class, type, encoded body length, body.
ghost use Rattle.wire.specs.Room.{Wrote};
ghost use Rattle.frame.specs.Frame.{definition_type};
ghost use Rattle.body.specs.Encodings.{message_bytes, definition_bytes, update_bytes};
ghost use Rattle.sending.specs.Sending.{type_of};

use crate::plans::type_of;
use body::update::Form;
use body::writing::{put_definition, put_update};
use frame::{DEFINITION, STICK_TABLE};
use store::{Entry, Table};
use wire::writer::Writer;

// Room for a body: the longest has 423 bytes, whatever table and entry hold.
const BODY_ROOM: usize = 424;

// A message of class 10.
fn put_message(room: &mut [u8], kind: u8, body: &[u8]) -> usize
    ensures { Wrote room.old 0 (message_bytes kind body.now) room.new result }
{
    let mut w = Writer { room, at: 0 };
    w.put(&[STICK_TABLE, kind]);
    w.int(body.len() as u64);
    w.put(body);
    w.at
}

// The definition of a table, with this ID.
pub fn put_definition_message(room: &mut [u8], id: u32, table: Table) -> usize
    ensures { Wrote room.old 0 (message_bytes definition_type (definition_bytes id table)) room.new result }
{
    let mut body = [0u8; BODY_ROOM];
    let len = put_definition(&mut body, 0, id, table);
    put_message(room, DEFINITION, &body[..len])
}

// An update of this form, with this ID.
pub fn put_update_message(room: &mut [u8], form: Form, table: Table, id: u32, entry: Entry) -> usize
    ensures { Wrote room.old 0 (message_bytes (type_of form) (update_bytes form table id entry)) room.new result }
{
    let mut body = [0u8; BODY_ROOM];
    let len = put_update(&mut body, 0, form, table, id, entry);
    put_message(room, type_of(form), &body[..len])
}
