// Definitions and updates written. Each function puts its bytes behind what the writer has, as far as its room reaches.
ghost use Rattle.std.specs.Prelude.{◌++◌, length};
ghost use Rattle.store.specs.Limits.{slot_types, rate_types};
ghost use Rattle.store.specs.Store.{key_of};
ghost use Rattle.wire.specs.Integer.{encode_int};
ghost use Rattle.wire.specs.Room.{Wrote};
ghost use Rattle.wire.specs.Writing.{Writes};
ghost use Rattle.body.specs.Encodings.{each_bytes, key_bytes, server_bytes, value_bytes, entry_bytes, number_if, update_bytes, name_bytes, shape_bytes, period_bytes, times_bytes, definition_bytes};

use crate::update::Form;
use store::types::{is_string, key_kind, present, rate_type, slot_type};
use store::{Entry, KEY_MAX, NAME_MAX, RATES, Table, VALUES};
use wire::values::server_id_word;
use wire::writer::Writer;

// The number of bytes, and the bytes.
fn put_counted(w: &mut Writer<'_>, bytes: &[u8])
    ensures { Writes (encode_int (length bytes.now) ++ bytes.now) w.old w.new }
{
    w.int(bytes.len() as u64);
    w.put(bytes);
}

// ---- definition

// The table's ID, and its name behind its length.
fn put_named(w: &mut Writer<'_>, id: u32, table: Table)
    ensures { Writes (name_bytes id table) w.old w.new }
{
    w.int(id as u64);
    let name = table.name;
    let n = table.name_len.min(NAME_MAX);
    put_counted(w, &name[..n]);
}

// Key type, key length and data types.
fn put_shape(w: &mut Writer<'_>, table: Table)
    ensures { Writes (shape_bytes table) w.old w.new }
{
    w.int(table.key_type as u64);
    w.int(table.key_len as u64);
    w.int(table.data_types as u64);
}

// The number of rate type `t` and its period, if it is present.
fn put_pair(w: &mut Writer<'_>, types: u32, t: usize, period: u32)
    ensures { Writes (period_bytes types t period) w.old w.new }
{
    if present(types, t) {
        w.int(t as u64);
        w.int(period as u64);
    }
}

// The pairs of the rate types present, ascending. `put_values` has the same loop over another type of number; one function for both would take
// what puts a value as a closure, and be no plainer.
#[tactic(auto, using(crate::proofs::writing::WritingLaws::each_laws))]
fn put_pairs(w: &mut Writer<'_>, types: u32, periods: [u32; RATES])
    ensures { Writes (each_bytes (period_bytes types) rate_types periods) w.old w.new }
{
    for (i, period) in periods.iter().enumerate() {
        put_pair(w, types, rate_type(i), *period);
    }
}

// Expiry and pairs, if the table has them.
fn put_times(w: &mut Writer<'_>, table: Table)
    ensures { Writes (times_bytes table) w.old w.new }
{
    if table.timed == 1 {
        w.int(table.expiry as u64);
        let periods = table.periods;
        put_pairs(w, table.data_types, periods);
    }
}

// The body of a table's definition, with this ID, put into the room from `at` on; the position behind it.
pub fn put_definition(room: &mut [u8], at: usize, id: u32, table: Table) -> usize
    ensures { Wrote room.old at (definition_bytes id table) room.new result }
{
    let mut w = Writer { room, at };
    put_named(&mut w, id, table);
    put_shape(&mut w, table);
    put_times(&mut w, table);
    w.at
}

// ---- update

// The four bytes of a number, if the update has it. The form's flag says so, as in `number_if`.
fn put_number_if(w: &mut Writer<'_>, there: bool, n: u32)
    ensures { Writes (number_if there n) w.old w.new }
{
    if there {
        w.number(n);
    }
}

// The entry's key, in a table of this key type.
fn put_key(w: &mut Writer<'_>, key_type: u32, entry: Entry)
    ensures { Writes (key_bytes key_type (key_of entry)) w.old w.new }
{
    let key = entry.key;
    let n = entry.key_len.min(KEY_MAX);
    if is_string(key_kind(key_type)) {
        put_counted(w, &key[..n]);
    } else {
        w.put(&key[..n]);
    }
}

// The server ID, if it is among the data types.
fn put_server(w: &mut Writer<'_>, types: u32, id: i32)
    ensures { Writes (server_bytes types id) w.old w.new }
{
    if present(types, 0) {
        w.int(server_id_word(id));
    }
}

// An integer of data type `t`, if that type is present.
fn put_value(w: &mut Writer<'_>, types: u32, t: usize, value: u64)
    ensures { Writes (value_bytes types t value) w.old w.new }
{
    if present(types, t) {
        w.int(value);
    }
}

// The integers of the slots whose data types are present, in bit order.
#[tactic(auto, using(crate::proofs::writing::WritingLaws::each_laws))]
fn put_values(w: &mut Writer<'_>, types: u32, values: [u64; VALUES])
    ensures { Writes (each_bytes (value_bytes types) slot_types values) w.old w.new }
{
    for (slot, value) in values.iter().enumerate() {
        put_value(w, types, slot_type(slot), *value);
    }
}

// Key and data of an entry of this table.
fn put_entry(w: &mut Writer<'_>, table: Table, entry: Entry)
    ensures { Writes (entry_bytes table entry) w.old w.new }
{
    let types = table.data_types;
    put_key(w, table.key_type, entry);
    put_server(w, types, entry.server_id);
    let values = entry.values;
    put_values(w, types, values);
}

// The body of an update of this form: the update ID and the remaining time, where the form has them, key and data; put into the room from `at`
// on. The position behind it.
pub fn put_update(
    room: &mut [u8],
    at: usize,
    form: Form,
    table: Table,
    id: u32,
    entry: Entry,
) -> usize
    ensures { Wrote room.old at (update_bytes form table id entry) room.new result }
{
    let mut w = Writer { room, at };
    put_number_if(&mut w, form.explicit, id);
    put_number_if(&mut w, form.timed, entry.remaining);
    put_entry(&mut w, table, entry);
    w.at
}
