// The lines of a table and of an entry.
ghost use Rattle.std.specs.Prelude.{[], ◌∷◌, map};
ghost use Rattle.handshake.specs.Bytes.{decimal};
ghost use Rattle.store.specs.Store.{name_of, key_of};
ghost use Rattle.text.specs.Text.{hex, hex_or_none, signed, spaced};
ghost use Rattle.wire.specs.Writing.{Writes};
ghost use Rattle.dump.specs.StoreLines.{values_of, times_words, time_word, table_line, entry_line};

use crate::entry::{put_time, put_values};
use crate::table::{put_times, put_types};
use listing::words::put_name;
use store::{Entry, Table};
use text::front;
use text::spaced::{put_decimal_word, put_hex_or_none};
use wire::writer::Writer;

fn put_definition(w: &mut Writer<'_>, t: Table)
    ensures { Writes (spaced (hex (name_of t) ∷ decimal t.key_type ∷ decimal t.key_len ∷ decimal t.data_types ∷ times_words t)) w.old w.new }
{
    put_name(w, t);
    put_types(w, t);
    put_times(w, t);
}

// The line of the table at a place; none if the place is free.
pub fn put_table(w: &mut Writer<'_>, place: usize, t: Table)
    ensures { Writes (table_line place t) w.old w.new }
{
    if t.held == 1 {
        w.put(b"table");
        put_decimal_word(w, place as u64);
        put_definition(w, t);
        w.put(b"\n");
    }
}

#[tactic(auto, unfolding(store::specs::Store::key_of))]
fn put_key(w: &mut Writer<'_>, e: Entry)
    ensures { Writes (spaced (hex_or_none (key_of e) ∷ [])) w.old w.new }
{
    let key = e.key;
    put_hex_or_none(w, front(&key, e.key_len));
}

// Table, key, remaining time and values.
fn put_content(w: &mut Writer<'_>, types: u32, e: Entry)
    ensures { Writes (spaced (decimal e.table ∷ hex_or_none (key_of e) ∷ time_word e ∷ map signed (values_of types e))) w.old w.new }
{
    put_decimal_word(w, e.table as u64);
    put_key(w, e);
    put_time(w, e);
    put_values(w, types, e);
}

// The line of the entry at a place, whose table has these data types; none if the place is free.
pub fn put_entry(w: &mut Writer<'_>, place: usize, types: u32, e: Entry)
    ensures { Writes (entry_line place types e) w.old w.new }
{
    if e.held == 1 {
        w.put(b"entry");
        put_decimal_word(w, place as u64);
        put_content(w, types, e);
        w.put(b"\n");
    }
}
