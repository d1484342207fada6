// The words of an entry's remaining time and values.
ghost use Rattle.std.specs.Prelude.{[], ◌∷◌, map};
ghost use Rattle.handshake.specs.Bytes.{decimal};
ghost use Rattle.store.specs.Limits.{slot_types};
ghost use Rattle.text.specs.Text.{signed, spaced};
ghost use Rattle.wire.specs.Writing.{Writes};
ghost use Rattle.dump.specs.StoreLines.{present_among, values_of, time_word};

use crate::present_words::put_present;
use store::{Entry, VALUES};
use text::decimal::put_decimal;
use text::spaced::{put_signed_word, put_word};
use wire::writer::Writer;

// The remaining time with a space before it.
pub fn put_time(w: &mut Writer<'_>, e: Entry)
    ensures { Writes (spaced (time_word e ∷ [])) w.old w.new }
{
    if e.timed == 1 {
        w.put(b" T");
        put_decimal(w, u64::from(e.remaining));
    } else {
        put_word(w, b"-");
    }
}

// The server ID with a space before it, if data type 0 is present.
fn put_server(w: &mut Writer<'_>, types: u32, id: i32)
    ensures { Writes (spaced (map signed (present_among types (0 ∷ []) (id ∷ [])))) w.old w.new }
{
    if store::types::present(types, 0) {
        put_signed_word(w, id);
    }
}

fn put_slots(w: &mut Writer<'_>, types: u32, values: [u64; VALUES])
    ensures { Writes (spaced (map decimal (present_among types slot_types values))) w.old w.new }
{
    for (i, n) in values.iter().enumerate() {
        put_present(w, types, store::types::slot_type(i), *n);
    }
}

pub fn put_values(w: &mut Writer<'_>, types: u32, e: Entry)
    ensures { Writes (spaced (map signed (values_of types e))) w.old w.new }
{
    put_server(w, types, e.server_id);
    let values = e.values;
    put_slots(w, types, values);
}
