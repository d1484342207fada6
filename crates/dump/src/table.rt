// The words of a table's definition: its types, its expiry and its periods.
ghost use Rattle.std.specs.Prelude.{[], ◌∷◌, map};
ghost use Rattle.handshake.specs.Bytes.{decimal};
ghost use Rattle.text.specs.Text.{spaced};
ghost use Rattle.wire.specs.Writing.{Writes};
ghost use Rattle.dump.specs.StoreLines.{periods_of, times_words};

use crate::present_words::put_present;
use store::Table;
use text::spaced::{put_decimal_word, put_word};
use wire::writer::Writer;

fn put_periods(w: &mut Writer<'_>, t: Table)
    ensures { Writes (spaced (map decimal (periods_of t))) w.old w.new }
{
    let types = t.data_types;
    let periods = t.periods;
    for (i, n) in periods.iter().enumerate() {
        put_present(w, types, store::types::rate_type(i), u64::from(*n));
    }
}

pub fn put_times(w: &mut Writer<'_>, t: Table)
    ensures { Writes (spaced (times_words t)) w.old w.new }
{
    if t.timed == 1 {
        put_decimal_word(w, u64::from(t.expiry));
        put_periods(w, t);
    } else {
        put_word(w, b"-");
    }
}

// Key type, key length and data types.
pub fn put_types(w: &mut Writer<'_>, t: Table)
    ensures { Writes (spaced (decimal t.key_type ∷ decimal t.key_len ∷ decimal t.data_types ∷ [])) w.old w.new }
{
    put_decimal_word(w, u64::from(t.key_type));
    put_decimal_word(w, u64::from(t.key_len));
    put_decimal_word(w, u64::from(t.data_types));
}
