// The word of a value whose data type may be absent.
ghost use Rattle.std.specs.Prelude.{[], ◌∷◌, map};
ghost use Rattle.handshake.specs.Bytes.{decimal};
ghost use Rattle.text.specs.Text.{spaced};
ghost use Rattle.wire.specs.Writing.{Writes};
ghost use Rattle.dump.specs.StoreLines.{present_among};

use text::spaced::put_decimal_word;
use wire::writer::Writer;

// A number with a space before it, if its data type is present.
pub fn put_present(w: &mut Writer<'_>, types: u32, t: usize, n: u64)
    ensures { Writes (spaced (map decimal (present_among types (t ∷ []) (n ∷ [])))) w.old w.new }
{
    if store::types::present(types, t) {
        put_decimal_word(w, n);
    }
}
