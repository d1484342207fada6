// The lines of a record's bound IDs and previous IDs.
ghost use Rattle.std.specs.Prelude.{cond, [], ◌∷◌, eqb};
ghost use Rattle.handshake.specs.Bytes.{decimal};
ghost use Rattle.text.specs.Text.{line};
ghost use Rattle.wire.specs.Writing.{Writes};
ghost use Rattle.dump.specs.RecordLines.{binding_lines, bindings_lines};

use session::Binding;
use store::TABLES;
use text::spaced::put_decimal_word;
use wire::writer::Writer;

// A line of a word, a place and an ID, where the flag says that there is one.
// The flag is a Binding's, as C holds it.
fn flagged_line(w: &mut Writer<'_>, flag: u32, word: &[u8], place: usize, id: u32)
    ensures { Writes (cond (eqb flag 1) (line word.now (decimal place ∷ decimal id ∷ [])) []) w.old w.new }
{
    if flag == 1 {
        w.put(word);
        put_decimal_word(w, place as u64);
        put_decimal_word(w, u64::from(id));
        w.put(b"\n");
    }
}

fn binding_lines(w: &mut Writer<'_>, place: usize, b: Binding)
    ensures { Writes (binding_lines place b) w.old w.new }
{
    flagged_line(w, b.bound, b"bound", place, b.id);
    flagged_line(w, b.updated, b"previous", place, b.previous);
}

pub fn bindings_lines(w: &mut Writer<'_>, bindings: [Binding; TABLES])
    ensures { Writes (bindings_lines 0 bindings) w.old w.new }
{
    for (place, b) in bindings.iter().enumerate() {
        binding_lines(w, place, *b);
    }
}
