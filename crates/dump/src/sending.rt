// The lines of the sending state: the table defined last, and the update ID sent last.
ghost use Rattle.std.specs.Prelude.{◌≡◌, [], ◌∷◌};
ghost use Rattle.text.specs.Text.{line, spaced};
ghost use Rattle.wire.specs.Writing.{Writes};
ghost use Rattle.dump.specs.RecordLines.{number_or_none, place_before, defined_line, sent_line, sending_lines};

use session::Sending;
use text::spaced::{put_decimal_word, put_word};
use wire::writer::Writer;

// A number with a space before it, `-` where there is none.
#[tactic(auto, unfolding(crate::specs::RecordLines::number_or_none))]
fn put_number_or_none(w: &mut Writer<'_>, n: Option<u64>)
    ensures { Writes (spaced (number_or_none n ∷ [])) w.old w.new }
{
    match n {
        Some(n) => put_decimal_word(w, n),
        None => put_word(w, b"-"),
    }
}

// A line of a word and a number, `-` where there is none.
pub(crate) fn number_line(w: &mut Writer<'_>, word: &[u8], n: Option<u64>)
    ensures { Writes (line word.now (number_or_none n ∷ [])) w.old w.new }
{
    w.put(word);
    put_number_or_none(w, n);
    w.put(b"\n");
}

// The place that is one less, if there is one.
#[tactic(auto, unfolding(crate::specs::RecordLines::place_before))]
pub(crate) fn place_before(plus_one: usize) -> Option<u64>
    ensures { result ≡ place_before plus_one }
{
    plus_one.checked_sub(1).map(|p| p as u64)
}

fn defined_line(w: &mut Writer<'_>, x: Sending)
    ensures { Writes (defined_line x) w.old w.new }
{
    number_line(w, b"defined", place_before(x.defined));
}

fn sent_line(w: &mut Writer<'_>, x: Sending)
    ensures { Writes (sent_line x) w.old w.new }
{
    if x.sent == 1 {
        number_line(w, b"sent", Some(u64::from(x.last)));
    } else {
        number_line(w, b"sent", None);
    }
}

// Both lines.
pub fn sending_lines(w: &mut Writer<'_>, x: Sending)
    ensures { Writes (sending_lines x) w.old w.new }
{
    defined_line(w, x);
    sent_line(w, x);
}
