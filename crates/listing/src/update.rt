// The line of an update.
ghost use Rattle.std.specs.Prelude.{[], ◌∷◌};
ghost use Rattle.handshake.specs.Bytes.{ascii, decimal};
ghost use Rattle.text.specs.Text.{spaced, line};
ghost use Rattle.wire.specs.Writing.{Writes};
ghost use Rattle.listing.specs.AnswerLines.{commit_word};

use crate::words::put_numbers;
use session::Commit;
use text::spaced::{put_decimal_word, put_word};
use wire::writer::Writer;

#[tactic(auto, unfolding(crate::specs::AnswerLines::commit_word))]
fn put_commit(w: &mut Writer<'_>, how: Commit)
    ensures { Writes (spaced (commit_word how ∷ [])) w.old w.new }
{
    match how {
        Commit::New => put_word(w, b"new"),
        Commit::Replaced => put_word(w, b"replaced"),
    }
}

// An entry place and how the update was committed.
fn put_commit_at(w: &mut Writer<'_>, entry: usize, how: Commit)
    ensures { Writes (spaced (decimal entry ∷ commit_word how ∷ [])) w.old w.new }
{
    put_decimal_word(w, entry as u64);
    put_commit(w, how);
}

pub fn update_line(w: &mut Writer<'_>, table: usize, id: u32, entry: usize, how: Commit)
    ensures { Writes (line (ascii "update") (decimal table ∷ decimal id ∷ decimal entry ∷ commit_word how ∷ [])) w.old w.new }
{
    w.put(b"update");
    put_numbers(w, table as u64, u64::from(id));
    put_commit_at(w, entry, how);
    w.put(b"\n");
}
