// Lines of a word and numbers, the line of a hello and that of a table.
ghost use Rattle.std.specs.Prelude.{◌≡◌, [], ◌∷◌};
ghost use Rattle.handshake.specs.Bytes.{ascii, decimal};
ghost use Rattle.store.specs.Store.{name_of};
ghost use Rattle.session.specs.Session.{remote_name};
ghost use Rattle.text.specs.Text.{hex, spaced, line};
ghost use Rattle.wire.specs.Writing.{Writes};

use session::Connection;
use store::Table;
use text::front;
use text::spaced::{put_decimal_word, put_hex_word, put_word};
use wire::writer::Writer;

pub fn word_line(w: &mut Writer<'_>, word: &[u8])
    ensures { Writes (line word.now []) w.old w.new }
{
    w.put(word);
    w.put(b"\n");
}

pub fn number_line(w: &mut Writer<'_>, word: &[u8], n: u64)
    ensures { Writes (line word.now (decimal n ∷ [])) w.old w.new }
{
    w.put(word);
    put_decimal_word(w, n);
    w.put(b"\n");
}

// Two numbers, each with a space before it.
pub fn put_numbers(w: &mut Writer<'_>, n: u64, m: u64)
    ensures { Writes (spaced (decimal n ∷ decimal m ∷ [])) w.old w.new }
{
    put_decimal_word(w, n);
    put_decimal_word(w, m);
}

pub fn numbers_line(w: &mut Writer<'_>, word: &[u8], n: u64, m: u64)
    ensures { Writes (line word.now (decimal n ∷ decimal m ∷ [])) w.old w.new }
{
    w.put(word);
    put_numbers(w, n, m);
    w.put(b"\n");
}

// A refusal's number, and the offset at which the failing field starts.
pub fn refused_at_line(w: &mut Writer<'_>, number: u8, offset: usize)
    ensures { Writes (line (ascii "refused") (decimal number ∷ decimal offset ∷ [])) w.old w.new }
{
    numbers_line(w, b"refused", u64::from(number), offset as u64);
}

// The accepted peer's name.
#[tactic(auto, unfolding(session::specs::Session::remote_name))]
fn put_peer(w: &mut Writer<'_>, c: Connection)
    ensures { Writes (spaced (remote_name c ∷ [])) w.old w.new }
{
    let name = c.remote;
    put_word(w, front(&name, c.remote_len));
}

pub fn hello_line(w: &mut Writer<'_>, c: Connection, process: u32, relative: u32)
    ensures { Writes (line (ascii "hello") (remote_name c ∷ decimal process ∷ decimal relative ∷ [])) w.old w.new }
{
    w.put(b"hello");
    put_peer(w, c);
    put_numbers(w, u64::from(process), u64::from(relative));
    w.put(b"\n");
}

// A table's name in hex.
#[tactic(auto, unfolding(store::specs::Store::name_of))]
pub fn put_name(w: &mut Writer<'_>, t: Table)
    ensures { Writes (spaced (hex (name_of t) ∷ [])) w.old w.new }
{
    let name = t.name;
    put_hex_word(w, front(&name, t.name_len));
}

pub fn table_line(w: &mut Writer<'_>, place: usize, t: Table)
    ensures { Writes (line (ascii "table") (decimal place ∷ hex (name_of t) ∷ [])) w.old w.new }
{
    w.put(b"table");
    put_decimal_word(w, place as u64);
    put_name(w, t);
    w.put(b"\n");
}
