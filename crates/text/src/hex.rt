// Bytes in hex.
ghost use Rattle.std.specs.Prelude.{◌≡◌, ◌<◌, ◌/◌, ◌%◌, [], ◌∷◌};
ghost use Rattle.text.specs.Text.{hex_digit, hex};
ghost use Rattle.wire.specs.Writing.{Writes};

use wire::writer::Writer;

#[tactic(auto, unfolding(crate::specs::Text::hex_digit))]
fn hex_digit(d: u8) -> u8
    requires { d < 16 }
    ensures { result ≡ hex_digit d }
{
    if d < 10 { b'0' + d } else { b'A' + (d - 10) }
}

fn hex_pair(b: u8) -> [u8; 2]
    ensures { result ≡ hex_digit (b / 16) ∷ hex_digit (b % 16) ∷ [] }
{
    [hex_digit(b / 16), hex_digit(b % 16)]
}

// Each byte as two hex digits.
pub fn put_hex(w: &mut Writer<'_>, bytes: &[u8])
    ensures { Writes (hex bytes.now) w.old w.new }
{
    for b in bytes {
        w.put(&hex_pair(*b));
    }
}
