// Plain table names.
ghost use Rattle.std.specs.Prelude.{◌≡◌};
ghost use Rattle.store.specs.Limits.{is_plain, plain_name};

// Whether a byte may stand in a table's name: `-`, `.`, `/`, digits and `:` are those from `-` to `:`.
#[tactic(auto, unfolding(crate::specs::Limits::is_plain, lists::specs::Lists::among))]
fn is_plain(b: u8) -> bool
    ensures { result ≡ is_plain b }
{
    matches!(b, b'-'..=b':' | b'A'..=b'Z' | b'_' | b'a'..=b'z')
}

// Whether all bytes of a name are plain.
#[tactic(auto, unfolding(lists::specs::Lists::every, crate::specs::Limits::plain_name))]
pub fn plain_name(name: &[u8]) -> bool
    ensures { result ≡ plain_name name.now }
{
    name.iter().all(|b| is_plain(*b))
}
