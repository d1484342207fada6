// At most N bytes in an array, beside how many they are: a list of bytes that needs no heap.
ghost use Rattle.std.specs.Prelude.{◌≡◌, ◌+◌, ◌<◌, ◌≤◌, [], ◌∷◌, ◌++◌, length, take};

use std::marker::Model;

// The first `len` of `bytes`, and zeros after them. Clauses see it as the list of its bytes.
#[derive(Clone, Copy)]
pub struct Bytes<const N: usize> {
    bytes: [u8; N],
    len: usize,
}

impl<const N: usize> Model for Bytes<N> {
    ghost use Rattle.std.specs.Prelude.{ℕ, List, ◌≡◌, ◌≤◌, length, take};
    ghost use Rattle.lists.specs.Lists.{pad_to};
    ghost use Rattle.lists.specs.Padded.{Padded, padded_size};

    ghost Value = { List ℕ };

    ghost view = { λ a. take a.len a.bytes };

    ghost invariant = { λ a. Padded N a.bytes a.len };

    ghost inverse = { λ xs. record { bytes = pad_to N xs; len = length xs } };

    ghost inverse_ok = { λ a h. Prim.rw (← h.1, padded_size N a.bytes a.len h) };
}

impl<const N: usize> Bytes<N> {
    // No bytes.
    pub fn new() -> Self
        ensures { result ≡ [] }
    {
        Bytes {
            bytes: [0; N],
            len: 0,
        }
    }

    // How many bytes there are.
    pub fn len(&self) -> usize
        ensures value { result ≡ length self.now }
        ensures fits { result ≤ N }
    {
        self.as_slice().len()
    }

    // The bytes.
    pub fn as_slice(&self) -> &[u8]
        ensures value { result.now ≡ self.now }
        ensures fits { length result.now ≤ N }
    {
        &self.bytes[..self.len]
    }

    // Puts a byte behind the others, where there is room for it.
    pub fn push(&mut self, b: u8)
        ensures content { self.new ≡ take N (self.old ++ b ∷ []) }
        ensures whole { length self.old < N → self.new ≡ self.old ++ b ∷ [] }
    {
        if self.len < N {
            self.bytes[self.len] = b;
            self.len += 1;
        }
    }

    // Puts bytes behind the others, all of which there is room for.
    fn put_whole(&mut self, s: &[u8])
        requires { length self.old + length s.now ≤ N }
        ensures { self.new ≡ self.old ++ s.now }
    {
        let end = self.len + s.len();
        let all = &mut self.bytes[..];
        all[self.len..end].copy_from_slice(s);
        self.len = end;
    }

    // Puts bytes behind the others, as many as there is room for.
    pub fn extend_from_slice(&mut self, s: &[u8])
        ensures content { self.new ≡ take N (self.old ++ s.now) }
        ensures whole { length self.old + length s.now ≤ N → self.new ≡ self.old ++ s.now }
    {
        let n = s.len().min(N - self.len());
        self.put_whole(&s[..n]);
    }

    // These bytes, or the first N of them.
    pub fn copy_from_slice(s: &[u8]) -> Self
        ensures content { result ≡ take N s.now }
        ensures whole { length s.now ≤ N → result ≡ s.now }
    {
        let mut x = Bytes::new();
        x.extend_from_slice(s);
        x
    }
}
