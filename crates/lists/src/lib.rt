// Byte strings, a list of bytes in an array, and elements of a list compared: what the layers above share.
#![tactic(auto)]

pub mod behind;
pub mod inline;

ghost use Rattle.std.specs.Prelude.{◌≡◌, length, not, Bool};
ghost use Rattle.lists.specs.Lists.{every, distinct, eq_bytes, pad_to, is_zero};

// Fills the room with the bytes, as far as they fit, and zeros after them.
pub fn pad(room: &mut [u8], bytes: &[u8])
    ensures { room.new ≡ pad_to (length room.old) bytes.now }
{
    let n = bytes.len().min(room.len());
    room[..n].copy_from_slice(&bytes[..n]);
    room[n..].fill(0);
}

// Whether two byte strings are the same. The loop ends at the first byte that differs, which `==` and `starts_with` do not: where two keys have one
// hash, all pairs of keys are compared.
pub fn same(a: &[u8], b: &[u8]) -> bool
    ensures { result ≡ eq_bytes a.now b.now }
{
    if a.len() != b.len() {
        return false;
    }
    for i in 0..a.len() {
        if a[i] != b[i] {
            return false;
        }
    }
    true
}

// Whether all bytes are zero. All are looked at: such a loop is compiled to wide instructions, and `all`, which stops at
// the first that isn't, is not.
#[tactic(auto, unfolding(crate::specs::Lists::every))]
pub fn all_zero(bytes: &[u8]) -> bool
    ensures { result ≡ every is_zero bytes.now }
{
    let mut zero = true;
    for b in bytes {
        if *b != 0 {
            zero = false;
        }
    }
    zero
}

// What says of an element whether others are apart from it, that is, none of them is alike to it.
pub trait Apart<T> {
    ghost alike: { T → T → Bool };

    fn apart(x: &T, others: &[T]) -> bool
        ensures { result ≡ every (λ y. not (alike x.now y)) others.now };
}

// Whether no element is alike to a later one. What is left of the list shrinks. A test that holds values is asked in `all` over
// `behind::Behind`, which gives each element with those behind it.
pub fn all_distinct<T, A: Apart<T>>(xs: &[T]) -> bool
    ensures { result ≡ distinct A.alike xs.now }
{
    let mut rest = xs;
    while let Some((x, others)) = rest.split_first() {
        if !A::apart(x, others) {
            return false;
        }
        rest = others;
    }
    true
}
