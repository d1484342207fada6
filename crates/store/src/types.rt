// Key types and data types of a table, by their numbers.
ghost use Rattle.std.specs.Prelude.{◌≡◌, slice_index};
ghost use Rattle.store.specs.Limits.{key_kind, is_known, is_string, key_length_fits, key_length_ok, present, is_wide, slot_types, rate_types};

use crate::{KEY_MAX, RATES, VALUES};

// What a key type says of its keys.
#[derive(Clone, Copy, Debug, PartialEq, Eq)]
pub enum KeyKind {
    Integer,
    Ipv4,
    Ipv6,
    Str,
    Binary,
}

// The kind of a key type's number, if it is one; no other function knows the numbers.
#[tactic(auto, unfolding(crate::specs::Limits::key_kind))]
pub fn key_kind(key_type: u32) -> Option<KeyKind>
    ensures { result ≡ key_kind key_type }
{
    match key_type {
        2 => Some(KeyKind::Integer),
        4 => Some(KeyKind::Ipv4),
        5 => Some(KeyKind::Ipv6),
        6 => Some(KeyKind::Str),
        7 => Some(KeyKind::Binary),
        _ => None,
    }
}

pub fn is_known(kind: Option<KeyKind>) -> bool
    ensures { result ≡ is_known kind }
{
    kind.is_some()
}

pub fn is_string(kind: Option<KeyKind>) -> bool
    ensures { result ≡ is_string kind }
{
    matches!(kind, Some(KeyKind::Str))
}

// Whether a key length is right for a kind, where the longest key has `most` bytes.
pub fn key_length_fits(most: usize, kind: Option<KeyKind>, len: usize) -> bool
    ensures { result ≡ key_length_fits most kind len }
{
    match kind {
        Some(KeyKind::Integer | KeyKind::Ipv4) => len == 4,
        Some(KeyKind::Ipv6) => len == 16,
        Some(KeyKind::Str | KeyKind::Binary) => (1..=most).contains(&len),
        None => false,
    }
}

#[tactic(auto, unfolding(crate::specs::Limits::key_length_ok))]
pub fn key_length_ok(key_type: u32, len: usize) -> bool
    ensures { result ≡ key_length_ok key_type len }
{
    key_length_fits(KEY_MAX, key_kind(key_type), len)
}

// The powers of 2 that a u32 holds: no shift by a computed count is a rule of docs/DECISIONS.md, and `pow` loops.
const POWERS: [u32; 32] = [
    1, 2, 4, 8, 16, 32, 64, 128, 256, 512, 1024, 2048, 4096, 8192, 16384, 32768, 65536, 131072,
    262144, 524288, 1048576, 2097152, 4194304, 8388608, 16777216, 33554432, 67108864, 134217728,
    268435456, 536870912, 1073741824, 2147483648,
];

// The data type of each slot of an entry's values, and the rate types, ascending.
const SLOT_TYPES: [usize; VALUES] = [
    1, 2, 3, 3, 3, 4, 5, 5, 5, 6, 7, 8, 8, 8, 9, 10, 10, 10, 11, 12, 12, 12, 13, 14, 14, 14, 15,
    16, 16, 16, 17, 18, 18, 18,
];

const RATE_TYPES: [usize; RATES] = [3, 5, 8, 10, 12, 14, 16, 18];

// Whether data type t is among the data types of a table.
pub fn present(types: u32, t: usize) -> bool
    ensures { result ≡ present types t }
{
    t < 32 && types / POWERS[t] % 2 == 1
}

// Whether the values of data type t take 64 bits.
#[tactic(auto, unfolding(crate::specs::Limits::is_wide, lists::specs::Lists::among))]
pub fn is_wide(t: usize) -> bool
    ensures { result ≡ is_wide t }
{
    matches!(t, 13 | 15)
}

// The data type of a slot, or 0 past the last.
#[tactic(auto, unfolding(crate::specs::Limits::slot_types, crate::specs::Limits::slots_for, crate::specs::Limits::integers_of, crate::specs::Limits::is_rate, crate::specs::Limits::rate_types, lists::specs::Lists::among))]
pub fn slot_type(slot: usize) -> usize
    ensures { result ≡ slice_index slot_types slot }
{
    match SLOT_TYPES.get(slot) {
        Some(t) => *t,
        None => 0,
    }
}

// The rate type that a period is for, or 0 past the last.
#[tactic(auto, unfolding(crate::specs::Limits::rate_types))]
pub fn rate_type(period: usize) -> usize
    ensures { result ≡ slice_index rate_types period }
{
    match RATE_TYPES.get(period) {
        Some(t) => *t,
        None => 0,
    }
}
