// A hash for each entry, a number by which most keys are told apart.
ghost use Rattle.std.specs.Prelude.{◌≡◌, not, ◌+◌, ◌*◌, ◌%◌, ◌^◌, ◌≤◌, ◌<◌, length, drop};
ghost use Rattle.lists.specs.Lists.{every, distinct};
ghost use Rattle.store.specs.Store.{key_of};
ghost use Rattle.store_soundness.specs.Hashes.{hash_end, mixed, word_of, hash_words, hash_bytes, hash_key, same_hash, other_hash};

use lists::{Apart, all_distinct};
use store::{ENTRIES, Entry, KEY_MAX};

// Hashes of held entries are below this prime, which is the hash of a free place.
pub const HASH_END: u32 = 2147483647;

// The hash after a number more of a key.
fn mix(hash: u64, n: u64) -> u64
    requires { (hash < hash_end) × (n < 2 ^ 32) }
    ensures { (result ≡ mixed hash n) × (result < hash_end) }
{
    (hash * 65599 + n) % 2147483647
}

// Four bytes of a key as a number.
fn word_at(key: &[u8], at: usize) -> u64
    requires { at + 4 ≤ length key.now }
    ensures { (result ≡ word_of (drop at key.now)) × (result < 2 ^ 32) }
{
    let low = u64::from(key[at]) + 256 * u64::from(key[at + 1]);
    let high = u64::from(key[at + 2]) + 256 * u64::from(key[at + 3]);
    low + 65536 * high
}

// The hash after so many words of a key.
#[tactic(auto, using(crate::proofs::hashes::Hashing::wording))]
fn hash_words(start: u64, words: usize, key: &[u8]) -> u64
    requires { (start < hash_end) × (4 * words ≤ length key.now) }
    ensures { (result ≡ hash_words words start key.now) × (result < hash_end) }
{
    let mut hash = start;
    for k in 0..words {
        hash = mix(hash, word_at(key, 4 * k));
    }
    hash
}

// The hash after single bytes.
#[tactic(auto, using(crate::proofs::hashes::Hashing::hashing))]
fn hash_bytes(start: u64, bytes: &[u8]) -> u64
    requires { start < hash_end }
    ensures { (result ≡ hash_bytes start bytes.now) × (result < hash_end) }
{
    let mut hash = start;
    for b in bytes {
        hash = mix(hash, u64::from(*b));
    }
    hash
}

// The hash after a key.
#[tactic(auto, using(crate::proofs::hashes::Hashing::key_hashing))]
fn hash_key(start: u64, key: &[u8]) -> u64
    requires { start < hash_end }
    ensures { (result ≡ hash_key start key.now) × (result < hash_end) }
{
    let words = key.len() / 4;
    let hash = hash_words(start, words, key);
    let at = 4 * words;
    hash_bytes(hash, &key[at..])
}

// The hash of a held entry.
#[tactic(auto, using(crate::proofs::hashes::Hashing::entry_hashes))]
pub fn held_hash(e: Entry) -> u32
    ensures { result ≡ hash_key (e.table % hash_end) (key_of e) }
{
    let key = e.key;
    let n = e.key_len.min(KEY_MAX);
    hash_key(e.table as u64 % 2147483647, &key[..n]) as u32
}

// Whether no hash is this one. All are looked at: such a loop is compiled to wide instructions, and `contains`, which stops
// at the first, is not.
#[tactic(auto, unfolding(lists::specs::Lists::every))]
fn hash_apart(hashes: &[u32], hash: u32) -> bool
    ensures { result ≡ every (other_hash hash) hashes.now }
{
    let mut apart = true;
    for other in hashes {
        if *other == hash {
            apart = false;
        }
    }
    apart
}

// Whether none of the others has a hash, if that is of a held entry.
fn hash_once(hash: u32, others: &[u32]) -> bool
    ensures { result ≡ every (λ other. not (same_hash hash other)) others.now }
{
    HASH_END <= hash || hash_apart(others, hash)
}

// Hashes by their number, where it is that of a held entry.
struct ByHash;

impl Apart<u32> for ByHash {
    ghost alike = { same_hash };

    fn apart(hash: &u32, others: &[u32]) -> bool {
        hash_once(*hash, others)
    }
}

// Whether no two held entries have one hash.
pub fn hashes_distinct(hashes: [u32; ENTRIES]) -> bool
    ensures { result ≡ distinct same_hash hashes }
{
    all_distinct::<u32, ByHash>(&hashes)
}
