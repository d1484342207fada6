// Whether two entries of a store have one table and key.
ghost use Rattle.std.specs.Prelude.{◌≡◌, not};
ghost use Rattle.lists.specs.Lists.{every, distinct};
ghost use Rattle.store.specs.Store.{entry_keyed};
ghost use Rattle.store.specs.Sound.{same_key};

use lists::{Apart, all_distinct, same};
use store::{ENTRIES, Entry, KEY_MAX};

// Whether an entry is held by the table at this place with the key.
#[tactic(auto, unfolding(store::specs::Store::entry_keyed, store::specs::Store::entry_of, store::specs::Store::entry_held, store::specs::Store::key_of))]
pub fn entry_keyed(e: &Entry, table: usize, key: &[u8]) -> bool
    ensures { result ≡ entry_keyed table key.now e.now }
{
    let n = key.len();
    if KEY_MAX < n {
        return false;
    }
    if e.held != 1 || e.table != table || e.key_len != n {
        return false;
    }
    // a copy, as in `entry_apart`: a loop over copies is compiled to wide instructions
    let bytes = e.key;
    same(&bytes[..n], key)
}

// Whether no entry is held with the table and the key.
#[tactic(auto, unfolding(lists::specs::Lists::every))]
fn key_apart(entries: &[Entry], table: usize, key: &[u8]) -> bool
    ensures { result ≡ every (λ e. not (entry_keyed table key.now e)) entries.now }
{
    entries.iter().all(|e| !entry_keyed(e, table, key))
}

// Whether none of the others has the table and key of an entry, if that is held.
fn entry_apart(e: &Entry, others: &[Entry]) -> bool
    ensures { result ≡ every (λ f. not (same_key e.now f)) others.now }
{
    let n = e.key_len.min(KEY_MAX);
    let key = e.key;
    e.held != 1 || key_apart(others, e.table, &key[..n])
}

// Entries by table and key.
struct ByKey;

impl Apart<Entry> for ByKey {
    ghost alike = { same_key };

    fn apart(e: &Entry, others: &[Entry]) -> bool {
        entry_apart(e, others)
    }
}

// Whether no two held entries have one table and key.
pub fn keys_distinct(entries: [Entry; ENTRIES]) -> bool
    ensures { result ≡ distinct same_key entries }
{
    all_distinct::<Entry, ByKey>(&entries)
}
