// A store's entries tested and looked up behind a reference. All of them are copied only where two hashes are equal.
#![tactic(auto)]

ghost use Rattle.std.specs.Prelude.{◌≡◌, get_or};
ghost use Rattle.lists.specs.Lists.{first_place};
ghost use Rattle.store_soundness.specs.Hashes.{hash_end};
ghost use Rattle.store_soundness.specs.Codes.{store_codes, is_code};
ghost use Rattle.store.specs.Places.{free_of, place_of};
ghost use Rattle.store.specs.Store.{no_entry};
ghost use Rattle.store.specs.Sound.{sound_store};
ghost use Rattle.message.specs.Targets.{keyed_as};
ghost use Rattle.store_scan.specs.Scan.{Scans, may_equal, Coded, ScansByHashes, ScansByKeys};

use store::counts::count_entry;
use store::entries::Place;
use store::tables::entry_of;
use store::{ENTRIES, Entry, KEY_MAX, Store, TABLES, Table, no_entry};
use store_soundness::codes::{all_sound, code_place, counted_codes, entry_code};
use store_soundness::hashes::{HASH_END, hashes_distinct, held_hash};
use store_soundness::keys::keys_distinct;
use store_soundness::table::tables_ok;

// What a scan is asked: the tables that the entries are tested with, and an entry whose place is looked for.
#[derive(Clone, Copy)]
pub struct Query {
    pub tables: [Table; TABLES],
    pub entry: Entry,
}

// The codes of all entries, which are counted in the same loop. The entry of a free place isn't copied.
fn codes_of(store: &Store, tables: [Table; TABLES]) -> [u32; ENTRIES]
    ensures { result ≡ store_codes tables store.now }
{
    let mut codes = [HASH_END; ENTRIES];
    let mut found = [0u32; TABLES];
    for i in 0..ENTRIES {
        let held = store.entries[i].held;
        if held != 0 {
            let e = store.entries[i];
            let counted = count_entry(found, held, e.table);
            found = counted;
            codes[i] = entry_code(tables, e);
        }
    }
    let counts = store.counts;
    counted_codes(codes, found, counts)
}

// Whether e is held with the table of an entry and with a key as long as its key.
#[tactic(auto, unfolding(crate::specs::Scan::may_equal))]
fn may_equal(entry: Entry, e: Entry) -> bool
    ensures { result ≡ may_equal entry e }
{
    let n = entry.key_len;
    n <= KEY_MAX && entry_of(e, entry.table, n)
}

// The lowest place held with the table and the key of an entry. A place with another code than the key's hash is passed without a look
// at its entry: each entry with the key has this code where the entries are sound. Lookup by labelled loops, left at the first equal key, is a
// rule of docs/DECISIONS.md. The first read, which is not used, is for the proof: what is read tells that the store has all its places.
fn held_place(store: &Store, entry: Entry, hash: u32, codes: [u32; ENTRIES]) -> Option<usize>
    ensures { Coded entry hash codes store.now.entries → result ≡ first_place (keyed_as entry) store.now.entries }
{
    let _first = store.counts[0];
    let n = entry.key_len;
    let key = entry.key;
    let mut i = 0;
    'entries: loop {
        if ENTRIES <= i {
            break 'entries None;
        }
        if codes[i] == hash {
            let e = store.entries[i];
            if may_equal(entry, e) {
                let bytes = e.key;
                let mut j = 0;
                'bytes: loop {
                    if n <= j {
                        break 'entries Some(i);
                    }
                    if bytes[j] != key[j] {
                        break 'bytes;
                    }
                    j += 1;
                }
            }
        }
        i += 1;
    }
}

// The first place with the code of a free one.
#[tactic(auto, unfolding(store::specs::Places::free_of))]
fn lowest_free(codes: [u32; ENTRIES]) -> Place
    ensures { result ≡ free_of (first_place (is_code hash_end) codes) }
{
    match code_place(codes, HASH_END) {
        Some(place) => Place::Free(place),
        None => Place::Full,
    }
}

// Where the sought entry goes, which is found among the held ones or not.
#[tactic(auto, unfolding(store::specs::Places::place_of))]
fn place_from(found: Option<usize>, codes: [u32; ENTRIES]) -> Place
    ensures { result ≡ place_of found (first_place (is_code hash_end) codes) }
{
    match found {
        Some(i) => Place::Held(i),
        None => lowest_free(codes),
    }
}

// Where no two hashes are equal, no two keys are.
fn by_hashes(codes: [u32; ENTRIES], found: Option<usize>) -> Option<Place>
    ensures { ScansByHashes codes found result }
{
    if all_sound(codes) {
        Some(place_from(found, codes))
    } else {
        None
    }
}

// Where two hashes are equal, all keys are compared.
fn by_keys(codes: [u32; ENTRIES], found: Option<usize>, entries: [Entry; ENTRIES]) -> Option<Place>
    ensures { ScansByKeys codes found entries result }
{
    if all_sound(codes) && keys_distinct(entries) {
        Some(place_from(found, codes))
    } else {
        None
    }
}

// Where the sought entry goes, if all entries are sound, no two have one table and key, and the counts are theirs.
pub fn scan(store: &Store, query: Query) -> Option<Place>
    ensures { Scans query store.now result }
{
    let tables = query.tables;
    let codes = codes_of(store, tables);
    let entry = query.entry;
    let found = held_place(store, entry, held_hash(entry), codes);
    if hashes_distinct(codes) {
        by_hashes(codes, found)
    } else {
        let entries = store.entries;
        by_keys(codes, found, entries)
    }
}

// Whether a store is sound. No entry is sought.
pub fn store_ok(store: &Store) -> bool
    ensures { result ≡ sound_store store.now }
{
    let tables = store.tables;
    if !tables_ok(tables) {
        return false;
    }
    let entry = no_entry();
    let query = Query { tables, entry };
    scan(store, query).is_some()
}

// The entry at a place; no_entry past the last place. The place may be any number.
pub fn entry_at(store: &Store, place: usize) -> Entry
    ensures { result ≡ get_or store.now.entries place no_entry }
{
    match store.entries.get(place) {
        Some(e) => *e,
        None => no_entry(),
    }
}
