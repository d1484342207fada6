// Soundness of one entry.
ghost use Rattle.std.specs.Prelude.{◌≡◌, [], ◌∷◌, ◌&&◌};
ghost use Rattle.lists.specs.Lists.{all_of, every};
ghost use Rattle.store.specs.Limits.{slot_types};
ghost use Rattle.store.specs.Store.{table_held};
ghost use Rattle.store_soundness.specs.Narrow.{is_narrow};
ghost use Rattle.store.specs.Sound.{slot_ok, slots_ok, entry_timed_ok, entry_key_length_ok, key_rest_zero, values_ok};

use store::types::{is_string, is_wide, key_kind, present, slot_type};
use store::{Entry, KEY_MAX, Table, VALUES};

// A value of a 32-bit data type is below this.
const VALUE_END: u64 = 4294967296;

// Whether a held entry's key is as long as its table says.
#[tactic(auto, unfolding(store::specs::Sound::entry_key_length_ok))]
fn entry_key_length_ok(t: Table, e: Entry) -> bool
    ensures { result ≡ entry_key_length_ok t e }
{
    let most = t.key_len as usize;
    if is_string(key_kind(t.key_type)) {
        e.key_len <= most
    } else {
        e.key_len == most
    }
}

// Whether the key bytes past the length are zero.
#[tactic(auto, unfolding(store::specs::Sound::key_rest_zero, lists::specs::Lists::every))]
fn key_rest_zero(e: Entry) -> bool
    ensures { result ≡ key_rest_zero e }
{
    let n = e.key_len;
    let bytes = e.key;
    KEY_MAX < n || lists::all_zero(&bytes[n..])
}

// Whether a value of data type t fits its width, if the table has that type.
#[tactic(auto, unfolding(store::specs::Sound::slot_ok))]
fn slot_ok(types: u32, t: usize, v: u64) -> bool
    ensures { result ≡ slot_ok types t v }
{
    v < VALUE_END || is_wide(t) || !present(types, t)
}

// Whether all values are below 2^32. All are looked at: such a loop is compiled to wide instructions, and `all`, which stops
// at the first that isn't, is not.
#[tactic(auto, unfolding(lists::specs::Lists::every))]
fn all_narrow(values: [u64; VALUES]) -> bool
    ensures { result ≡ every is_narrow values }
{
    let mut narrow = true;
    for v in &values {
        if VALUE_END <= *v {
            narrow = false;
        }
    }
    narrow
}

// Whether the values that the table has fit their widths.
#[tactic(auto, using(crate::proofs::entry::EntryTests::slots))]
fn slots_ok(types: u32, values: [u64; VALUES]) -> bool
    ensures { result ≡ slots_ok types slot_types values }
{
    for i in 0..VALUES {
        if !slot_ok(types, slot_type(i), values[i]) {
            return false;
        }
    }
    true
}

// Whether the values that the table has fit their widths, which values below 2^32 all do.
#[tactic(auto, using(crate::proofs::entry::Narrow::values), unfolding(store::specs::Sound::values_ok))]
fn values_ok(t: Table, e: Entry) -> bool
    ensures { result ≡ values_ok t e }
{
    let values = e.values;
    all_narrow(values) || slots_ok(t.data_types, values)
}

// The tests of a held entry of the table.
#[tactic(auto, unfolding(lists::specs::Lists::all_of, store::specs::Store::table_held, store::specs::Sound::entry_timed_ok))]
pub fn held_entry_ok(owner: Table, e: Entry) -> bool
    ensures { result ≡ (table_held owner && all_of (entry_timed_ok e ∷ entry_key_length_ok owner e ∷ key_rest_zero e ∷ values_ok owner e ∷ [])) }
{
    owner.held == 1
        && e.timed <= 1
        && entry_key_length_ok(owner, e)
        && key_rest_zero(e)
        && values_ok(owner, e)
}
