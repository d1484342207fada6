// A number for each entry of a store, by which entries are tested and looked up in place.
ghost use Rattle.std.specs.Prelude.{◌≡◌};
ghost use Rattle.lists.specs.Lists.{every, first_place};
ghost use Rattle.store.specs.Sound.{sound_entry};
ghost use Rattle.store_soundness.specs.Codes.{entry_code, counted_codes, sound_code, is_code};

use crate::entry::held_entry_ok;
use crate::hashes::{HASH_END, held_hash};
use store::counts::same_counts;
use store::{ENTRIES, Entry, TABLES, Table};

// The code of an entry that isn't sound.
pub const UNSOUND_CODE: u32 = 2147483648;

// Whether an entry is sound with the tables.
#[tactic(auto, using(crate::proofs::entry::EntryTests::sounds))]
fn sound_entry(tables: [Table; TABLES], e: Entry) -> bool
    ensures { result ≡ sound_entry tables e }
{
    match e.held {
        0 => true,
        1 => e.table < TABLES && held_entry_ok(tables[e.table], e),
        _ => false,
    }
}

// The hash of an entry that is sound with the tables (HASH_END for a free place), else UNSOUND_CODE.
#[tactic(auto, unfolding(crate::specs::Codes::entry_code, crate::specs::Hashes::entry_hash, store::specs::Store::entry_held))]
pub fn entry_code(tables: [Table; TABLES], e: Entry) -> u32
    ensures { result ≡ entry_code tables e }
{
    if !sound_entry(tables, e) {
        UNSOUND_CODE
    } else if e.held == 1 {
        held_hash(e)
    } else {
        HASH_END
    }
}

// Whether all codes are of sound entries. All are looked at: such a loop is compiled to wide instructions, and `all`, which
// stops at the first that isn't, is not.
#[tactic(auto, unfolding(lists::specs::Lists::every))]
pub fn all_sound(codes: [u32; ENTRIES]) -> bool
    ensures { result ≡ every sound_code codes }
{
    let mut sound = true;
    for code in &codes {
        if UNSOUND_CODE <= *code {
            sound = false;
        }
    }
    sound
}

// The codes of entries with the counts that were found; where the store's counts are others, none is of a sound entry.
#[tactic(auto, unfolding(crate::specs::Codes::counted_codes))]
pub fn counted_codes(
    codes: [u32; ENTRIES],
    found: [u32; TABLES],
    counts: [u32; TABLES],
) -> [u32; ENTRIES]
    ensures { result ≡ counted_codes codes found counts }
{
    if same_counts(counts, found) {
        codes
    } else {
        [UNSOUND_CODE; ENTRIES]
    }
}

// The lowest place with the code.
#[tactic(auto, unfolding(lists::specs::Lists::first_place))]
pub fn code_place(codes: [u32; ENTRIES], code: u32) -> Option<usize>
    ensures { result ≡ first_place (is_code code) codes }
{
    codes.iter().position(|c| *c == code)
}
