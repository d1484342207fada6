// Soundness of one table, and of all tables together.
ghost use Rattle.std.specs.Prelude.{◌≡◌, ◌&&◌, leb, take};
ghost use Rattle.lists.specs.Lists.{all_of, every, distinct};
ghost use Rattle.store.specs.Limits.{name_max, plain_name};
ghost use Rattle.store.specs.Sound.{table_tests, sound_table, same_name};

use crate::names::names_distinct;
use store::names::plain_name;
use store::types::{is_known, key_kind, key_length_ok};
use store::{DATA_TYPES_MAX, NAME_MAX, TABLES, Table};

// Whether a name's length is in range and its bytes are plain.
fn table_name_ok(n: usize, bytes: [u8; NAME_MAX]) -> bool
    ensures { result ≡ ((leb 1 n && leb n name_max) && plain_name (take n bytes)) }
{
    (1..=NAME_MAX).contains(&n) && plain_name(&bytes[..n])
}

// The tests of a held table.
#[tactic(auto, unfolding(lists::specs::Lists::all_of, store::specs::Sound::name_length_ok, store::specs::Sound::name_plain, store::specs::Sound::key_type_ok, store::specs::Sound::table_key_length_ok, store::specs::Sound::table_types_ok, store::specs::Sound::timed_ok, store::specs::Limits::data_types_ok, store::specs::Store::name_of))]
fn held_table_ok(t: Table) -> bool
    ensures { result ≡ all_of (table_tests t) }
{
    let name = t.name;
    table_name_ok(t.name_len, name)
        && is_known(key_kind(t.key_type))
        && key_length_ok(t.key_type, t.key_len as usize)
        && t.data_types <= DATA_TYPES_MAX
        && t.timed <= 1
}

#[tactic(auto, unfolding(store::specs::Sound::sound_table, store::specs::Store::table_held))]
fn sound_table(t: Table) -> bool
    ensures { result ≡ sound_table t }
{
    t.held == 0 || t.held == 1 && held_table_ok(t)
}

#[tactic(auto, unfolding(lists::specs::Lists::every))]
pub fn sound_tables(tables: [Table; TABLES]) -> bool
    ensures { result ≡ every sound_table tables }
{
    tables.iter().all(|t| sound_table(*t))
}

// Whether each table is sound, and no two have one name.
pub fn tables_ok(tables: [Table; TABLES]) -> bool
    ensures { result ≡ (every sound_table tables && distinct same_name tables) }
{
    sound_tables(tables) && names_distinct(tables)
}
