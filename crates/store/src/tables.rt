// Lookup of a table, the lowest free table place, and whether an entry is of a table with a key of a given length.
ghost use Rattle.std.specs.Prelude.{◌≡◌, slice_index_or};
ghost use Rattle.lists.specs.Lists.{first_place};
ghost use Rattle.store.specs.Store.{entry_of, table_named, table_free, no_table};

use crate::{Entry, TABLES, Table, no_table};

// Whether a table is held under the name.
#[tactic(auto, using(lists::proofs::Bytes::by_prefix), unfolding(lists::specs::Lists::eq_bytes, crate::specs::Store::table_named, crate::specs::Store::table_held, crate::specs::Store::name_of))]
pub fn table_named(t: Table, name: &[u8]) -> bool
    ensures { result ≡ table_named name.now t }
{
    let bytes = t.name;
    t.held == 1 && t.name_len == name.len() && bytes.starts_with(name)
}

// The place of the table held under the name.
#[tactic(auto, unfolding(lists::specs::Lists::first_place))]
pub fn find_table(tables: [Table; TABLES], name: &[u8]) -> Option<usize>
    ensures { result ≡ first_place (table_named name.now) tables }
{
    tables.iter().position(|t| table_named(*t, name))
}

// Whether an entry is held by the table at this place with a key of n bytes.
#[tactic(auto, unfolding(crate::specs::Store::entry_of, crate::specs::Store::entry_held))]
pub fn entry_of(e: Entry, table: usize, n: usize) -> bool
    ensures { result ≡ entry_of table n e }
{
    e.held == 1 && e.table == table && e.key_len == n
}

// The lowest free table place.
#[tactic(auto, unfolding(lists::specs::Lists::first_place, crate::specs::Store::table_free))]
pub fn free_table(tables: [Table; TABLES]) -> Option<usize>
    ensures { result ≡ first_place table_free tables }
{
    tables.iter().position(|t| t.held == 0)
}

// The table at a place; past the last place, what a free one holds.
pub fn table_at(tables: [Table; TABLES], place: usize) -> Table
    ensures { result ≡ slice_index_or tables place no_table }
{
    match tables.get(place) {
        Some(t) => *t,
        None => no_table(),
    }
}
