// Whether two tables of a store have one name.
ghost use Rattle.std.specs.Prelude.{◌≡◌, not};
ghost use Rattle.lists.specs.Lists.{every, distinct};
ghost use Rattle.store.specs.Store.{table_named};
ghost use Rattle.store.specs.Sound.{same_name};

use lists::{Apart, all_distinct};
use store::tables::table_named;
use store::{NAME_MAX, TABLES, Table};

// Whether no table is held under the name.
#[tactic(auto, unfolding(lists::specs::Lists::every))]
fn name_apart(tables: &[Table], name: &[u8]) -> bool
    ensures { result ≡ every (λ t. not (table_named name.now t)) tables.now }
{
    tables.iter().all(|t| !table_named(*t, name))
}

// Whether none of the others has the name of a table, if that is held.
fn table_apart(t: Table, others: &[Table]) -> bool
    ensures { result ≡ every (λ u. not (same_name t u)) others.now }
{
    let n = t.name_len.min(NAME_MAX);
    let name = t.name;
    t.held != 1 || name_apart(others, &name[..n])
}

// Tables by name.
struct ByName;

impl Apart<Table> for ByName {
    ghost alike = { same_name };

    fn apart(t: &Table, others: &[Table]) -> bool {
        table_apart(*t, others)
    }
}

// Whether no two held tables have one name.
pub fn names_distinct(tables: [Table; TABLES]) -> bool
    ensures { result ≡ distinct same_name tables }
{
    all_distinct::<Table, ByName>(&tables)
}
