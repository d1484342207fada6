// The number of held entries of each table.
ghost use Rattle.std.specs.Prelude.{◌≡◌};
ghost use Rattle.lists.specs.Lists.{eq_bytes};
ghost use Rattle.store.specs.Store.{raised, counted};

use crate::TABLES;

// One more at a table's place; past the last place there is none.
#[tactic(auto, unfolding(crate::specs::Store::raised))]
pub fn raise(counts: [u32; TABLES], table: usize) -> [u32; TABLES]
    ensures { result ≡ raised table counts }
{
    if TABLES <= table {
        return counts;
    }
    let mut next = counts;
    next[table] = counts[table].wrapping_add(1);
    next
}

// With one more entry, which is counted where it is held.
#[tactic(auto, unfolding(crate::specs::Store::counted))]
pub fn count_entry(counts: [u32; TABLES], held: u32, table: usize) -> [u32; TABLES]
    ensures { result ≡ counted held table counts }
{
    if held == 1 {
        raise(counts, table)
    } else {
        counts
    }
}

// Whether the counts are the same.
#[tactic(auto, unfolding(lists::specs::Lists::eq_bytes))]
pub fn same_counts(a: [u32; TABLES], b: [u32; TABLES]) -> bool
    ensures { result ≡ eq_bytes a b }
{
    a == b
}
