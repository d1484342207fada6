// Time that passes on a store: every entry is tested and changed where it lies.
#![tactic(auto)]

ghost use Rattle.std.specs.Prelude.{◌≡◌};
ghost use Rattle.store.specs.Time.{pass_time, PassPromise};

use store::counts::count_entry;
use store::lent::store_shaped;
use store::time::pass_entry;
use store::{ENTRIES, Store, TABLES};
use store_scan::store_ok;

// What passing time by value gives back: the number that the lent one returns, as C gets it, and the store that it leaves.
#[derive(Clone, Copy)]
pub struct Step {
    pub number: u32,
    pub store: Store,
}

// Every entry after so many milliseconds, and the counts of those that are left. The entry of a free place isn't copied.
fn pass_entries(store: &mut Store, milliseconds: u32)
    ensures { store.new ≡ pass_time milliseconds store.old }
{
    let mut counts = [0u32; TABLES];
    for i in 0..ENTRIES {
        let held = store.entries[i].held;
        if held != 0 {
            let e = store.entries[i];
            let left = pass_entry(e, milliseconds);
            let counted = count_entry(counts, left.held, left.table);
            counts = counted;
            store.entries[i] = left;
        }
    }
    store.counts = counts;
}

// Passes milliseconds on a lent store, which holds the new state afterwards: 0; or 4, and the store stays, where it isn't sound. The numbers
// are those that C gets, of which PassPromise speaks.
pub fn pass_lent(store: &mut Store, milliseconds: u32) -> u32
    ensures { PassPromise store.old (record { milliseconds = milliseconds; number = result; store = store.new }) }
{
    store_shaped(store);
    if !store_ok(store) {
        return 4;
    }
    pass_entries(store, milliseconds);
    0
}

// The same by value. The store is lent where it lies in the step that is returned.
pub fn pass(store: Store, milliseconds: u32) -> Step
    ensures { PassPromise store (record { milliseconds = milliseconds; number = result.number; store = result.store }) }
{
    let mut step = Step { number: 0, store };
    step.number = pass_lent(&mut step.store, milliseconds);
    step
}
