// Time that passes.
ghost use Rattle.std.specs.Prelude.{◌≡◌};
ghost use Rattle.store.specs.Time.{pass_entry};

use crate::{Entry, no_entry};

// An entry after so many milliseconds: what a free place holds, if it had at most as many remaining.
#[tactic(auto, unfolding(crate::specs::Time::pass_entry, crate::specs::Time::entry_timed, crate::specs::Time::lowered, crate::specs::Store::entry_held))]
pub fn pass_entry(e: Entry, milliseconds: u32) -> Entry
    ensures { result ≡ pass_entry milliseconds e }
{
    if e.held != 1 || e.timed != 1 {
        return e;
    }
    if e.remaining <= milliseconds {
        return no_entry();
    }
    Entry {
        remaining: e.remaining - milliseconds,
        ..e
    }
}
