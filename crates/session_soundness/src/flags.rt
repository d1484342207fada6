// The test of a binding's flags: `bound` and `updated` are 0 or 1.
ghost use Rattle.std.specs.Prelude.{◌≡◌};
ghost use Rattle.lists.specs.Lists.{every};
ghost use Rattle.session_soundness.specs.Sound.{flags_ok};

use session::Binding;
use store::TABLES;

#[tactic(auto, unfolding(lists::specs::Lists::every, crate::specs::Sound::flags_ok))]
pub fn all_flags_ok(bindings: [Binding; TABLES]) -> bool
    ensures { result ≡ every flags_ok bindings }
{
    bindings.iter().all(|b| b.bound <= 1 && b.updated <= 1)
}
