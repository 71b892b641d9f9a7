// Whether the accounts keep their bounds.
ghost use Rattle.std.specs.Prelude.{◌≡◌};
ghost use Rattle.soundness.specs.Sound.{accounts_ok};

use state::Accounts;

// Whether each limit is at most 128 pages, and each set one of the four accounts.
pub fn accounts_ok(x: Accounts) -> bool
    ensures { result ≡ accounts_ok x }
{
    x.limits.iter().all(|limit| *limit <= 128) && x.sets.iter().all(|set| *set <= 15)
}
