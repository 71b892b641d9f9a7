// Whether a state keeps its bounds, with zeros in every unused place.
#![tactic(auto)]

mod accounts;
mod frames;
mod modes;
mod objects;

ghost use Rattle.std.specs.Prelude.{◌≡◌, get_or};
ghost use Rattle.bounded.specs.Every.{below};
ghost use Rattle.state.specs.Places.{no_domain, estate_at};
ghost use Rattle.soundness.specs.Sound.{estate_ok, domain_ok, sound};

use crate::accounts::accounts_ok;
use crate::frames::domain_ok;
use crate::modes::ModeTable;
use crate::objects::estate_ok;
use state::{Domain, State, Table};

// Whether each estate keeps its bounds. The mode table is laid on the stack once, and lent to every test of a password.
fn estates_ok(t: Table) -> bool
    ensures { result ≡ below 4 (λ d. estate_ok (estate_at t d) d) }
{
    let modes = ModeTable::new();
    t.estates
        .iter()
        .zip(0..4)
        .all(|(e, d)| estate_ok(&modes, *e, d))
}

// Whether each domain keeps its bounds.
fn domains_ok(domains: [Domain; 4]) -> bool
    ensures { result ≡ below 4 (λ d. domain_ok (get_or domains d no_domain)) }
{
    domains.iter().all(|m| domain_ok(*m))
}

// Whether the state keeps its bounds.
pub fn sound(s: State) -> bool
    ensures { result ≡ sound s }
{
    estates_ok(s.table) && domains_ok(s.domains) && accounts_ok(s.accounts)
}
