// Whether the numbers of a boot are in range.
#![tactic(auto)]

ghost use Rattle.std.specs.Prelude.{cond, ◌&&◌, ◌≡◌, leb, ltb, eqb};
ghost use Rattle.state.specs.Pages.{in_set};
ghost use Rattle.calls.specs.Boot.{homes_ok, limits_ok, sets_ok, home_pages, room_ok, plan_ok};

use calls::BOOT_NUMBERS;
use pages::in_set;

// Whether no home password is 0.
fn homes_ok(plan: [u64; BOOT_NUMBERS]) -> bool
    ensures { result ≡ homes_ok plan }
{
    (0..4).all(|d| plan[d] != 0)
}

// Whether each limit is 1 to 128 pages.
fn limits_ok(plan: [u64; BOOT_NUMBERS]) -> bool
    ensures { result ≡ limits_ok plan }
{
    (0..4).all(|a| 0 < plan[4 + a] && plan[4 + a] <= 128)
}

// Whether a number is a set of accounts that has the account.
fn set_ok(account: u64, set: u64) -> bool
    ensures { result ≡ (leb set 15 && in_set set account) }
{
    set <= 15 && in_set(set as u8, account)
}

// Whether each domain has a set, with its home account in it.
fn sets_ok(plan: [u64; BOOT_NUMBERS]) -> bool
    ensures { result ≡ sets_ok plan }
{
    (0..4).all(|d| set_ok(plan[8 + 2 * d], plan[9 + 2 * d]))
}

// The home pages on an account: one for each domain whose home account it is.
fn home_pages(plan: [u64; BOOT_NUMBERS], a: u64) -> u64
    ensures { result ≡ home_pages plan a }
{
    (0..4).filter(|d| plan[8 + 2 * *d] == a).count() as u64
}

// Whether each limit has room for the home pages.
fn room_ok(plan: [u64; BOOT_NUMBERS]) -> bool
    ensures { result ≡ room_ok plan }
{
    (0..4).all(|a| home_pages(plan, a as u64) <= plan[4 + a])
}

// Whether all numbers are in range.
pub fn plan_ok(plan: [u64; BOOT_NUMBERS]) -> bool
    ensures { result ≡ plan_ok plan }
{
    homes_ok(plan) & limits_ok(plan) & sets_ok(plan) & room_ok(plan)
}
