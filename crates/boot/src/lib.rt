// BT: the state and the store that a boot leaves.
#![tactic(auto)]

ghost use Rattle.std.specs.Prelude.{true, ◌≡◌, ◌<◌, length};
ghost use Rattle.calls.specs.Boot.{account_of, home_estate, home_domain, boot_accounts, boot_state, home_pair, boot_words, plan_ok, booted_by, boot};
ghost use Rattle.calls.specs.Step.{result_of};

use calls::replies::answered;
use calls::words::zero_words;
use calls::{BOOT_NUMBERS, Outcome, Refusal, caller_of};
use plan::plan_ok;
use rights::Rights;
use state::objects::free_object;
use state::{Accounts, Capability, Domain, Estate, State, Table};
use std::array;
use updates::estates::empty_state;
use updates::frames::{empty_frame, only_list};
use updates::objects::new_object;

// The estate of domain d after a boot: its first page, with the home password, on the home account.
fn home_estate(plan: [u64; BOOT_NUMBERS], d: usize) -> Estate
    requires { (d < 4) × (account_of plan d < 4) }
    ensures { result ≡ home_estate plan d }
{
    let mut objects = [free_object(); 8];
    objects[0] = new_object(32 * d as u8, 1, plan[d], plan[8 + 2 * d] as u8);
    Estate { objects }
}

// Domain d after a boot: slot 0 names its home object.
fn home_domain(plan: [u64; BOOT_NUMBERS], d: usize) -> Domain
    requires { d < 4 }
    ensures { result ≡ home_domain plan d }
{
    Domain {
        active: only_list(Capability {
            page: 32 * d as u8,
            password: plan[d],
        }),
        saved: [empty_frame(); 4],
        depth: 0,
    }
}

// The limits and sets that a boot gives. Rows, since closures with their bounds would be longer.
fn boot_accounts(plan: [u64; BOOT_NUMBERS]) -> Accounts
    requires { plan_ok plan ≡ true }
    ensures { result ≡ boot_accounts plan }
{
    Accounts {
        limits: [plan[4] as u8, plan[5] as u8, plan[6] as u8, plan[7] as u8],
        sets: [
            plan[9] as u8,
            plan[11] as u8,
            plan[13] as u8,
            plan[15] as u8,
        ],
    }
}

fn boot_state(plan: [u64; BOOT_NUMBERS]) -> State
    requires { plan_ok plan ≡ true }
    ensures { result ≡ boot_state plan }
{
    State {
        table: Table {
            estates: array::from_fn(
                |d| -> Estate
                    requires { (d < 4) × (plan_ok plan ≡ true) }
                { home_estate(plan, d) },
            ),
        },
        domains: array::from_fn(|d| home_domain(plan, d)),
        accounts: boot_accounts(plan),
    }
}

// The first pair of domain d's home object.
fn home_pair(store: &mut [u64], plan: [u64; BOOT_NUMBERS], d: usize)
    requires { (d < 4) × (length store.old ≡ 8192) }
    ensures { store.new ≡ home_pair plan d store.old }
{
    store[2048 * d] = 32 * d as u64 * 256 + Rights::OWNER.bits as u64;
    store[2048 * d + 1] = plan[d];
}

// The words after a boot.
fn boot_words(store: &mut [u64], plan: [u64; BOOT_NUMBERS])
    requires { length store.old ≡ 8192 }
    ensures { store.new ≡ boot_words plan }
{
    zero_words(store, 0, 8192);
    for d in 0..4 {
        home_pair(store, plan, d);
    }
}

// BT behind checks 2 and 4.
fn booted(store: &mut [u64], plan: [u64; BOOT_NUMBERS]) -> Outcome
    requires { length store.old ≡ 8192 }
    ensures { result_of result store.new ≡ booted_by store.old plan }
{
    if !plan_ok(plan) {
        return answered(empty_state(), Err(Refusal::OutOfRange));
    }
    boot_words(store, plan);
    answered(boot_state(plan), Ok(0))
}

// BT by a domain, with its numbers: home passwords, limits, home accounts and sets. The paper's number and values of its answer:
// `answer_numbers`, `boot_refused_numbers` and `boot_done_numbers` in `calls`, specs/Laws/Numbers.antt.
pub fn boot(store: &mut [u64], d: u64, plan: [u64; BOOT_NUMBERS]) -> Outcome
    ensures { result_of result store.new ≡ boot store.old d plan }
{
    // Each arm returns: the value of a `match`, a whole state, is made of zeros first and copied then.
    match caller_of(store.len(), d) {
        Ok(_) => return booted(store, plan),
        Err(why) => return answered(empty_state(), Err(why)),
    }
}
