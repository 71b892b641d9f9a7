// What a test of soundness costs: two states tested in turn, 1,000 times in all, and how many tests passed. The state is
// picked by number, so that no test can be done once for all. `make bench` counts the instructions.
#![tactic(auto)]

ghost use Rattle.std.specs.Prelude.{◌<◌, ◌≤◌};

use soundness::sound;
use state::{Accounts, Capability, Domain, Estate, Object, Registration, State};
use updates::domains::save_domain;
use updates::estates::{empty_state, with_domain, with_estate, with_object};
use updates::frames::insert_slot;
use updates::objects::{add_password, new_object, with_registration};

// An object with two passwords and a registration, on account 1.
fn registered(base: u8, word: u64) -> Object
    requires { base < 128 }
{
    let g = Registration {
        password: 3,
        list: Capability {
            page: base,
            password: word,
        },
        count: 1,
        entries: [64 * (base as u16), 0, 0, 0],
    };
    with_registration(add_password(new_object(base, 4, word, 1), 2, 1), g)
}

// An estate with four objects, each another, on accounts 1 to 3.
fn filled(e: Estate, base: u8, word: u64) -> Estate
    requires { base < 112 }
{
    let mut f = with_object(e, 0, registered(base, word));
    f = with_object(f, 1, registered(base + 4, word));
    f = with_object(f, 2, new_object(base + 8, 2, word, 2));
    with_object(f, 3, new_object(base + 12, 4, word, 3))
}

// A domain with three slots in use and one saved.
fn slotted(m: Domain, page: u8, word: u64) -> Domain {
    let c = Capability {
        page: page,
        password: word,
    };
    let one = insert_slot(m.active, 0, c);
    let three = insert_slot(insert_slot(one, 1, c), 2, c);
    let mut n = m;
    n.active = one;
    save_domain(n, three)
}

// A state with sixteen objects, whose passwords have a word, and four accounts.
fn example(word: u64) -> State {
    let mut s = empty_state();
    let accounts = Accounts {
        limits: [32, 64, 96, 128],
        sets: [1, 3, 7, 15],
    };
    s.accounts = accounts;
    let t = s.table;
    let e = t.estates[0];
    let m = s.domains[0];
    for d in 0..4u8 {
        s = with_estate(s, d as usize, filled(e, 32 * d, word));
        s = with_domain(s, d as usize, slotted(m, 32 * d, word));
    }
    s
}

// How many of the tests passed.
fn passed() -> usize
    ensures { result ≤ 1000 }
{
    let states = [example(7), example(8)];
    (0..1000usize).filter(|i| sound(states[*i % 2])).count()
}

fn main(rt: HostRuntime) {
    let n = passed();
    let _ = println!(rt; "{n}");
}
