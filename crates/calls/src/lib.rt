// The calls of the monitor.
#![tactic(auto)]

ghost use Rattle.std.specs.Prelude.{◌≡◌};
ghost use Rattle.calls.specs.Step.{world, admitted};
ghost use Rattle.calls.specs.Parts.{caller_of};

use soundness::sound;
use state::{Domain, Estate, State};

pub mod replies;
pub mod words;

// A call with its arguments, as they come, by what it works on.
#[derive(Clone, Copy)]
pub enum Call {
    OnStore(Access),
    OnObject(ObjectCall),
    OnDomain(DomainCall),
}

// Accesses to the store: RD, WR, EX, LK.
#[derive(Clone, Copy)]
pub enum Access {
    Read { address: u64 },
    Write { address: u64, value: u64 },
    Execute { address: u64 },
    Lookup { address: u64, rights: u64 },
}

// Calls on objects: CR, DL, AP, DP, RG.
#[derive(Clone, Copy)]
pub enum ObjectCall {
    Create {
        page: u64,
        pages: u64,
        password: u64,
        account: u64,
    },
    Delete {
        base: u64,
    },
    AddPassword {
        base: u64,
        password: u64,
        mode: u64,
    },
    DropPassword {
        base: u64,
        password: u64,
    },
    Register {
        base: u64,
        password: u64,
        list: Presented,
        entries: Entries,
    },
}

// Calls on the caller's protection domain: IN, RM, GT, LO, CA, RT.
#[derive(Clone, Copy)]
pub enum DomainCall {
    Insert { slot: u64, list: Presented },
    Remove { slot: u64 },
    Get,
    Lock { slot: u64 },
    PdxCall { entry: u64, choice: u64 },
    PdxReturn,
}

// A Clist capability as a caller presents it.
#[derive(Clone, Copy)]
pub struct Presented {
    pub page: u64,
    pub password: u64,
}

// The entries of a registration: how many, and the first four. What stands past the count is no argument. Four fields and no array: so the
// theorems, as `refused_changes_nothing`, hold of every value of the type, where the length of an array would be a premise.
#[derive(Clone, Copy)]
pub struct Entries {
    pub count: u64,
    pub first: u64,
    pub second: u64,
    pub third: u64,
    pub fourth: u64,
}

// How many words the store has.
pub const STORE_WORDS: usize = 8192;

// How many numbers a boot is given: the home passwords of the domains, the limits of the accounts, then for each domain its home account and
// its set. An array and no struct: a line and the C function give them in this row, and the definitions name them by place.
pub const BOOT_NUMBERS: usize = 16;

// Why a call is refused, in checking order.
#[derive(Clone, Copy)]
pub enum Refusal {
    StoreLength,
    Unsound,
    NoDomain,
    OutOfRange,
    Locked,
    NotGranted,
    NotEntry,
    NoRun,
    NotPermitted,
    LimitPassed,
    HasPassword,
    Full,
    Missing,
}

// What a done Get reports: `count` numbers. All zero for any other answer. A count beside an array, since nothing is allocated.
#[derive(Clone, Copy)]
pub struct Fields {
    pub count: u64,
    pub values: [u64; 11],
}

// The answer of a call, its value or why it is refused, beside the new state, which a refused call has too: so `step` gives it.
#[derive(Clone, Copy)]
pub struct Outcome {
    pub answer: Result<u64, Refusal>,
    pub fields: Fields,
    pub state: State,
}

// What a done call on objects changed: an estate, at its place in the table.
#[derive(Clone, Copy)]
pub struct Altered {
    pub place: usize,
    pub estate: Estate,
}

// What a done call on the caller's domain comes to: its value, its fields and that domain.
#[derive(Clone, Copy)]
pub struct Moved {
    pub value: u64,
    pub fields: Fields,
    pub domain: Domain,
}

// Who calls: a domain below 4, with a store of the right length; else the refusal, by checks 2 and 4.
pub fn caller_of(words: usize, d: u64) -> Result<usize, Refusal>
    ensures { result ≡ caller_of words d }
{
    if words != STORE_WORDS {
        return Err(Refusal::StoreLength);
    }
    if 4 <= d {
        return Err(Refusal::NoDomain);
    }
    Ok(d as usize)
}

// Whether check 3 passes, or is not reached.
pub fn admits(s: State, store: &[u64]) -> bool
    ensures { result ≡ admitted (world s store.now) }
{
    (store.len() != STORE_WORDS) | sound(s)
}
