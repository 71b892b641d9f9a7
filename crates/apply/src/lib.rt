// Any call by any domain: the door of the monitor beside `boot`.
#![tactic(auto)]

ghost use Rattle.std.specs.Prelude.{◌≡◌, ◌<◌};
ghost use Rattle.calls.specs.Step.{world, result_of, step, unchecked};
ghost use Rattle.calls.specs.Parts.{Alters, Moves};

use access_calls::access;
use calls::replies::{answered, put_domain, put_estate};
use calls::{
    Altered, Call, DomainCall, Moved, ObjectCall, Outcome, Refusal, STORE_WORDS, admits, caller_of,
};
use create_call::obj_create;
use domain_calls::{apd_delete, apd_get, apd_insert, apd_lock};
use object_calls::{obj_delete, obj_passwd_add, obj_passwd_drop};
use pdx_calls::{pdx_call, pdx_return};
use register_call::obj_cre_pdx;
use state::{Accounts, Domain, Frame, State, Table};

// A call on objects by domain d, which is known.
fn known_call(
    t: Table,
    x: Accounts,
    store: &mut [u64],
    d: usize,
    f: Frame,
    call: ObjectCall,
) -> Result<Altered, Refusal>
    requires { d < 4 }
    ensures { Alters t x d f store.old call result store.new }
{
    match call {
        ObjectCall::Create {
            page,
            pages,
            password,
            account,
        } => obj_create(t, x, store, d as u64, page, pages, password, account),
        ObjectCall::Delete { base } => obj_delete(t, store, f, base),
        ObjectCall::AddPassword {
            base,
            password,
            mode,
        } => obj_passwd_add(t, store, f, base, password, mode),
        ObjectCall::DropPassword { base, password } => obj_passwd_drop(t, store, f, base, password),
        ObjectCall::Register {
            base,
            password,
            list,
            entries,
        } => obj_cre_pdx(t, store, f, base, password, list, entries),
    }
}

// Any call on objects by domain d, with its frame.
pub fn object_call(
    t: Table,
    x: Accounts,
    store: &mut [u64],
    d: u64,
    f: Frame,
    call: ObjectCall,
) -> Result<Altered, Refusal>
    ensures { Alters t x d f store.old call result store.new }
{
    let k = caller_of(store.len(), d)?;
    known_call(t, x, store, k, f, call)
}

// Any call on the caller's domain.
pub fn domain_call(t: Table, store: &[u64], m: Domain, call: DomainCall) -> Result<Moved, Refusal>
    ensures { Moves t m store.now call result }
{
    if store.len() != STORE_WORDS {
        return Err(Refusal::StoreLength);
    }
    match call {
        DomainCall::Insert { slot, list } => apd_insert(t, m, slot, list),
        DomainCall::Remove { slot } => apd_delete(m, slot),
        DomainCall::Get => Ok(apd_get(m)),
        DomainCall::Lock { slot } => apd_lock(m, slot),
        DomainCall::PdxCall { entry, choice } => pdx_call(t, store, m, entry, choice),
        DomainCall::PdxReturn => pdx_return(m),
    }
}

// A call of domain d, which is known.
fn carried_out(s: State, store: &mut [u64], d: usize, call: Call) -> Outcome
    requires { d < 4 }
    ensures { result_of result store.new ≡ unchecked (world s store.old) d call }
{
    let t = s.table;
    let x = s.accounts;
    let m = s.domains[d];
    let f = m.active;
    // Each arm returns: the value of a `match`, a whole state, is made of zeros first and copied then.
    match call {
        Call::OnStore(c) => return answered(s, access(t, store, f, c)),
        Call::OnObject(c) => return put_estate(s, object_call(t, x, store, d as u64, f, c)),
        Call::OnDomain(c) => return put_domain(s, d, domain_call(t, store, m, c)),
    }
}

// A call by a domain, with check 3 left out: for a state that is known to be sound.
pub fn unchecked(s: State, store: &mut [u64], d: u64, call: Call) -> Outcome
    ensures { result_of result store.new ≡ unchecked (world s store.old) d call }
{
    match caller_of(store.len(), d) {
        Ok(k) => return carried_out(s, store, k, call),
        Err(why) => return answered(s, Err(why)),
    }
}

// A call by a domain. The paper's number and values of its answer are those of `step`, case by case: `answer_numbers` in `calls`,
// specs/Laws/Numbers.antt, and the laws behind it, proofs/Numbers.antt.
pub fn apply(s: State, store: &mut [u64], d: u64, call: Call) -> Outcome
    ensures { result_of result store.new ≡ step (world s store.old) d call }
{
    if !admits(s, store) {
        return answered(s, Err(Refusal::Unsound));
    }
    unchecked(s, store, d, call)
}
