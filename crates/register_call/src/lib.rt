// RG: an object becomes a PDX procedure.
#![tactic(auto)]

ghost use Rattle.std.specs.Prelude.{◌≡◌, ℕ, ◌/◌, ◌<◌, ◌≤◌, Bool, true, cond, ◌||◌, [], ◌∷◌, leb, ltb};
ghost use Rattle.state.specs.Extent.{covers};
ghost use Rattle.state.specs.declared.Accounts.{Accounts as Limits};
ghost use Rattle.calls.specs.Arguments.{entry_of, entries_all};
ghost use Rattle.calls.specs.Changes.{capability, registration};
ghost use Rattle.calls.specs.Rules.{in_range};
ghost use Rattle.calls.specs.Parts.{Alters};
ghost use Rattle.calls.specs.declared.Call.TheVariants.{OnObject};
ghost use Rattle.calls.specs.declared.ObjectCall.TheVariants.{Register};

use calls::replies::becomes;
use calls::{Altered, Entries, Presented, Refusal, STORE_WORDS};
use clists::live;
use judge::{Target, judge};
use rights::Rights;
use state::extents::covers;
use state::objects::has_password;
use state::tables::object_based;
use state::{Capability, Frame, Object, Registration, Table};
use std::array;
use updates::objects::with_registration;

// The four entries, in order.
fn in_order(e: Entries) -> [u64; 4]
    ensures { result ≡ e.first ∷ e.second ∷ e.third ∷ e.fourth ∷ [] }
{
    [e.first, e.second, e.third, e.fourth]
}

// Whether each entry that counts passes a test.
fn entries_all<F: Fn(u64) -> bool>(e: Entries, test: F) -> bool
    requires { F.IsAlwaysCallable test }
    ensures { (p : ℕ → Bool) → ((a : ℕ) (b : Bool) → F.post test a b → b ≡ p a) → result ≡ entries_all p e }
{
    in_order(e)
        .iter()
        .take(e.count as usize)
        .all(|entry| test(*entry))
}

// Whether the entries that count are inside the object.
fn entries_inside(o: Object, e: Entries) -> bool
    ensures { result ≡ entries_all (λ a. covers o (a / 64)) e }
{
    entries_all(e, |entry| covers(o, entry / 64))
}

// Whether the arguments of RG are in range.
#[tactic(auto, unfolding(calls::specs::Rules::in_range))]
fn register_in_range(base: u64, password: u64, list: Presented, entries: Entries) -> bool
    ensures value { result ≡ in_range (OnObject (Register base password list entries)) }
    ensures bounds { result ≡ true → (base < 128) × (list.page < 128) × (entries.count ≤ 4) × (entries_all (λ a. ltb a 8192) entries ≡ true) }
{
    (base < 128)
        & (password != 0)
        & (list.page < 128)
        & (0 < entries.count)
        & (entries.count <= 4)
        & entries_all(entries, |entry| entry < 8192)
}

// A presented capability as the state keeps it.
fn capability(l: Presented) -> Capability
    requires { l.page < 128 }
    ensures { result ≡ capability l }
{
    Capability {
        page: l.page as u8,
        password: l.password,
    }
}

// Entry k as the state keeps it: 0 where it is no argument.
fn kept_entry(e: Entries, k: usize) -> u16
    requires { (k < 4) × (entries_all (λ a. ltb a 8192) e ≡ true) }
    ensures { result ≡ cond (ltb k e.count) (entry_of e k) 0 }
{
    if e.count <= k as u64 {
        return 0;
    }
    in_order(e)[k] as u16
}

// The registration that RG asks for.
fn registration(password: u64, l: Presented, e: Entries) -> Registration
    requires { (l.page < 128) × (e.count ≤ 4) × (entries_all (λ a. ltb a 8192) e ≡ true) }
    ensures { result ≡ registration password l e }
{
    Registration {
        password,
        list: capability(l),
        count: e.count as u8,
        entries: array::from_fn(|k| kept_entry(e, k)),
    }
}

// RG: registers an object as a PDX procedure.
pub fn obj_cre_pdx(
    t: Table,
    store: &[u64],
    f: Frame,
    base: u64,
    password: u64,
    list: Presented,
    entries: Entries,
) -> Result<Altered, Refusal>
    ensures { (u : Limits) (d : ℕ) → d < 4 → Alters t u d f store.now (Register base password list entries) result store.now }
{
    if store.len() != STORE_WORDS {
        return Err(Refusal::StoreLength);
    }
    if !register_in_range(base, password, list, entries) {
        return Err(Refusal::OutOfRange);
    }
    if f.whole {
        return Err(Refusal::Locked);
    }
    judge(t, store, f, Target::Base(base), Rights::OWNER).ok_or(Refusal::NotGranted)?;
    if !live(t, capability(list)) {
        return Err(Refusal::NotGranted);
    }
    let o = object_based(t, base);
    if !entries_inside(o, entries) {
        return Err(Refusal::NotEntry);
    }
    if has_password(o, password) {
        return Err(Refusal::HasPassword);
    }
    // A registration with the password 0 is none, as in the state's bytes.
    if o.registration.password != 0 {
        return Err(Refusal::Full);
    }
    let registered = with_registration(o, registration(password, list, entries));
    becomes(t, base, registered)
}
