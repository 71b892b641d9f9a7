// CR: a new object, on its own since it has more to test than the other calls on objects.
#![tactic(auto)]

ghost use Rattle.std.specs.Prelude.{◌&&◌, ◌≡◌, ◌+◌, ◌<◌, ◌≤◌, true, leb};
ghost use Rattle.state.specs.Places.{object_at};
ghost use Rattle.state.specs.Extent.{lies_in, apart};
ghost use Rattle.state.specs.Pages.{pages_of};
ghost use Rattle.state.specs.declared.Frame.{Frame as Slots};
ghost use Rattle.calls.specs.Arguments.{run_free};
ghost use Rattle.calls.specs.Rules.{in_range};
ghost use Rattle.calls.specs.Parts.{Alters};
ghost use Rattle.calls.specs.declared.Call.TheVariants.{OnObject};
ghost use Rattle.calls.specs.declared.ObjectCall.TheVariants.{Create};

use calls::words::zero_words;
use calls::{Altered, Refusal, caller_of};
use pages::{in_set, pages_of};
use state::estates::has_room;
use state::extents::{apart, lies_in};
use state::{Accounts, Estate, Object, Table};
use updates::estates::insert_object;
use updates::objects::new_object;

// Whether the object is apart from all of the estate.
fn run_free(e: Estate, o: Object) -> bool
    ensures { result ≡ run_free e o }
{
    e.objects.iter().all(|other| apart(*other, o))
}

// Whether the object lies in the estate of domain d, apart from all that stand there.
fn run_ok(e: Estate, o: Object, d: u8) -> bool
    ensures { result ≡ (lies_in o d && run_free e o) }
{
    lies_in(o, d) & run_free(e, o)
}

// Whether the account's pages, with as many more, are at most its limit.
fn within_limit(t: Table, limit: u8, account: u64, pages: u64) -> bool
    requires { pages ≤ 32 }
    ensures { result ≡ leb (pages_of t account + pages) limit }
{
    pages_of(t, account) as u64 + pages <= limit as u64
}

// Whether the arguments of CR are in range.
#[tactic(auto, unfolding(calls::specs::Rules::in_range))]
fn create_in_range(page: u64, pages: u64, password: u64, account: u64) -> bool
    ensures value { result ≡ in_range (OnObject (Create page pages password account)) }
    ensures bounds { result ≡ true → (page < 128) × (pages ≤ 32) × (account < 4) }
{
    (page < 128) & (0 < pages) & (pages <= 32) & (password != 0) & (account < 4)
}

// CR: a new object in the caller's estate, charged to an account. Its numbers apart, as its promise names them.
pub fn obj_create(
    t: Table,
    x: Accounts,
    store: &mut [u64],
    d: u64,
    page: u64,
    pages: u64,
    password: u64,
    account: u64,
) -> Result<Altered, Refusal>
    ensures { (f : Slots) → Alters t x d f store.old (Create page pages password account) result store.new }
{
    let place = caller_of(store.len(), d)?;
    if !create_in_range(page, pages, password, account) {
        return Err(Refusal::OutOfRange);
    }
    let e = t.estates[place];
    let o = new_object(page as u8, pages as u8, password, account as u8);
    if !run_ok(e, o, place as u8) {
        return Err(Refusal::NoRun);
    }
    if !in_set(x.sets[place], account) {
        return Err(Refusal::NotPermitted);
    }
    if !within_limit(t, x.limits[account as usize], account, pages) {
        return Err(Refusal::LimitPassed);
    }
    if !has_room(e) {
        return Err(Refusal::Full);
    }
    zero_words(store, 64 * page as usize, 64 * pages as usize);
    Ok(Altered {
        place,
        estate: insert_object(e, o),
    })
}
