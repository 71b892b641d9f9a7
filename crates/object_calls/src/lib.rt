// The calls on an object that stands: DL, AP and DP. Each gives the estate that it changed, or why it is refused.
#![tactic(auto)]

ghost use Rattle.std.specs.Prelude.{◌≡◌, ℕ, ◌<◌};
ghost use Rattle.state.specs.declared.Accounts.{Accounts as Limits};
ghost use Rattle.calls.specs.Rules.{in_range};
ghost use Rattle.calls.specs.Parts.{Alters};
ghost use Rattle.calls.specs.declared.Call.TheVariants.{OnObject};
ghost use Rattle.calls.specs.declared.ObjectCall.TheVariants.{Delete, AddPassword, DropPassword};

use calls::replies::{becomes, goes};
use calls::{Altered, Refusal, STORE_WORDS};
use judge::{Target, judge};
use rights::Rights;
use state::objects::{free_password_place, has_password};
use state::tables::object_based;
use state::{Frame, Table};
use updates::objects::{add_password, drop_password};

// DL: removes an object; those behind it close the gap.
pub fn obj_delete(t: Table, store: &[u64], f: Frame, base: u64) -> Result<Altered, Refusal>
    ensures { (u : Limits) (d : ℕ) → d < 4 → Alters t u d f store.now (Delete base) result store.now }
{
    if store.len() != STORE_WORDS {
        return Err(Refusal::StoreLength);
    }
    if 128 <= base {
        return Err(Refusal::OutOfRange);
    }
    judge(t, store, f, Target::Base(base), Rights::DESTROY).ok_or(Refusal::NotGranted)?;
    goes(t, base)
}

// Whether the arguments of AP are in range.
fn add_in_range(base: u64, password: u64, mode: u64) -> bool
    ensures { result ≡ in_range (OnObject (AddPassword base password mode)) }
{
    (base < 128) & (password != 0) & Rights::legal(mode)
}

// AP: adds a password to an object, behind the last.
pub fn obj_passwd_add(
    t: Table,
    store: &[u64],
    f: Frame,
    base: u64,
    password: u64,
    mode: u64,
) -> Result<Altered, Refusal>
    ensures { (u : Limits) (d : ℕ) → d < 4 → Alters t u d f store.now (AddPassword base password mode) result store.now }
{
    if store.len() != STORE_WORDS {
        return Err(Refusal::StoreLength);
    }
    if !add_in_range(base, password, mode) {
        return Err(Refusal::OutOfRange);
    }
    if f.whole {
        return Err(Refusal::Locked);
    }
    judge(t, store, f, Target::Base(base), Rights::OWNER).ok_or(Refusal::NotGranted)?;
    let o = object_based(t, base);
    if has_password(o, password) {
        return Err(Refusal::HasPassword);
    }
    if free_password_place(o).is_none() {
        return Err(Refusal::Full);
    }
    becomes(t, base, add_password(o, password, mode as u8))
}

// DP: drops a password of an object, or the registration that has it.
pub fn obj_passwd_drop(
    t: Table,
    store: &[u64],
    f: Frame,
    base: u64,
    password: u64,
) -> Result<Altered, Refusal>
    ensures { (u : Limits) (d : ℕ) → d < 4 → Alters t u d f store.now (DropPassword base password) result store.now }
{
    if store.len() != STORE_WORDS {
        return Err(Refusal::StoreLength);
    }
    if 128 <= base {
        return Err(Refusal::OutOfRange);
    }
    judge(t, store, f, Target::Base(base), Rights::OWNER).ok_or(Refusal::NotGranted)?;
    let o = object_based(t, base);
    if !has_password(o, password) {
        return Err(Refusal::Missing);
    }
    becomes(t, base, drop_password(o, password))
}
