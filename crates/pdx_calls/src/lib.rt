// The calls into and out of a PDX procedure, CA and RT: each hands back the caller's domain as it is then, or why it is refused.
#![tactic(auto)]

ghost use Rattle.std.specs.Prelude.{◌≡◌, not, ◌||◌, List, ℕ, ltb, eqb, length};
ghost use Rattle.state.specs.declared.Table.{Table as Objects};
ghost use Rattle.calls.specs.Arguments.{is_entry};
ghost use Rattle.calls.specs.Changes.{entered};
ghost use Rattle.calls.specs.Parts.{Moves};
ghost use Rattle.calls.specs.declared.DomainCall.TheVariants.{PdxCall, PdxReturn};

use calls::replies::moved;
use calls::{Moved, Refusal, STORE_WORDS};
use judge::{Target, judge};
use rights::Rights;
use state::tables::object_covering;
use state::{Domain, Frame, Object, Table};
use updates::domains::{restore_domain, save_domain};
use updates::frames::{merge_list, only_list};

// Whether the address is a registered entry of the object.
fn is_entry(o: Object, address: u64) -> bool
    ensures { result ≡ is_entry o address }
{
    let g = o.registration;
    g.entries
        .iter()
        .take(usize::from(g.count))
        .any(|entry| u64::from(*entry) == address)
}

// Whether there is room for what a PDX call puts in.
fn has_room(choice: u64, f: Frame) -> bool
    ensures { result ≡ (not (eqb choice 0) || ltb f.count 8) }
{
    (choice != 0) | (f.count < 8)
}

// The frame that a PDX call of an object runs in.
fn entered(choice: u64, f: Frame, o: Object) -> Frame
    ensures { result ≡ entered choice f o.registration.list }
{
    let g = o.registration;
    let c = g.list;
    if choice == 0 {
        return merge_list(f, c);
    }
    only_list(c)
}

// CA: enters a registered procedure by one of its entries.
pub fn pdx_call(
    t: Table,
    store: &[u64],
    m: Domain,
    entry: u64,
    choice: u64,
) -> Result<Moved, Refusal>
    ensures { Moves t m store.now (PdxCall entry choice) result }
{
    if store.len() != STORE_WORDS {
        return Err(Refusal::StoreLength);
    }
    if 8192 <= entry {
        return Err(Refusal::OutOfRange);
    }
    if 2 <= choice {
        return Err(Refusal::OutOfRange);
    }
    let f = m.active;
    if f.whole {
        return Err(Refusal::Locked);
    }
    judge(t, store, f, Target::Address(entry), Rights::PDX).ok_or(Refusal::NotGranted)?;
    let o = object_covering(t, entry / 64);
    if !is_entry(o, entry) {
        return Err(Refusal::NotEntry);
    }
    if !has_room(choice, f) {
        return Err(Refusal::Full);
    }
    if 4 <= m.depth {
        return Err(Refusal::Full);
    }
    Ok(moved(save_domain(m, entered(choice, f, o)), entry))
}

// RT: returns from the procedure entered last.
pub fn pdx_return(m: Domain) -> Result<Moved, Refusal>
    ensures { (t : Objects) (words : List ℕ) → length words ≡ 8192 → Moves t m words PdxReturn result }
{
    if m.depth == 0 {
        return Err(Refusal::Missing);
    }
    Ok(moved(restore_domain(m), 0))
}
