// How an access is judged.
#![tactic(auto)]

ghost use Rattle.std.specs.Prelude.{◌≡◌, cond, ◌||◌, [], ◌*◌, ◌<◌, eqb, None};
ghost use Rattle.state.specs.Extent.{free};
ghost use Rattle.clists.specs.Clist.{named, live, clist};
ghost use Rattle.judge.specs.Search.{frame_verdict, judgement_of};
ghost use Rattle.judge.specs.Walk.{list_verdict};
ghost use Rattle.judge.specs.Judged.{judged};

use crate::pairs::list_verdict;
use clists::{clist, opened};
use rights::Rights;
use state::tables::{object_based, object_covering};
use state::{Capability, Frame, Object, Table};

mod pairs;

// What is asked for: the object at an address, or the object with a base.
#[derive(Clone, Copy)]
pub enum Target {
    Address(u64),
    Base(u64),
}

// A pair denies the wanted rights. What a pair, a Clist or a frame says of them is `Result<Option<u64>, Denied>`: granted by the pair at an
// address, nothing, or denied.
#[derive(Clone, Copy)]
pub struct Denied;

// What the Clist says that a capability opens, where it is live.
fn slot_verdict(
    t: Table,
    store: &[u64],
    c: Capability,
    o: Object,
    wanted: Rights,
) -> Result<Option<u64>, Denied>
    requires { 0 < wanted.bits }
    ensures { result ≡ list_verdict (cond (live t c) (clist store.now (named t c)) []) (64 * c.page) o wanted.bits }
{
    list_verdict(
        clist(store, c.page, opened(t, c)),
        64 * (c.page as u64),
        o,
        wanted,
    )
}

// What the frame's live slots say, by slot and then by place: the walk goes on behind a grant, since a later pair may deny.
fn frame_verdict(
    t: Table,
    store: &[u64],
    f: Frame,
    o: Object,
    wanted: Rights,
) -> Result<Option<u64>, Denied>
    requires { 0 < wanted.bits }
    ensures { result ≡ frame_verdict t store.now f o wanted.bits }
{
    let count = f.count as usize;
    let mut found = None;
    for k in 0..8 {
        if count <= k {
            return Ok(found);
        }
        let v = slot_verdict(t, store, f.slots[k], o, wanted)?;
        found = found.or(v);
    }
    Ok(found)
}

// Whether the frame's Clists grant the wanted rights on an object.
fn judge_object(t: Table, store: &[u64], f: Frame, o: Object, wanted: Rights) -> Option<u64>
    ensures { result ≡ cond (free o || eqb wanted.bits 0) None (judgement_of (frame_verdict t store.now f o wanted.bits)) }
{
    if (o.pages == 0) | (wanted.bits == 0) {
        return None;
    }
    frame_verdict(t, store, f, o, wanted).unwrap_or(None)
}

// The judgement on the target: the address of the pair of the frame's Clists that grants the wanted rights; none where they are refused.
// Table, store and frame apart: `Alters` and `Moves` promise by them one by one, and look-ups take the table, Clists the store alone.
pub fn judge(t: Table, store: &[u64], f: Frame, target: Target, wanted: Rights) -> Option<u64>
    ensures { result ≡ judged t store.now f target wanted.bits }
{
    match target {
        Target::Address(a) => judge_object(t, store, f, object_covering(t, a / 64), wanted),
        Target::Base(b) => judge_object(t, store, f, object_based(t, b), wanted),
    }
}
