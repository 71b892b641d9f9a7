// The pairs of a Clist, and what they say of the wanted rights.
ghost use Rattle.std.specs.Prelude.{◌≡◌, true, ◌+◌, ◌*◌, ◌<◌, ◌≤◌, length, get_or, IfSome, IsNone};
ghost use Rattle.bounded.specs.Search.{Skipped};
ghost use Rattle.state.specs.Lookup.{mode_of};
ghost use Rattle.judge.specs.Search.{verdict_of, pair_verdict};
ghost use Rattle.judge.specs.Naming.{names};
ghost use Rattle.judge.specs.Walk.{list_verdict};

use crate::Denied;
use rights::Rights;
use state::Object;
use state::objects::mode_of;

// What a true pair of this mode says.
fn verdict_of(mode: Rights, wanted: Rights, at: u64) -> Result<Option<u64>, Denied>
    ensures { result ≡ verdict_of mode.bits wanted.bits at }
{
    if mode.grants(wanted) {
        return Ok(Some(at));
    }
    if mode.denies(wanted) {
        return Err(Denied);
    }
    Ok(None)
}

// The mode that the password of pair i has for the object.
fn mode_at(list: &[u64], o: Object, i: usize) -> u8
    requires { 2 * i + 1 < length list.now }
    ensures { result ≡ mode_of o (get_or list.now (2 * i + 1) 0) }
{
    mode_of(o, list[2 * i + 1])
}

// What pair i of a Clist says, where it names the object; `start` is the address of the Clist's first word.
fn pair_verdict(
    list: &[u64],
    start: u64,
    o: Object,
    wanted: Rights,
    i: usize,
) -> Result<Option<u64>, Denied>
    requires { (2 * i + 1 < length list.now) × (start < 65536) × (names list.now o.base i ≡ true) }
    ensures { result ≡ pair_verdict list.now start o wanted.bits i }
{
    let mode = Rights {
        bits: mode_at(list, o, i),
    };
    let at = 2 * i as u64;
    verdict_of(mode, wanted, start + at)
}

// The first pair from a place on that names the object with the base, none where there is none. Four are looked at in each turn: a search
// of 60 pairs takes 330 instructions so, and 555 by one `for`.
fn next_pair(list: &[u64], pairs: usize, from: usize, base: u64) -> Option<usize>
    requires { (from ≤ pairs) × (2 * pairs ≤ length list.now) }
    ensures found { IfSome result (λ i. Skipped (names list.now base) from i × (i < pairs) × (names list.now base i ≡ true)) }
    ensures none { IsNone result → Skipped (names list.now base) from pairs }
{
    let left = pairs - from;
    for k in 0..left / 4 {
        let at = from + 4 * k;
        for j in 0..4 {
            if list[2 * (at + j)] / 256 == base {
                return Some(at + j);
            }
        }
    }
    let at = pairs - left % 4;
    for j in 0..left % 4 {
        if list[2 * (at + j)] / 256 == base {
            return Some(at + j);
        }
    }
    None
}

// What a Clist says: the walk remembers the first granting pair and stops at the first denying one. Only a pair that names the object says
// anything.
pub fn list_verdict(
    list: &[u64],
    start: u64,
    o: Object,
    wanted: Rights,
) -> Result<Option<u64>, Denied>
    requires { (start < 65536) × (0 < wanted.bits) }
    ensures { result ≡ list_verdict list.now start o wanted.bits }
{
    let pairs = list.len() / 2;
    let base = o.base as u64;
    let mut found = None;
    let mut from = 0;
    while let Some(i) = next_pair(list, pairs, from, base) {
        let v = pair_verdict(list, start, o, wanted, i)?;
        found = found.or(v);
        from = i + 1;
    }
    Ok(found)
}
