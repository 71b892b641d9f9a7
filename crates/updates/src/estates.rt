// An estate with an object more, less or another, and the parts of a state put back.
ghost use Rattle.std.specs.Prelude.{◌≡◌};
ghost use Rattle.state.specs.Places.{empty_state};
ghost use Rattle.state.specs.Lookup.{found, place_above};
ghost use Rattle.state.specs.Update.{with_object, insert_object, remove_object, with_estate, with_domain};

use crate::frames::empty_frame;
use state::objects::free_object;
use state::{Accounts, Domain, Estate, Object, State, Table};

// The place for a new object with the base: that of the first object with a higher base, or else the first free one; none in a full estate.
fn place_above(e: Estate, base: u8) -> Option<usize>
    ensures { result ≡ found 8 (place_above e base) }
{
    e.objects.iter().position(|o| o.pages == 0 || base < o.base)
}

// An object more, before the first with a higher base. Where there is no room, the last gives way, or the new one finds no place.
pub fn insert_object(e: Estate, o: Object) -> Estate
    ensures { result ≡ insert_object e o }
{
    let mut r = e;
    if let Some(at) = place_above(e, o.base) {
        r.objects.copy_within(at..7, at + 1);
        r.objects[at] = o;
    }
    r
}

// An object less; those behind it close the gap. Past the last place nothing changes.
pub fn remove_object(e: Estate, at: usize) -> Estate
    ensures { result ≡ remove_object e at }
{
    let mut r = e;
    if at < 8 {
        r.objects.copy_within(at + 1..8, at);
        r.objects[7] = free_object();
    }
    r
}

// Another object at a place. Past the last place nothing changes. `with_estate` and `with_domain` are apart from this, since each names the
// field that it writes; what they share is the test and one line.
pub fn with_object(e: Estate, k: usize, o: Object) -> Estate
    ensures { result ≡ with_object e k o }
{
    if 8 <= k {
        return e;
    }
    let mut r = e;
    r.objects[k] = o;
    r
}

// Another estate. Past the last nothing changes.
pub fn with_estate(s: State, d: usize, e: Estate) -> State
    ensures { result ≡ with_estate s d e }
{
    if 4 <= d {
        return s;
    }
    let mut t = s.table;
    t.estates[d] = e;
    let mut r = s;
    r.table = t;
    r
}

// Another domain. Past the last nothing changes.
pub fn with_domain(s: State, d: usize, m: Domain) -> State
    ensures { result ≡ with_domain s d m }
{
    if 4 <= d {
        return s;
    }
    let mut r = s;
    r.domains[d] = m;
    r
}

// No object, no slot, and no account that may be charged. Written out: with `State::default()` the proof that it is `empty_state` stays open.
pub fn empty_state() -> State
    ensures { result ≡ empty_state }
{
    let frame = empty_frame();
    State {
        table: Table {
            estates: [Estate {
                objects: [free_object(); 8],
            }; 4],
        },
        domains: [Domain {
            active: frame,
            saved: [frame; 4],
            depth: 0,
        }; 4],
        accounts: Accounts {
            limits: [0; 4],
            sets: [0; 4],
        },
    }
}
