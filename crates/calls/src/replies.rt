// What a call hands back, and how it is put into the state.
ghost use Rattle.std.specs.Prelude.{◌≡◌};
ghost use Rattle.state.specs.Places.{estate_of};
ghost use Rattle.state.specs.Lookup.{place_based};
ghost use Rattle.calls.specs.Answers.{refusal_number, no_fields};
ghost use Rattle.calls.specs.Step.{answered_with};
ghost use Rattle.calls.specs.Parts.{altered, replaced, becoming, going, moved, with_altered, with_moved};

use crate::{Altered, Fields, Moved, Outcome, Refusal};
use state::estates::place_based;
use state::{Domain, Estate, Object, State, Table};
use updates::estates::{remove_object, with_domain, with_estate, with_object};

// The paper's number of a refusal.
impl From<Refusal> for u64 {
    ghost from_gives = { λ why number. number ≡ refusal_number why };

    fn from(why: Refusal) -> u64 {
        match why {
            Refusal::StoreLength => 2,
            Refusal::Unsound => 3,
            Refusal::NoDomain => 4,
            Refusal::OutOfRange => 5,
            Refusal::Locked => 6,
            Refusal::NotGranted => 7,
            Refusal::NotEntry => 8,
            Refusal::NoRun => 9,
            Refusal::NotPermitted => 14,
            Refusal::LimitPassed => 15,
            Refusal::HasPassword => 10,
            Refusal::Full => 11,
            Refusal::Missing => 12,
        }
    }
}

// No fields.
pub fn no_fields() -> Fields
    ensures { result ≡ no_fields }
{
    Fields {
        count: 0,
        values: [0; 11],
    }
}

// An answer without fields, with the state after it.
pub fn answered(s: State, a: Result<u64, Refusal>) -> Outcome
    ensures { result ≡ answered_with s a }
{
    Outcome {
        answer: a,
        fields: no_fields(),
        state: s,
    }
}

// The outcome of a call on objects: where it is done, its estate put into the state.
pub fn put_estate(s: State, r: Result<Altered, Refusal>) -> Outcome
    ensures { result ≡ with_altered s r }
{
    match r {
        Ok(new) => answered(with_estate(s, new.place, new.estate), Ok(0)),
        Err(why) => answered(s, Err(why)),
    }
}

// The outcome of a call on domain d: where it is done, the domain put into the state.
pub fn put_domain(s: State, d: usize, r: Result<Moved, Refusal>) -> Outcome
    ensures { result ≡ with_moved s d r }
{
    match r {
        Ok(new) => Outcome {
            answer: Ok(new.value),
            fields: new.fields,
            state: with_domain(s, d, new.domain),
        },
        Err(why) => answered(s, Err(why)),
    }
}

// An estate with another object at a place, or without the one there.
fn replaced(e: Estate, at: usize, o: Option<Object>) -> Estate
    ensures { result ≡ replaced e at o }
{
    match o {
        Some(o) => with_object(e, at, o),
        None => remove_object(e, at),
    }
}

// A call on objects, by which the object with the base has become another, or is gone; refused where the base is no page. Past the last place
// nothing changes.
fn replaces(t: Table, base: u64, o: Option<Object>) -> Result<Altered, Refusal>
    ensures { result ≡ altered base (replaced (estate_of t base) (place_based (estate_of t base) base) o) }
{
    if 128 <= base {
        return Err(Refusal::OutOfRange);
    }
    let place = (base / 32) as usize;
    let e = t.estates[place];
    Ok(Altered {
        place,
        estate: replaced(e, place_based(e, base).unwrap_or(8), o),
    })
}

// A done call on objects, in which the object with the base has become another.
pub fn becomes(t: Table, base: u64, o: Object) -> Result<Altered, Refusal>
    ensures { result ≡ becoming t base o }
{
    replaces(t, base, Some(o))
}

// A done call on objects, by which the object with the base is gone.
pub fn goes(t: Table, base: u64) -> Result<Altered, Refusal>
    ensures { result ≡ going t base }
{
    replaces(t, base, None)
}

// A done call on the caller's domain, which is now m.
pub fn moved(m: Domain, value: u64) -> Moved
    ensures { result ≡ moved m value }
{
    Moved {
        value,
        fields: no_fields(),
        domain: m,
    }
}
