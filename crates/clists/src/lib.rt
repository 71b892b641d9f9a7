// Clists: the part of the store that is one, and whether a capability opens it.
#![tactic(auto)]

ghost use Rattle.std.specs.Prelude.{◌≡◌, ◌<◌, cond};
ghost use Rattle.rights.specs.Modes.{read, grants};
ghost use Rattle.state.specs.Places.{estate_at};
ghost use Rattle.state.specs.Lookup.{ordinary_mode};
ghost use Rattle.clists.specs.Clist.{named, live, run_words, until_end};
ghost use Rattle.clists.specs.Opening.{opened_by, opened_in};

use crate::ends::list_end;
use rights::Rights;
use state::objects::{has_base, ordinary_mode};
use state::tables::object_based;
use state::{Capability, Object, Table};

mod ends;

// The part of the store that is a run of pages; an empty part where the store is too short for it.
fn run_of<'a>(store: &'a [u64], base: u8, pages: u8) -> &'a [u64]
    ensures { result.now ≡ run_words store.now base pages }
{
    let start = 64 * (base as usize);
    let end = 64 * (base as usize + pages as usize);
    if store.len() < end {
        return &store[0..0];
    }
    &store[start..end]
}

// The part of the store that is the Clist of a run of pages: the run up to the list's end.
pub fn clist<'a>(store: &'a [u64], base: u8, pages: u8) -> &'a [u64]
    ensures { result.now ≡ until_end (run_words store.now base pages) }
{
    let run = run_of(store, base, pages);
    let end = 2 * list_end(run);
    &run[0..end]
}

// Whether a password opens the object as a Clist: an ordinary one of it, positive, with R.
fn opens(o: Object, password: u64) -> bool
    ensures { result ≡ grants (ordinary_mode o password) read }
{
    let mode = Rights {
        bits: ordinary_mode(o, password),
    };
    mode.grants(Rights::READ)
}

// Whether a capability opens the object that it names.
pub fn live(t: Table, c: Capability) -> bool
    ensures { result ≡ live t c }
{
    opens(object_based(t, c.page as u64), c.password)
}

// The pages of an object where the password opens it, else 0.
fn opened_by(o: Object, password: u64) -> u8
    ensures { result ≡ opened_by o password }
{
    if opens(o, password) {
        return o.pages;
    }
    0
}

// The pages of the object of the estate of domain D that a capability names and opens, 0 where there is none. The place of the estate is
// a constant: it is then copied once for the loop, where one handed over by value or lent is copied twice, or with the whole table.
fn opened_in<const D: usize>(t: Table, c: Capability) -> u8
    requires { D < 4 }
    ensures { result ≡ opened_in (estate_at t D) c }
{
    let e = t.estates[D];
    let page = c.page as u64;
    for o in &e.objects {
        if has_base(*o, page) {
            return opened_by(*o, c.password);
        }
    }
    0
}

// The pages of the Clist that a capability opens. 0 where it is not live is no flag: the list is then empty, and is searched like any other.
pub fn opened(t: Table, c: Capability) -> u8
    ensures { result ≡ cond (live t c) (named t c).pages 0 }
{
    match c.page / 32 {
        0 => opened_in::<0>(t, c),
        1 => opened_in::<1>(t, c),
        2 => opened_in::<2>(t, c),
        3 => opened_in::<3>(t, c),
        _ => 0,
    }
}
