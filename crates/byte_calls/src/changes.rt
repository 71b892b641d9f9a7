// What a done call can have changed.
ghost use Rattle.std.specs.Prelude.{◌≡◌};
ghost use Rattle.byte_calls.specs.Changed.{only_state, access_run, page_start, page_end, object_run, domain_run, changed_by};

use crate::Changed;
use calls::{Access, Call, DomainCall, ObjectCall};

// No word; the state or not.
fn only_state(state: bool) -> Changed
    ensures { result ≡ only_state state }
{
    Changed {
        state: state,
        from: 0,
        to: 0,
    }
}

// WR changes its word.
fn access_run(c: Access) -> Changed
    ensures { result ≡ access_run c }
{
    match c {
        Access::Write { address, .. } if address < 8192 => Changed {
            state: false,
            from: address as usize,
            to: address as usize + 1,
        },
        _ => only_state(false),
    }
}

// The first word of a page; behind the last page, the end of the store.
fn page_start(page: u64) -> usize
    ensures { result ≡ page_start page }
{
    64 * page.min(128) as usize
}

// The end of a run of pages, or of the store.
fn page_end(page: u64, pages: u64) -> usize
    ensures { result ≡ page_end page pages }
{
    page_start(page.saturating_add(pages))
}

// CR zeroes the words of its run.
fn object_run(c: ObjectCall) -> Changed
    ensures { result ≡ object_run c }
{
    match c {
        ObjectCall::Create { page, pages, .. } => Changed {
            state: true,
            from: page_start(page),
            to: page_end(page, pages),
        },
        _ => only_state(true),
    }
}

// GT changes nothing.
fn domain_run(c: DomainCall) -> Changed
    ensures { result ≡ domain_run c }
{
    match c {
        DomainCall::Get => only_state(false),
        _ => only_state(true),
    }
}

// What a done call can have changed.
pub fn changed_by(call: Call) -> Changed
    ensures { result ≡ changed_by call }
{
    match call {
        Call::OnStore(c) => access_run(c),
        Call::OnObject(c) => object_run(c),
        Call::OnDomain(c) => domain_run(c),
    }
}
