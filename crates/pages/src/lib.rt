// Pages on account: the figure of an account, and the sets of accounts.
#![tactic(auto)]

ghost use Rattle.std.specs.Prelude.{◌≡◌};
ghost use Rattle.state.specs.Pages.{pages_on, estate_pages, pages_of, in_set};

use state::{Estate, Object, Table};

// The pages that an object puts on an account.
fn pages_on(o: Object, a: u64) -> u8
    ensures { result ≡ pages_on a o }
{
    if o.account as u64 == a { o.pages } else { 0 }
}

// The pages of an estate on an account.
fn estate_pages(e: Estate, a: u64) -> u16
    ensures { result ≡ estate_pages a e }
{
    let mut pages = 0;
    for o in e.objects {
        pages += u16::from(pages_on(o, a));
    }
    pages
}

// The figure of an account: the pages of all objects on it. One sum for both would take a closure and two number types for three lines.
pub fn pages_of(t: Table, a: u64) -> u32
    ensures { result ≡ pages_of t a }
{
    let mut pages = 0;
    for e in t.estates {
        pages += u32::from(estate_pages(e, a));
    }
    pages
}

// Whether a set has the account.
pub fn in_set(set: u8, a: u64) -> bool
    ensures { result ≡ in_set set a }
{
    a < 4 && (set >> a) % 2 == 1
}
