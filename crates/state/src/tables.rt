// Objects looked up in the whole table.
ghost use Rattle.std.specs.Prelude.{◌≡◌, ◌/◌, ◌<◌, ◌≤◌};
ghost use Rattle.state.specs.Places.{free_object, estate_of};
ghost use Rattle.state.specs.Lookup.{object_based, object_covering};

use crate::estates::{based, covering};
use crate::objects::free_object;
use crate::{Estate, Object, Table};

// What is looked up in the estate in which the page lies; a free object past the last estate. Four arms and no computed index: with that, 16,000
// calls take 6.67 million instructions in place of 0.90.
fn in_estate<F: Fn(Estate) -> Object>(t: Table, page: u64, look_up: F) -> Object
    requires { F.IsAlwaysCallable look_up }
    ensures within { page / 32 < 4 → F.post look_up (estate_of t page) result }
    ensures past { 4 ≤ page / 32 → result ≡ free_object }
{
    match page / 32 {
        0 => look_up(t.estates[0]),
        1 => look_up(t.estates[1]),
        2 => look_up(t.estates[2]),
        3 => look_up(t.estates[3]),
        _ => free_object(),
    }
}

// The object with the base; a free one, and no Option, where there is none, as in the definition.
pub fn object_based(t: Table, page: u64) -> Object
    ensures { result ≡ object_based t page }
{
    in_estate(t, page, |e| based(e, page))
}

// The object whose run has the page; a free one, and no Option, where there is none, as in the definition.
pub fn object_covering(t: Table, page: u64) -> Object
    ensures { result ≡ object_covering t page }
{
    in_estate(t, page, |e| covering(e, page))
}
