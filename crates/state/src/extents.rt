// The run of pages of an object.
ghost use Rattle.std.specs.Prelude.{◌≡◌};
ghost use Rattle.state.specs.Extent.{covers, lies_in, apart};

use crate::Object;

// Whether the object's run has the page.
pub fn covers(o: Object, page: u64) -> bool
    ensures { result ≡ covers o page }
{
    let base = o.base as u64;
    let pages = o.pages as u64;
    (base <= page) & (page < base + pages)
}

// Whether the object lies in the estate of domain d.
pub fn lies_in(o: Object, d: u8) -> bool
    ensures { result ≡ lies_in o d }
{
    let start = 32 * (d as u64);
    let base = o.base as u64;
    let pages = o.pages as u64;
    (start <= base) & (base + pages <= start + 32)
}

// Whether two objects have no page in common.
pub fn apart(a: Object, b: Object) -> bool
    ensures { result ≡ apart a b }
{
    let x = a.base as u64;
    let m = a.pages as u64;
    let y = b.base as u64;
    let n = b.pages as u64;
    (m == 0) | (n == 0) | (x + m <= y) | (y + n <= x)
}
