// The objects of an estate, looked up.
ghost use Rattle.std.specs.Prelude.{◌≡◌};
ghost use Rattle.state.specs.Lookup.{found, covering, based, place_based, has_room};

use crate::objects::{free_object, has_base};
use crate::{Estate, Object};

// The object whose run has the page, a free one where there is none: the search stops at the first that ends behind the page.
// No Option, here and in `based`: a free object has no pages and no modes, so that callers ask it as they ask any other.
pub fn covering(e: Estate, page: u64) -> Object
    ensures { result ≡ covering e page }
{
    for o in e.objects {
        let base = o.base as u64;
        if page < base + o.pages as u64 {
            return if base <= page { o } else { free_object() };
        }
    }
    free_object()
}

// The place of the object with the base, none where there is none.
pub fn place_based(e: Estate, page: u64) -> Option<usize>
    ensures { result ≡ found 8 (place_based e page) }
{
    e.objects.iter().position(|o| has_base(*o, page))
}

// The object with the base, a free one where there is none.
pub fn based(e: Estate, page: u64) -> Object
    ensures { result ≡ based e page }
{
    for o in e.objects {
        if has_base(o, page) {
            return o;
        }
    }
    free_object()
}

// Whether there is room for an object more.
pub fn has_room(e: Estate) -> bool
    ensures { result ≡ has_room e }
{
    e.objects[7].pages == 0
}
