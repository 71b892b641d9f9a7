// Saving and restoring a protection domain.
ghost use Rattle.std.specs.Prelude.{◌≡◌};
ghost use Rattle.state.specs.Update.{save_domain, restore_domain};

use crate::frames::empty_frame;
use state::{Domain, Frame};

// The active frame is saved, and f takes its place. With four saved frames nothing changes.
pub fn save_domain(m: Domain, f: Frame) -> Domain
    ensures { result ≡ save_domain m f }
{
    let n = m.depth;
    if 4 <= n {
        return m;
    }
    let old = m.active;
    let mut r = m;
    r.saved[n as usize] = old;
    r.active = f;
    r.depth = n + 1;
    r
}

// The frame saved last comes back, and its place is cleared. With none saved, or more than four, nothing changes.
pub fn restore_domain(m: Domain) -> Domain
    ensures { result ≡ restore_domain m }
{
    let n = m.depth;
    if n == 0 {
        return m;
    }
    if 4 < n {
        return m;
    }
    let last = (n - 1) as usize;
    let f = m.saved[last];
    let none = empty_frame();
    let mut r = m;
    r.saved[last] = none;
    r.active = f;
    r.depth = n - 1;
    r
}
