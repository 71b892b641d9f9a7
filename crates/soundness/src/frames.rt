// Whether the frames of a protection domain keep their bounds.
ghost use Rattle.std.specs.Prelude.{◌≡◌, cond, ltb};
ghost use Rattle.bounded.specs.Every.{below};
ghost use Rattle.soundness.specs.Sound.{blank, slot_ok, frame_bounds, frame_ok, saved_ok, domain_ok};

use state::{Capability, Domain, Frame};

// Whether a slot past the count is zero, and one in use names a page.
#[tactic(auto, unfolding(crate::specs::Sound::blank))]
fn slot_ok(unused: bool, c: Capability) -> bool
    ensures { result ≡ cond unused (blank c) (ltb c.page 128) }
{
    if unused {
        return c.page == 0 && c.password == 0;
    }
    c.page < 128
}

// Whether each slot past the count is zero, and each in use names a page.
fn slots_ok(f: Frame) -> bool
    ensures { result ≡ below 8 (slot_ok f) }
{
    let n = f.count as usize;
    f.slots.iter().enumerate().all(|(k, c)| slot_ok(n <= k, *c))
}

// Whether a frame keeps its bounds.
fn frame_bounds(f: Frame) -> bool
    ensures { result ≡ frame_bounds f }
{
    f.count <= 8 && f.locked <= f.count && slots_ok(f)
}

// Whether a frame is all zero where it is unused, and else keeps its bounds.
fn frame_ok(unused: bool, f: Frame) -> bool
    ensures { result ≡ frame_ok unused f }
{
    frame_bounds(f) && (!unused || (f.count == 0 && !f.whole))
}

// Whether each saved frame past the depth is unused, and each in use keeps its bounds. Beside `slots_ok` only the chain is the same.
fn saved_ok(m: Domain) -> bool
    ensures { result ≡ below 4 (saved_ok m) }
{
    let n = m.depth as usize;
    m.saved
        .iter()
        .enumerate()
        .all(|(k, f)| frame_ok(n <= k, *f))
}

// Whether a domain keeps its bounds.
pub fn domain_ok(m: Domain) -> bool
    ensures { result ≡ domain_ok m }
{
    frame_ok(false, m.active) && m.depth <= 4 && saved_ok(m)
}
