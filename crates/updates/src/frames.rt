// Slots and locks of a frame.
ghost use Rattle.std.specs.Prelude.{◌≡◌};
ghost use Rattle.state.specs.Places.{empty_frame};
ghost use Rattle.state.specs.Update.{insert_slot, remove_slot, lock_slot, merge_list, only_list};

use state::{Capability, Frame};

// A slot more at a place; later slots shift down. A full frame stays as it is. What this and the other shifts share is `copy_within` and one
// write.
pub fn insert_slot(f: Frame, at: u8, c: Capability) -> Frame
    ensures { result ≡ insert_slot f at c }
{
    if 8 <= f.count {
        return f;
    }
    let mut g = f;
    g.count += 1;
    let at = usize::from(at);
    if at < 8 {
        g.slots.copy_within(at..7, at + 1);
        g.slots[at] = c;
    }
    g
}

// A slot less; later slots shift up. A slot that does not stand changes nothing.
pub fn remove_slot(f: Frame, at: u8) -> Frame
    ensures { result ≡ remove_slot f at }
{
    if f.count <= at {
        return f;
    }
    let mut g = f;
    g.count -= 1;
    let at = usize::from(at);
    if at < 8 {
        g.slots.copy_within(at + 1..8, at);
        g.slots[7] = Capability::default();
    }
    g
}

// Locks a slot and all before it; 255 sets the whole lock.
pub fn lock_slot(f: Frame, slot: u8) -> Frame
    ensures { result ≡ lock_slot f slot }
{
    let mut g = f;
    if slot == 255 {
        g.whole = true;
    } else {
        g.locked = f.locked.max(slot + 1);
    }
    g
}

// A registered Clist put in behind what is locked, or second where nothing is.
pub fn merge_list(f: Frame, c: Capability) -> Frame
    ensures { result ≡ merge_list f c }
{
    let at = if f.locked == 0 {
        f.count.min(1)
    } else {
        f.locked
    };
    insert_slot(f, at, c)
}

// A registered Clist alone.
pub fn only_list(c: Capability) -> Frame
    ensures { result ≡ only_list c }
{
    let mut f = empty_frame();
    f.slots[0] = c;
    f.count = 1;
    f
}

// No slot and no lock: what an unused place for a frame holds.
pub fn empty_frame() -> Frame
    ensures { result ≡ empty_frame }
{
    Frame::default()
}
