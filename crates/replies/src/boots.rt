// A boot, answered into the buffer.
ghost use Rattle.calls.specs.Step.{world, unchecked};
ghost use Rattle.lines.specs.Reading.{boot_by};
ghost use Rattle.replies.specs.Reply.{reply};
ghost use Rattle.replies.specs.Told.{Told};

use crate::NewState;
use boot::boot;
use calls::BOOT_NUMBERS;
use state::State;
use text::put_answer;

// A refused one leaves the state as it is.
pub fn boot_line(
    s: State,
    store: &mut [u64],
    d: u64,
    plan: [u64; BOOT_NUMBERS],
    number: u64,
    out: &mut [u8],
    at: usize,
) -> NewState
    ensures { Told number out.old at out.new result.at (world result.state store.new) (reply unchecked (world s store.old) (boot_by d plan)) }
{
    let o = boot(store, d, plan);
    let at = put_answer(out, at, number, o.answer, o.fields);
    // Each arm returns, as in `boot`: the value of a `match` would be copied.
    match o.answer {
        Ok(_) => return NewState { state: o.state, at },
        Err(_) => return NewState { state: s, at },
    }
}
