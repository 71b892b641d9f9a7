// Any call on the three slices: the image of the state, the store's bytes, and the values that come back.
#![tactic(auto)]

ghost use Rattle.std.specs.Prelude.{◌≡◌, cond};
ghost use Rattle.image.specs.Image.{written};
ghost use Rattle.byte_calls.specs.Called.{slices, told, is_done, told_by, called, booted};
ghost use Rattle.byte_calls.specs.Laws.Concluded.{Ready};

use crate::changes::changed_by;
use crate::store::{WORDS, load, save};
use apply::unchecked;
use boot::boot;
use calls::{BOOT_NUMBERS, Call, Outcome};
use image::{read_image, write_image};
use slices::lengths::{check_lengths, has_length};
use slices::values::{put_values, refuse};
use state::State;

mod changes;
mod store;

// What a done call can have changed: the state or not, and a run of the store's words.
#[derive(Clone, Copy)]
pub struct Changed {
    pub state: bool,
    pub from: usize,
    pub to: usize,
}

// The state's image, where the state can have changed.
fn keep_state(image: &mut [u8], s: State, changed: bool)
    ensures { image.new ≡ cond changed (written image.old s) image.old }
{
    if !changed {
        return;
    }
    write_image(image, s);
}

// What a call comes to: refused, or done, with what it can have changed written back.
fn conclude(
    image: &mut [u8],
    store: &mut [u8],
    values: &mut [u8],
    words: &[u64],
    changed: Changed,
    outcome: Outcome,
) -> u64
    requires { Ready (slices image.old store.old values.old) words.now changed outcome }
    ensures { told result (slices image.new store.new values.new) ≡ told_by (slices image.old store.old values.old) outcome words.now }
{
    let answer = outcome.answer;
    let s = outcome.state;
    let f = outcome.fields;
    keep_state(image, s, changed.state & answer.is_ok());
    match answer {
        Ok(value) => {
            save(store, words, changed.from, changed.to);
            put_values(values, value, f);
            0
        }
        Err(why) => refuse(values, u64::from(why)),
    }
}

// Any call but BT: 2 and 13 for the lengths, 13 for an image that does not read, then what the call answers. The three slices and the number
// are those of the C functions.
pub fn call(image: &mut [u8], store: &mut [u8], values: &mut [u8], d: u64, call: Call) -> u64
    ensures { told result (slices image.new store.new values.new) ≡ called (slices image.old store.old values.old) d call }
{
    if let Err(wrong) = check_lengths(store.len(), values.len()) {
        return refuse(values, u64::from(wrong));
    }
    let reading = read_image(image);
    if !reading.readable {
        return refuse(values, 13);
    }
    let mut words = [0u64; WORDS];
    load(&mut words, store);
    let outcome = unchecked(reading.state, &mut words, d, call);
    conclude(image, store, values, &words, changed_by(call), outcome)
}

// BT: of the image only its length counts.
pub fn boot_call(
    image: &mut [u8],
    store: &mut [u8],
    values: &mut [u8],
    d: u64,
    plan: [u64; BOOT_NUMBERS],
) -> u64
    ensures { told result (slices image.new store.new values.new) ≡ booted (slices image.old store.old values.old) d plan }
{
    if let Err(wrong) = check_lengths(store.len(), values.len()) {
        return refuse(values, u64::from(wrong));
    }
    if !has_length(image) {
        return refuse(values, 13);
    }
    let mut words = [0u64; WORDS];
    load(&mut words, store);
    let outcome = boot(&mut words, d, plan);
    let all = Changed {
        state: true,
        from: 0,
        to: WORDS,
    };
    conclude(image, store, values, &words, all, outcome)
}
