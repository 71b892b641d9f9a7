// A state read off a slice of bytes, and written over one.
ghost use Rattle.std.specs.Prelude.{◌≡◌, length};
ghost use Rattle.layout.specs.Sizes.{state_size};
ghost use Rattle.layout.specs.Layout.{state};
ghost use Rattle.layout.specs.Whole.{state_of, truths_ok, with_state};
ghost use Rattle.state.specs.Places.{empty_state};

use crate::parts::{Part, array_ok, load_array, store_array};
use crate::sizes::{STATE, STATE_ACCOUNTS, STATE_DOMAINS};
use state::{Domain, State};
use updates::estates::empty_state;

// A state: the object table, the four domains and the accounts.
impl Part for State {
    const SIZE: usize = STATE;

    ghost SIZE = { state_size };

    ghost layout = { state };

    ghost none = { empty_state };

    fn load(&mut self, bytes: &[u8], at: usize) {
        self.table.load(bytes, at);
        load_array(&mut self.domains, bytes, at + STATE_DOMAINS);
        self.accounts.load(bytes, at + STATE_ACCOUNTS);
    }

    fn store(&self, bytes: &mut [u8], at: usize) {
        self.table.store(bytes, at);
        store_array(&self.domains, bytes, at + STATE_DOMAINS);
        self.accounts.store(bytes, at + STATE_ACCOUNTS);
    }
}

// The state of a slice of its length. Of another slice, the empty state, and no Option: the promise gives a state of every slice.
pub fn state_of(bytes: &[u8]) -> State
    ensures { result ≡ state_of bytes.now }
{
    if bytes.len() != STATE {
        return empty_state();
    }
    let mut s = empty_state();
    s.load(bytes, 0);
    s
}

// Whether a slice has the length, and every yes or no in it is 1 or 0.
pub fn truths_ok(bytes: &[u8]) -> bool
    ensures { result ≡ truths_ok bytes.now }
{
    bytes.len() == STATE && array_ok::<Domain, 4>(bytes, STATE_DOMAINS)
}

// A state written over a slice of its length, which reads as that state then. Another slice is not touched.
pub fn put_state(bytes: &mut [u8], s: State)
    ensures bytes_after { bytes.new ≡ with_state bytes.old s }
    ensures bytes_after_2 { length bytes.old ≡ state_size → state_of bytes.new ≡ s }
{
    if bytes.len() == STATE {
        s.store(bytes, 0);
    }
}
