// The accounts in their image.
ghost use Rattle.layout.specs.Sizes.{accounts_size};
ghost use Rattle.layout.specs.Layout.{accounts};
ghost use Rattle.state.specs.Places.{no_accounts};

use crate::parts::{Part, load_array, store_array};
use crate::sizes::{ACCOUNTS, ACCOUNTS_SETS};
use state::Accounts;

// The accounts: the limit of each, then the set of each domain.
impl Part for Accounts {
    const SIZE: usize = ACCOUNTS;

    ghost SIZE = { accounts_size };

    ghost layout = { accounts };

    ghost none = { no_accounts };

    fn load(&mut self, bytes: &[u8], at: usize) {
        load_array(&mut self.limits, bytes, at);
        load_array(&mut self.sets, bytes, at + ACCOUNTS_SETS);
    }

    fn store(&self, bytes: &mut [u8], at: usize) {
        store_array(&self.limits, bytes, at);
        store_array(&self.sets, bytes, at + ACCOUNTS_SETS);
    }
}
