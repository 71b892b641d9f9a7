// Words of the store that become 0.
ghost use Rattle.std.specs.Prelude.{◌≡◌};
ghost use Rattle.calls.specs.Changes.{zeroed_within};

// n words from `start` on become 0, where they lie in the store; else nothing changes.
pub fn zero_words(store: &mut [u64], start: usize, n: usize)
    ensures { store.new ≡ zeroed_within start n store.old }
{
    let length = store.len();
    if (start <= length) && (n <= length - start) {
        store[start..start + n].fill(0);
    }
}
