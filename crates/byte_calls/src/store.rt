// The store's bytes as words, and back.
ghost use Rattle.std.specs.Prelude.{◌≡◌, ◌≤◌, length};
ghost use Rattle.slices.specs.Slices.{words};
ghost use Rattle.byte_calls.specs.Laws.Stored.{Outside};

use layout::words::{put_words, read_words};

// How many words the store has.
pub const WORDS: usize = 8192;

// The words of the store's bytes.
pub fn load(store: &mut [u64], bytes: &[u8])
    requires { (length store.old ≡ 8192) × (length bytes.now ≡ 65536) }
    ensures { store.new ≡ words.get bytes.now }
{
    read_words(store, bytes);
}

// The words of a run written to the store's bytes; outside it the bytes have them already.
pub fn save(bytes: &mut [u8], store: &[u64], from: usize, to: usize)
    requires { (length bytes.old ≡ 65536) × (length store.now ≡ 8192) × (to ≤ 8192) × Outside from to bytes.old store.now }
    ensures { bytes.new ≡ words.put store.now }
{
    put_words(bytes, store, from, to);
}
