// Words of 8 bytes in a slice, one behind the other.
ghost use Rattle.std.specs.Prelude.{◌≡◌};
ghost use Rattle.layout.specs.Whole.{words_read, words_put};

use crate::parts::Part;

// As many words as there are places, where there are bytes for all of them; else they stay.
pub fn read_words(words: &mut [u64], bytes: &[u8])
    ensures { words.new ≡ words_read words.old bytes.now }
{
    if bytes.len() / 8 < words.len() {
        return;
    }
    for (i, word) in words.iter_mut().enumerate() {
        word.load(bytes, 8 * i);
    }
}

// The words of the run up to `to`, each at its place, where both slices reach so far; else nothing is written.
pub fn put_words(bytes: &mut [u8], words: &[u64], from: usize, to: usize)
    ensures { bytes.new ≡ words_put bytes.old words.now from to }
{
    if bytes.len() / 8 < to {
        return;
    }
    if words.len() < to {
        return;
    }
    for i in from..to {
        words[i].store(bytes, 8 * i);
    }
}
