// The values behind an answer, as bytes.
ghost use Rattle.std.specs.Prelude.{◌≡◌, ◌<◌, Ok};
ghost use Rattle.bounded.specs.Fill.{tabulate};
ghost use Rattle.calls.specs.Answers.{values_from};
ghost use Rattle.slices.specs.Slices.{filled, cleared};
ghost use Rattle.slices.specs.Laws.Valued.{value_at};

use calls::Fields;
use calls::replies::no_fields;
use layout::words::put_words;

// How many bytes the values take.
pub const VALUES: usize = 88;

// The values of a done call: the value alone or the fields, and zeros behind them.
fn value_words(value: u64, f: Fields) -> [u64; 11]
    ensures { result ≡ tabulate 11 (value_at value f) }
{
    let mut words = [0; 11];
    if f.count == 0 {
        words[0] = value;
        return words;
    }
    let n = f.count.min(11) as usize;
    words[..n].copy_from_slice(&f.values[..n]);
    words
}

// The values of a done call as bytes; a slice of another length is not touched.
pub fn put_values(bytes: &mut [u8], value: u64, f: Fields)
    ensures { bytes.new ≡ filled bytes.old (values_from (Ok value) f) }
{
    if bytes.len() != VALUES {
        return;
    }
    let words = value_words(value, f);
    put_words(bytes, &words, 0, 11);
}

// A refusal by the paper's number, which is what a C function gives: the values are cleared where they have their length.
pub fn refuse(bytes: &mut [u8], number: u64) -> u64
    ensures { (result ≡ number) × (bytes.new ≡ cleared bytes.old) }
{
    put_values(bytes, 0, no_fields());
    number
}
