// The lengths of the slices of a C call.
ghost use Rattle.std.specs.Prelude.{◌≡◌, eqb, length};
ghost use Rattle.layout.specs.Sizes.{state_size};
ghost use Rattle.slices.specs.Slices.{wrong_length};
ghost use Rattle.slices.specs.Lengths.{wrong_number, length_number};

use crate::values::VALUES;
use layout::sizes::STATE;

// How many bytes the store takes.
pub const STORE: usize = 65536;

// Which slice has a wrong length: the store, which counts first, or the values.
#[derive(Clone, Copy, Debug, PartialEq)]
pub enum WrongLength {
    Store,
    Values,
}

// The number of the refusal: 2 for the store's length, 13 for the values'.
impl From<WrongLength> for u64 {
    fn from(wrong: WrongLength) -> u64
        ensures { result ≡ wrong_number wrong }
    {
        match wrong {
            WrongLength::Store => 2,
            WrongLength::Values => 13,
        }
    }
}

// Whether the store and the values have their lengths.
pub fn check_lengths(store: usize, values: usize) -> Result<(), WrongLength>
    ensures { length_number result ≡ wrong_length store values }
{
    if store != STORE {
        return Err(WrongLength::Store);
    }
    if values != VALUES {
        return Err(WrongLength::Values);
    }
    Ok(())
}

// Whether the image has its length.
pub fn has_length(image: &[u8]) -> bool
    ensures { result ≡ eqb (length image.now) state_size }
{
    image.len() == STATE
}
