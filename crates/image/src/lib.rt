// The state as a byte image of one fixed length, and back.
#![tactic(auto)]

ghost use Rattle.std.specs.Prelude.{◌≡◌, length};
ghost use Rattle.soundness.specs.Sound.{sound};
ghost use Rattle.layout.specs.Sizes.{state_size};
ghost use Rattle.image.specs.Image.{reading, written};

use layout::sizes::STATE;
use layout::states::{put_state, state_of, truths_ok};
use soundness::sound;
use state::State;

// What an image reads as: whether it is readable, and then its state.
// No Option: `reading`, which read_image and write_image promise, has the state of an image of the length that is not readable too.
#[derive(Clone, Copy)]
pub struct Reading {
    pub readable: bool,
    pub state: State,
}

// Reads an image.
pub fn read_image(image: &[u8]) -> Reading
    ensures { result ≡ reading image.now }
{
    let s = state_of(image);
    if image.len() != STATE {
        return Reading {
            readable: false,
            state: s,
        };
    }
    Reading {
        readable: truths_ok(image) & sound(s),
        state: s,
    }
}

// Writes the image of a state. Reading it gives that state, if it is sound.
pub fn write_image(image: &mut [u8], s: State)
    ensures image_after { image.new ≡ written image.old s }
    ensures image_after_2 { length image.old ≡ state_size → reading image.new ≡ record { readable = sound s; state = s } }
{
    put_state(image, s);
}
