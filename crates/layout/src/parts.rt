// A part of the state in a run of bytes: numbers, the lowest byte first, and arrays of parts.
ghost use Rattle.std.specs.Prelude.{◌≡◌, ℕ, ◌+◌, ◌*◌, ◌≤◌, length, drop, false};
ghost use Rattle.codec.specs.Codec.{Codec};
ghost use Rattle.codec.specs.Laid.{lay};
ghost use Rattle.codec.specs.Number.{number, byte, truth};
ghost use Rattle.codec.specs.Array.{array, times};

// A value of `SIZE` bytes. An array is none: its length in bytes, the product, need not fit a `usize`.
pub trait Part {
    const SIZE: usize;

    ghost SIZE: { ℕ };

    ghost layout: { Codec SIZE Self };

    // What stands past the end of an array.
    ghost none: { Self };

    // The value becomes the one that begins at the place.
    fn load(&mut self, bytes: &[u8], at: usize)
        requires { at + SIZE ≤ length bytes.now }
        ensures { self.new ≡ layout.get (drop at bytes.now) };

    fn store(&self, bytes: &mut [u8], at: usize)
        requires { at + SIZE ≤ length bytes.old }
        ensures { (bytes.new ≡ lay bytes.old at (layout.put self.now)) × layout.fits self.now };
}

// A part in which a yes or no stands, a byte that has to be 0 or 1.
pub trait Checked: Part {
    fn ok(bytes: &[u8], at: usize) -> bool
        requires { at + Self.SIZE ≤ length bytes.now }
        ensures { result ≡ Self.layout.ok (drop at bytes.now) };
}

impl Part for u8 {
    const SIZE: usize = 1;

    ghost SIZE = { 1 };

    ghost layout = { byte };

    ghost none = { 0 };

    fn load(&mut self, bytes: &[u8], at: usize) {
        *self = bytes[at];
    }

    fn store(&self, bytes: &mut [u8], at: usize) {
        bytes[at] = *self;
    }
}

impl Part for u16 {
    const SIZE: usize = 2;

    ghost SIZE = { 2 };

    ghost layout = { number 2 };

    ghost none = { 0 };

    fn load(&mut self, bytes: &[u8], at: usize) {
        *self = u16::from_le_bytes([bytes[at], bytes[at + 1]]);
    }

    fn store(&self, bytes: &mut [u8], at: usize) {
        bytes[at..at + 2].copy_from_slice(&self.to_le_bytes());
    }
}

impl Part for u64 {
    const SIZE: usize = 8;

    ghost SIZE = { 8 };

    ghost layout = { number 8 };

    ghost none = { 0 };

    fn load(&mut self, bytes: &[u8], at: usize) {
        let mut word = [0; 8];
        word.copy_from_slice(&bytes[at..at + 8]);
        *self = u64::from_le_bytes(word);
    }

    fn store(&self, bytes: &mut [u8], at: usize) {
        bytes[at..at + 8].copy_from_slice(&self.to_le_bytes());
    }
}

impl Part for bool {
    const SIZE: usize = 1;

    ghost SIZE = { 1 };

    ghost layout = { truth };

    ghost none = { false };

    fn load(&mut self, bytes: &[u8], at: usize) {
        *self = bytes[at] == 1;
    }

    fn store(&self, bytes: &mut [u8], at: usize) {
        bytes[at] = *self as u8;
    }
}

impl Checked for bool {
    fn ok(bytes: &[u8], at: usize) -> bool {
        bytes[at] <= 1
    }
}

// Parts one behind the other.
pub fn load_array<T: Part, const N: usize>(parts: &mut [T; N], bytes: &[u8], at: usize)
    requires { at + times N T.SIZE ≤ length bytes.now }
    ensures { parts.new ≡ (array N T.layout T.none).get (drop at bytes.now) }
{
    for (i, part) in parts.iter_mut().enumerate() {
        part.load(bytes, at + T::SIZE * i);
    }
}

pub fn store_array<T: Part, const N: usize>(parts: &[T; N], bytes: &mut [u8], at: usize)
    requires { at + times N T.SIZE ≤ length bytes.old }
    ensures { (bytes.new ≡ lay bytes.old at ((array N T.layout T.none).put parts.now)) × (array N T.layout T.none).fits parts.now }
{
    for (i, part) in parts.iter().enumerate() {
        part.store(bytes, at + T::SIZE * i);
    }
}

pub fn array_ok<T: Checked, const N: usize>(bytes: &[u8], at: usize) -> bool
    requires { at + times N T.SIZE ≤ length bytes.now }
    ensures { result ≡ (array N T.layout T.none).ok (drop at bytes.now) }
{
    (0..N).all(
        |i| -> bool
            requires { at + T.SIZE * i + T.SIZE ≤ length bytes.now }
        { T::ok(bytes, at + T::SIZE * i) },
    )
}
