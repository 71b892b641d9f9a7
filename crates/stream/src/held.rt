// The line that is read: its first bytes are held where it lies across pieces.
ghost use Rattle.std.specs.Prelude.{◌≡◌, ◌≤◌, min, length, take};
ghost use mathlib.Core.List.{foldl};
ghost use Rattle.lines.specs.Reading.{reads};
ghost use Rattle.lines.specs.Grammar.{line_of};
ghost use Rattle.stream.specs.Feed.{held_bytes, held_byte};

use crate::HELD_BYTES;
use calls::BOOT_NUMBERS;
use lines::{Line, read_line};

// What is held of a line: so many bytes, and at most all.
#[derive(Clone, Copy)]
pub struct Held {
    pub bytes: [u8; HELD_BYTES],
    pub count: usize,
    pub ghost whole: { length bytes ≡ held_bytes },
    pub ghost fits: { count ≤ held_bytes },
}

impl Held {
    // The first `count` of these bytes, all where there are fewer.
    pub fn first(bytes: [u8; HELD_BYTES], count: usize) -> Self
        ensures same { result.bytes ≡ bytes }
        ensures clipped { result.count ≡ min count held_bytes }
    {
        Held {
            bytes,
            count: count.min(HELD_BYTES),
        }
    }

    // The bytes of s are held behind those that are, as far as there is room.
    pub fn hold(&mut self, s: &[u8])
        ensures { take self.new.count self.new.bytes ≡ foldl held_byte (take self.old.count self.old.bytes) s.now }
    {
        let n = s.len().min(HELD_BYTES - self.count);
        let end = self.count + n;
        self.bytes[self.count..end].copy_from_slice(&s[..n]);
        self.count = end;
    }

    // The line that ends with these bytes, or none where it is not readable. Where nothing is held, it is read where it lies.
    pub fn read(&mut self, rest: &[u8], plan: &mut [u64; BOOT_NUMBERS]) -> Option<Line>
        ensures { reads result plan.new ≡ line_of (foldl held_byte (take self.old.count self.old.bytes) rest.now) }
    {
        if self.count == 0 {
            return read_line(rest, plan);
        }
        self.hold(rest);
        read_line(&self.bytes[..self.count], plan)
    }

    // Holds nothing.
    pub fn clear(&mut self)
        ensures { self.new.count ≡ 0 }
    {
        self.count = 0;
    }
}
