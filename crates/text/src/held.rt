// A text that is kept in an array.
ghost use Rattle.std.specs.Prelude.{◌≡◌, ◌+◌, [], ◌++◌, cond, leb, length};
ghost use Rattle.text.specs.Answer.{with_line};

use crate::put_line;
use std::marker::Model;

// A text of at most N bytes.
#[derive(Clone, Copy)]
pub struct Text<const N: usize> {
    bytes: [u8; N],
    count: usize,
}

// Clauses see the bytes of the text. Behind it stand zeros.
impl<const N: usize> Model for Text<N> {
    ghost use Rattle.std.specs.Prelude.{ℕ, ◌-◌, ◌++◌, List, length, take, replicate};
    ghost use Rattle.text.specs.Held.{IsHeld, held_again, held_count};

    ghost Value = { List ℕ };

    ghost view = { λ t. take t.count t.bytes };

    ghost invariant = { λ t. IsHeld N t.bytes t.count };

    ghost inverse = { λ s. record { bytes = s ++ replicate (N - length s) 0; count = length s } };

    ghost inverse_ok = { λ t h i. record {
      bytes = held_again N t.bytes t.count h i;
      count = held_count N t.bytes t.count h i;
    } };
}

impl<const N: usize> Text<N> {
    // The empty text.
    pub fn new() -> Text<N>
        ensures { result ≡ [] }
    {
        Text {
            bytes: [0; N],
            count: 0,
        }
    }

    pub fn as_bytes(&self) -> &[u8]
        ensures { result.now ≡ self.now }
    {
        &self.bytes[..self.count]
    }

    // Bytes behind the text; where they have no room it stays as it is.
    pub fn put_bytes(&mut self, s: &[u8])
        ensures { self.new ≡ cond (leb (length self.old + length s.now) N) (self.old ++ s.now) self.old }
    {
        if N - self.count < s.len() {
            return;
        }
        let bytes = &mut self.bytes[..];
        bytes[self.count..self.count + s.len()].copy_from_slice(s);
        self.count += s.len();
    }

    // The line of an answer behind the text; where the longest such line has no room it stays as it is.
    pub fn put_line(&mut self, line: u64, answer: u64, values: &[u64])
        ensures { self.new ≡ with_line N self.old line answer values.now }
    {
        self.count = put_line(&mut self.bytes, self.count, line, answer, values);
    }
}
