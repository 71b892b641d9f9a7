// The fields of a line: where they end, and what they hold.
ghost use Rattle.std.specs.Prelude.{◌≡◌, ◌+◌, ◌-◌, ◌<◌, ◌≤◌, length, drop, get_or};
ghost use Rattle.lines.specs.Letters.{letters_of};
ghost use Rattle.lines.specs.Number.{field_of, numbered};
ghost use Rattle.lines.specs.Short.{with_value_within};
ghost use Rattle.lines.specs.Until.{until};

use crate::{Mnemonic, Named};

// The number v with one digit more, where that is a digit and the number stays below 2^64.
fn with_digit(v: u64, b: u8) -> Option<u64>
    ensures { result ≡ with_value_within v b }
{
    if !b.is_ascii_digit() {
        return None;
    }
    v.checked_mul(10)?.checked_add((b - b'0') as u64)
}

// The number of a field that does not begin with 0. By hand, since `parse` takes `+5` and `007`, which are no fields.
#[tactic(auto, using(crate::specs::Short::digits_bad, crate::specs::Short::digits_all))]
fn digits(s: &[u8]) -> Option<u64>
    requires { (0 < length s.now) × (get_or s.now 0 0 ≡ 48 → ⊥) }
    ensures { numbered s.now result ≡ field_of s.now }
{
    let mut v = 0;
    for b in s {
        v = with_digit(v, *b)?;
    }
    Some(v)
}

// The number of a field: digits of a number below 2^64, with no needless zero in front.
#[tactic(auto, using(crate::specs::Bytes::zero_alone), unfolding(crate::specs::Number::field_of))]
pub fn number(s: &[u8]) -> Option<u64>
    ensures { numbered s.now result ≡ field_of s.now }
{
    match s {
        [] => None,
        [b'0'] => Some(0),
        [b'0', ..] => None,
        _ => digits(s),
    }
}

// What the letters of a field name.
#[tactic(auto, unfolding(crate::specs::Letters::mnemonic_of))]
pub fn letters_of(s: &[u8]) -> Option<Named>
    ensures { result ≡ letters_of s.now }
{
    let named = match s {
        [b'B', b'T'] => Named::Boot,
        [b'R', b'D'] => Named::Call(Mnemonic::Rd),
        [b'W', b'R'] => Named::Call(Mnemonic::Wr),
        [b'E', b'X'] => Named::Call(Mnemonic::Ex),
        [b'L', b'K'] => Named::Call(Mnemonic::Lk),
        [b'C', b'R'] => Named::Call(Mnemonic::Cr),
        [b'D', b'L'] => Named::Call(Mnemonic::Dl),
        [b'A', b'P'] => Named::Call(Mnemonic::Ap),
        [b'D', b'P'] => Named::Call(Mnemonic::Dp),
        [b'R', b'G'] => Named::Call(Mnemonic::Rg),
        [b'I', b'N'] => Named::Call(Mnemonic::In),
        [b'R', b'M'] => Named::Call(Mnemonic::Rm),
        [b'G', b'T'] => Named::Call(Mnemonic::Gt),
        [b'L', b'O'] => Named::Call(Mnemonic::Lo),
        [b'C', b'A'] => Named::Call(Mnemonic::Ca),
        [b'R', b'T'] => Named::Call(Mnemonic::Rt),
        _ => return None,
    };
    Some(named)
}

// Where the first byte b from `from` on stands, or the end: no Option, since a part ends there either way. Four bytes are looked at in each turn, then the last few one by one: with
// `position` a line of the benchmark's workload takes 2,655 instructions in place of 2,572.
#[tactic(auto, using(crate::proofs::Seeking::seeking))]
pub fn find(s: &[u8], from: usize, b: u8) -> usize
    ensures { (result ≡ from + until b (drop from s.now)) × (from ≤ result) × (result ≤ from + (length s.now - from)) }
{
    if s.len() <= from {
        return from;
    }
    let mut i = from;
    while 4 <= s.len() - i {
        if s[i] == b {
            return i;
        }
        if s[i + 1] == b {
            return i + 1;
        }
        if s[i + 2] == b {
            return i + 2;
        }
        if s[i + 3] == b {
            return i + 3;
        }
        i += 4;
    }
    while i < s.len() {
        if s[i] == b {
            return i;
        }
        i += 1;
    }
    i
}
