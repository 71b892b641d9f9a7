// Reading a line of the call program.
#![tactic(auto)]

ghost use Rattle.std.specs.Prelude.{Some, length};
ghost use Rattle.lines.specs.declared.Named.TheVariants.{Boot, Call as Named-as-Call};
ghost use Rattle.lines.specs.Arguments.{numbers_of};
ghost use Rattle.lines.specs.Cut.{behind};
ghost use Rattle.lines.specs.Gathering.{Gathered};
ghost use Rattle.lines.specs.Room.{held_by};
ghost use Rattle.lines.specs.Reading.{ReadAs, Whatever};
ghost use Rattle.lines.specs.Grammar.{with_arguments, line_of};

use calls::{BOOT_NUMBERS, Call};
use fields::letters_of;
use grammar::call_of;

mod fields;
mod grammar;

pub use fields::{find, number};

// The longest line has so many bytes before its line feed.
pub const LINE_BYTES: usize = 200;

// What known letters name.
#[derive(Clone, Copy)]
enum Named {
    Boot,
    Call(Mnemonic),
}

// The letters of each call.
#[derive(Clone, Copy)]
enum Mnemonic {
    Rd,
    Wr,
    Ex,
    Lk,
    Cr,
    Dl,
    Ap,
    Dp,
    Rg,
    In,
    Rm,
    Gt,
    Lo,
    Ca,
    Rt,
}

// A readable line: a boot, whose numbers stand beside it, or a call.
#[derive(Clone, Copy)]
pub enum Line {
    Boot { domain: u64 },
    Call { domain: u64, call: Call },
}

// The numbers in the text behind the call letters: nothing, or a comma and a number for each. How many there are; the first are put into
// an array, as far as it has room. Where it is to hold all, none as soon as there is one too many: such a line is not read to its end. A field
// is taken by let-else, as document 01 asks, which is also 3 instructions a line less than `?`.
fn read_numbers(t: &[u8], all: bool, into: &mut [u64]) -> Option<usize>
    ensures { Gathered (held_by all (length into.old) (numbers_of (behind t.now))) result into.old into.new }
{
    if t.is_empty() {
        return Some(0);
    }
    let mut n = 0;
    for field in t[1..].split(|b| *b == b',') {
        if all & (n == into.len()) {
            return None;
        }
        let Some(v) = number(field) else {
            return None;
        };
        if n < into.len() {
            into[n] = v;
        }
        n += 1;
    }
    Some(n)
}

// A call of these letters, with the arguments in the text t.
fn read_call(domain: u64, mnemonic: Mnemonic, t: &[u8]) -> Option<Line>
    ensures { Whatever result (with_arguments domain (Some (Named-as-Call mnemonic)) (numbers_of (behind t.now))) }
{
    let mut arguments = [0; 8];
    let count = read_numbers(t, false, &mut arguments)?;
    let call = call_of(mnemonic, count, &arguments)?;
    Some(Line::Call { domain, call })
}

// A boot, with its numbers in the text t: where it has all that it takes and no more, they are put into the plan.
fn read_boot(domain: u64, t: &[u8], plan: &mut [u64; BOOT_NUMBERS]) -> Option<Line>
    ensures { ReadAs result plan.old plan.new (with_arguments domain (Some Boot) (numbers_of (behind t.now))) }
{
    let mut numbers = [0; BOOT_NUMBERS];
    let count = read_numbers(t, true, &mut numbers)?;
    if count != BOOT_NUMBERS {
        return None;
    }
    *plan = numbers;
    Some(Line::Boot { domain })
}

// A line: the bytes before its line feed; none where it is not readable. The numbers of a readable boot are put into the plan; any other
// line leaves it as it was.
pub fn read_line(s: &[u8], plan: &mut [u64; BOOT_NUMBERS]) -> Option<Line>
    ensures { ReadAs result plan.old plan.new (line_of s.now) }
{
    if s.len() > LINE_BYTES {
        return None;
    }
    let d = find(s, 0, b',');
    let Some(domain) = number(&s[..d]) else {
        return None;
    };
    if d == s.len() {
        return None;
    }
    let from = d + 1;
    let e = find(s, from, b',');
    let Some(named) = letters_of(&s[from..e]) else {
        return None;
    };
    match named {
        Named::Boot => read_boot(domain, &s[e..], plan),
        Named::Call(mnemonic) => read_call(domain, mnemonic, &s[e..]),
    }
}
