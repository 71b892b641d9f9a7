// Prints the mode rule: a line for each mode from 0 to 255, 1 where it is legal and 0 where not. It works each one out by the rule
// and does not read the table of `rights`.
#![tactic(auto)]

ghost use Rattle.std.specs.Prelude.{◌≡◌};
ghost use Rattle.rights.specs.Modes.{legal};
ghost use Rattle.modes.specs.Printed.{digit_of, printed};

use std::io::Print;

// Whether a number is a legal mode: below 256, bits 32 and 64 clear, some right, and PDX (16) only beside NOT (128).
fn rule(mode: u64) -> bool
    ensures { result ≡ legal mode }
{
    (mode < 256) & (mode & 96 == 0) & (mode & 31 != 0) & ((mode & 16 == 0) | (mode & 128 != 0))
}

// The digit of a mode, 1 or 0.
fn digit(mode: u64) -> u8
    ensures { result ≡ digit_of mode }
{
    b'0' + u8::from(rule(mode))
}

// All lines: each begins with its digit, and a line feed follows.
fn text() -> [u8; 512]
    ensures { result ≡ printed }
{
    let mut lines = [b'\n'; 512];
    for mode in 0..256 {
        lines[2 * mode] = digit(mode as u64);
    }
    lines
}

fn main(rt: HostRuntime) {
    let _ = rt.write_all(&text());
}
