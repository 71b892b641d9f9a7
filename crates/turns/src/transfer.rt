// Reading and writing: a call that is interrupted, or would have to wait, is made again.
ghost use Rattle.std.specs.Prelude.{◌≡◌, ◌<◌, ◌≤◌, length, IfOk, IfSome, IsOk};
ghost use Rattle.std.specs.Counts.{IsPrefixLen};

use std::io::{Error, ErrorKind, Read, Result, Stdin, Stdout, Write};
use std::thread::yield_now;

// Whether a call that failed so may be made again. Before that, one that would have to wait lets others run.
fn again(why: &Error) -> bool {
    let kind = why.kind();
    if kind == ErrorKind::WouldBlock {
        yield_now();
        return true;
    }
    kind == ErrorKind::Interrupted
}

// Bytes of standard input, put at the start of `piece`: how many, or `None` at its end or where reading fails.
pub fn read_some(mut input: Stdin, piece: &mut [u8]) -> Option<usize>
    ensures fits { IfSome result (λ n. IsPrefixLen n piece.new) }
    ensures some { IfSome result (λ n. 0 < n) }
{
    for _ in 0..u64::MAX {
        match input.read(piece) {
            Ok(0) => return None,
            Ok(n) => return Some(n),
            Err(why) => {
                if !again(&why) {
                    return None;
                }
            }
        }
    }
    None
}

// Writes the first bytes of a text to standard output: how many, at least one.
fn write_some(mut output: Stdout, text: &[u8]) -> Result<usize>
    ensures { IfOk result (λ n. (0 < n) × (n ≤ length text.now)) }
{
    for _ in 0..u64::MAX {
        match output.write(text) {
            Ok(0) => return Err(Error::from(ErrorKind::WriteZero)),
            Ok(n) => return Ok(n),
            Err(why) => {
                if !again(&why) {
                    return Err(why);
                }
            }
        }
    }
    Err(Error::from(ErrorKind::TimedOut))
}

// Writes all of `text` to standard output; where it has no bytes, nothing is left to fail. Behind a write that fails it makes no other.
pub fn write_text(output: Stdout, text: &[u8]) -> Result<()>
    ensures { length text.now ≡ 0 → IsOk result }
{
    let mut rest = text;
    while !rest.is_empty() {
        let n = write_some(output, rest)?;
        rest = &rest[n..];
    }
    Ok(())
}
