// Standard input to its end, its lines answered: what the programs that read call lines share.
#![tactic(auto)]

ghost use Rattle.std.specs.Prelude.{◌≡◌, true, false, ◌≤◌, length, IsNone, IsOk, MatchResult};
ghost use Rattle.stream.specs.Feed.{Reached};
ghost use Rattle.turns.specs.Led.{Begun};

use std::io;
use std::io::{Stdin, Stdout};
use stream::{Feed, feed_piece, start};
use transfer::{read_some, write_text};

pub mod transfer;

// An answer was not written: where the program stands behind it.
#[derive(Clone, Copy)]
pub struct Unwritten {
    pub feed: Feed,
}

// Writes a text, or drops it where there is no output.
fn hand_over(output: Option<Stdout>, text: &[u8]) -> io::Result<()>
    ensures { IsNone output → IsOk result }
{
    match output {
        Some(output) => write_text(output, text),
        None => Ok(()),
    }
}

// Answers a piece, a buffer of text at a time, and stops at a write that fails.
fn answer_piece(
    output: Option<Stdout>,
    f: Feed,
    store: &mut [u64],
    piece: &[u8],
    out: &mut [u8],
) -> Result<Feed, Unwritten>
    requires { (length piece.now ≤ 65536) × (length out.old ≡ 65536) }
    ensures begun { MatchResult result (λ g. Begun f store.old piece.now g store.new true) (λ e. Begun f store.old piece.now e.feed store.new false) }
    ensures written { IsNone output → IsOk result }
{
    let mut g = f;
    let mut rest = piece;
    while !rest.is_empty() {
        g.at = 0;
        g = feed_piece(g, store, rest, out);
        // Not by `map_err(..)?`: of the feed that its closure takes along the proof knows nothing.
        if hand_over(output, &out[..g.at]).is_err() {
            return Err(Unwritten { feed: g });
        }
        rest = &rest[g.taken..];
    }
    Ok(g)
}

// Answers piece after piece, until the input ends or a write fails: what was answered is some input, from its start. Without an output the
// answers are dropped.
pub fn run(input: Stdin, output: Option<Stdout>, store: &mut [u64]) -> Result<Feed, Unwritten>
    ensures reached { MatchResult result (λ f. Reached store.old f store.new) (λ e. Reached store.old e.feed store.new) }
    ensures written { IsNone output → IsOk result }
{
    let mut piece = [0u8; 65536];
    let mut out = [0u8; 65536];
    let mut f = start();
    for _ in 0..u64::MAX {
        let Some(n) = read_some(input, &mut piece) else {
            break;
        };
        f = answer_piece(output, f, store, &piece[..n], &mut out)?;
    }
    Ok(f)
}
