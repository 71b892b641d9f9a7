// The call program: standard input to its end, the answers to standard output.
#![tactic(auto)]

ghost use Rattle.std.specs.Prelude.{◌≡◌, [], ◌≤◌, length, take};
ghost use Rattle.stream.specs.Run.{last_line};
ghost use Rattle.stream.specs.Feed.{standing};

use stream::{Feed, finish, header};
use turns::run;
use turns::transfer::write_text;

// Puts the answer to the last line, where that has no line feed, and answers where it ends.
fn put_last(f: Feed, out: &mut [u8]) -> usize
    requires { 273 ≤ length out.old }
    ensures { (take result out.new ≡ last_line (standing f [])) × (result ≤ length out.old) }
{
    finish(f, out)
}

fn main(rt: HostRuntime) {
    let output = rt.stdout();
    let mut store = [0u64; 8192];
    let mut last = [0u8; 273];
    if write_text(output, &header()).is_err() {
        return;
    }
    if let Ok(f) = run(rt.stdin(), Some(output), &mut store) {
        let at = put_last(f, &mut last);
        let _ = write_text(output, &last[..at]);
    }
}
