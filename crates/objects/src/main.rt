// The objects: standard input to its end, and then a header and a line for each object to standard output.
#![tactic(auto)]

ghost use Rattle.ending.specs.Printed.{Printed};
ghost use Rattle.listing.specs.Lines.{listing};

use ending::end_table;
use listing::{LISTING, listing_text};
use std::io::Stdin;
use text::Text;
use turns::transfer::write_text;

// Reads call lines to the end of the input, writes no answers, and gives the listing of the objects that they leave.
// `accounts` has the same with its own text: one function for both, over a closure, would be longer than the two calls here.
fn end_text(input: Stdin) -> Text<LISTING>
    ensures { Printed listing result }
{
    listing_text(end_table(input))
}

fn main(rt: HostRuntime) {
    let output = rt.stdout();
    let text = end_text(rt.stdin());
    let _ = write_text(output, text.as_bytes());
}
