// The pages on account: standard input to its end, and then for each account its pages to standard output.
#![tactic(auto)]

ghost use Rattle.ending.specs.Printed.{Printed};
ghost use Rattle.figures.specs.Lines.{figure_lines};

use ending::end_table;
use figures::{FIGURES, figure_text};
use std::io::Stdin;
use text::Text;
use turns::transfer::write_text;

// Reads call lines to the end of the input, writes no answers, and gives the figures that they leave.
// `objects` has the same with its own text: one function for both, over a closure, would be longer than the two calls here.
fn end_text(input: Stdin) -> Text<FIGURES>
    ensures { Printed figure_lines result }
{
    figure_text(end_table(input))
}

fn main(rt: HostRuntime) {
    let output = rt.stdout();
    let text = end_text(rt.stdin());
    let _ = write_text(output, text.as_bytes());
}
