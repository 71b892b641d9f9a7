// The object table at the end of the input: what the programs that print it share.
#![tactic(auto)]

ghost use Rattle.ending.specs.Behind.{Left};

use state::Table;
use std::io::Stdin;
use turns::run;

// Reads call lines to the end of the input, has no output to write answers to, and gives the object table that they leave.
pub fn end_table(input: Stdin) -> Table
    ensures { Left result }
{
    let mut store = [0u64; 8192];
    let end = run(input, None, &mut store).unwrap();
    end.state.table
}
