// The mode table as the tests of passwords read it.
ghost use Rattle.std.specs.Prelude.{◌≡◌};
ghost use Rattle.rights.specs.Modes.{legal};
ghost use Rattle.rights.specs.Table.{mode_table};

use rights::table::mode_table;

// The mode table, laid on the stack once and lent to every test of a password.
#[derive(Drop)]
pub struct ModeTable {
    entries: [u8; 256],
    ghost whole: { entries ≡ mode_table },
}

impl ModeTable {
    pub fn new() -> Self {
        ModeTable {
            entries: mode_table(),
        }
    }

    // Whether a mode is legal: its entry is 1.
    pub fn legal(&self, mode: u8) -> bool
        ensures { result ≡ legal mode }
    {
        self.entries[mode as usize] == 1
    }
}
