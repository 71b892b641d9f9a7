// The rights of a capability, and the modes that a password can have.
#![tactic(auto)]

ghost use Rattle.std.specs.Prelude.{◌≡◌};
ghost use Rattle.rights.specs.Modes.{legal, grants, denies};

use table::mode_table;

pub mod table;

// A set of rights, or a mode: rights and perhaps NOT.
#[derive(Clone, Copy)]
pub struct Rights {
    pub bits: u8,
}

impl Rights {
    pub const READ: Rights = Rights { bits: 1 };

    pub const WRITE: Rights = Rights { bits: 2 };

    pub const EXECUTE: Rights = Rights { bits: 4 };

    pub const DESTROY: Rights = Rights { bits: 8 };

    pub const PDX: Rights = Rights { bits: 16 };
    // READ, WRITE, EXECUTE and DESTROY together.
    pub const OWNER: Rights = Rights { bits: 15 };
    // Turns a mode from one that grants into one that denies.
    pub const NOT: Rights = Rights { bits: 128 };

    // Whether a number is a legal mode: it stands in the table, and its entry is 1.
    pub fn legal(mode: u64) -> bool
        ensures { result ≡ legal mode }
    {
        match u8::try_from(mode) {
            Ok(mode) => mode_table()[usize::from(mode)] == 1,
            Err(_) => false,
        }
    }

    // Whether a capability of this mode grants the wanted rights: it is positive and covers them all.
    pub fn grants(self, wanted: Rights) -> bool
        ensures { result ≡ grants self.bits wanted.bits }
    {
        (self.bits & Rights::NOT.bits == 0) & (self.bits & wanted.bits == wanted.bits)
    }

    // Whether a capability of this mode denies the wanted rights: it is negative and holds at least one of them.
    pub fn denies(self, wanted: Rights) -> bool
        ensures { result ≡ denies self.bits wanted.bits }
    {
        (self.bits & Rights::NOT.bits != 0) & (self.bits & wanted.bits != 0)
    }
}
