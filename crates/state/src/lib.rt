// The state of the monitor: the object table, the protection domains and the accounts.
//
// A struct by value, with a fixed number of places in each array. A place for an object with 0 pages is free, a place for a
// password with the word 0 is free, and a registration with the password 0 is none. A count stands beside an array, since nothing is allocated
// and the image has both (docs/IMAGE.md).
#![tactic(auto)]

pub mod estates;
pub mod extents;
pub mod objects;
pub mod tables;

// A capability as a slot or a registration holds it: the page it names and the password it shows.
#[derive(Clone, Copy, Default)]
pub struct Capability {
    pub page: u8,
    pub password: u64,
}

// An ordinary password of an object with its mode.
#[derive(Clone, Copy, Default)]
pub struct Password {
    pub word: u64,
    pub mode: u8,
}

// A PDX registration: its password, its Clist capability, and the entries, of which the first `count` stand.
#[derive(Clone, Copy, Default)]
pub struct Registration {
    pub password: u64,
    pub list: Capability,
    pub count: u8,
    pub entries: [u16; 4],
}

// A run of pages, named by the first of them, on the account that it is charged to.
#[derive(Clone, Copy, Default)]
pub struct Object {
    pub base: u8,
    pub pages: u8,
    pub account: u8,
    pub passwords: [Password; 4],
    pub registration: Registration,
}

// The objects of one domain's estate.
#[derive(Clone, Copy)]
pub struct Estate {
    pub objects: [Object; 8],
}

// The object table: an estate for each domain.
#[derive(Clone, Copy)]
pub struct Table {
    pub estates: [Estate; 4],
}

// The slots of a protection domain, of which the first `count` stand, with its locks.
#[derive(Clone, Copy, Default)]
pub struct Frame {
    pub slots: [Capability; 8],
    pub count: u8,
    pub locked: u8,
    pub whole: bool,
}

// A protection domain: the active frame, and the saved ones, of which the first `depth` stand.
#[derive(Clone, Copy)]
pub struct Domain {
    pub active: Frame,
    pub saved: [Frame; 4],
    pub depth: u8,
}

// The accounts: the limit of each in pages, and for each domain the set that it may charge, bit a for account a.
#[derive(Clone, Copy)]
pub struct Accounts {
    pub limits: [u8; 4],
    pub sets: [u8; 4],
}

#[derive(Clone, Copy)]
pub struct State {
    pub table: Table,
    pub domains: [Domain; 4],
    pub accounts: Accounts,
}
