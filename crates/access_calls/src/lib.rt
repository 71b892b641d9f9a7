// The calls that access the store: RD, WR, EX and LK. An access leaves the state as it is.
#![tactic(auto)]

ghost use Rattle.std.specs.Prelude.{◌≡◌, length};
ghost use Rattle.judge.specs.Judged.{judged};
ghost use Rattle.judge.specs.declared.Target.TheVariants.{Address};
ghost use Rattle.calls.specs.Parts.{Answers};
ghost use Rattle.calls.specs.declared.Access.TheVariants.{Read, Write, Execute, Lookup};
ghost use Rattle.access_calls.specs.Accessed.{accessed_by};

use calls::{Access, Refusal, STORE_WORDS};
use judge::{Target, judge};
use rights::Rights;
use state::{Frame, Table};

// An access for any rights: the address of the granting pair, where the store has its length (check 2), the address lies in it (check 5), and the
// frame's Clists grant them (check 7).
fn accessed(t: Table, store: &[u64], f: Frame, address: u64, wanted: Rights) -> Result<u64, Refusal>
    ensures { result ≡ accessed_by (length store.now) address (judged t store.now f (Address address) wanted.bits) }
{
    if store.len() != STORE_WORDS {
        return Err(Refusal::StoreLength);
    }
    if 8192 <= address {
        return Err(Refusal::OutOfRange);
    }
    judge(t, store, f, Target::Address(address), wanted).ok_or(Refusal::NotGranted)
}

// RD: the word at an address.
pub fn read(t: Table, store: &[u64], f: Frame, address: u64) -> Result<u64, Refusal>
    ensures { Answers t f store.now (Read address) result store.now }
{
    accessed(t, store, f, address, Rights::READ)?;
    Ok(store[address as usize])
}

// WR: stores a word at an address.
pub fn write(
    t: Table,
    store: &mut [u64],
    f: Frame,
    address: u64,
    value: u64,
) -> Result<u64, Refusal>
    ensures { Answers t f store.old (Write address value) result store.new }
{
    accessed(t, store, f, address, Rights::WRITE)?;
    store[address as usize] = value;
    Ok(0)
}

// EX: whether the word at an address may be executed.
pub fn execute(t: Table, store: &[u64], f: Frame, address: u64) -> Result<u64, Refusal>
    ensures { Answers t f store.now (Execute address) result store.now }
{
    accessed(t, store, f, address, Rights::EXECUTE)?;
    Ok(address)
}

// LK: the address of the capability that grants rights at an address.
pub fn apd_lookup(
    t: Table,
    store: &[u64],
    f: Frame,
    address: u64,
    rights: u64,
) -> Result<u64, Refusal>
    ensures { Answers t f store.now (Lookup address rights) result store.now }
{
    if store.len() != STORE_WORDS {
        return Err(Refusal::StoreLength);
    }
    if rights == 0 {
        return Err(Refusal::OutOfRange);
    }
    if 32 <= rights {
        return Err(Refusal::OutOfRange);
    }
    let wanted = Rights { bits: rights as u8 };
    accessed(t, store, f, address, wanted)
}

// Any access by a frame.
pub fn access(t: Table, store: &mut [u64], f: Frame, call: Access) -> Result<u64, Refusal>
    ensures { Answers t f store.old call result store.new }
{
    match call {
        Access::Read { address } => read(t, store, f, address),
        Access::Write { address, value } => write(t, store, f, address, value),
        Access::Execute { address } => execute(t, store, f, address),
        Access::Lookup { address, rights } => apd_lookup(t, store, f, address, rights),
    }
}
