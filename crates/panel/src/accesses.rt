// The accesses as C functions: RD, WR, EX and LK.
ghost use Rattle.std.specs.Prelude.{◌≡◌};
ghost use Rattle.calls.specs.declared.Call.TheVariants.{OnStore};
ghost use Rattle.calls.specs.declared.Access.TheVariants.{Read, Write, Execute, Lookup};
ghost use Rattle.byte_calls.specs.Called.{slices, told, called};

use byte_calls::call;
use calls::{Access, Call};

// RD: the word at an address.
#[unsafe(no_mangle)]
pub extern "C" fn reshqobi_rd(
    image: &mut [u8],
    store: &mut [u8],
    values: &mut [u8],
    domain: u64,
    address: u64,
) -> u64
    ensures { told result (slices image.new store.new values.new) ≡ called (slices image.old store.old values.old) domain (OnStore (Read address)) }
{
    let c = Access::Read { address };
    call(image, store, values, domain, Call::OnStore(c))
}

// WR: stores a word at an address.
#[unsafe(no_mangle)]
pub extern "C" fn reshqobi_wr(
    image: &mut [u8],
    store: &mut [u8],
    values: &mut [u8],
    domain: u64,
    address: u64,
    value: u64,
) -> u64
    ensures { told result (slices image.new store.new values.new) ≡ called (slices image.old store.old values.old) domain (OnStore (Write address value)) }
{
    let c = Access::Write { address, value };
    call(image, store, values, domain, Call::OnStore(c))
}

// EX: whether the word at an address may be executed.
#[unsafe(no_mangle)]
pub extern "C" fn reshqobi_ex(
    image: &mut [u8],
    store: &mut [u8],
    values: &mut [u8],
    domain: u64,
    address: u64,
) -> u64
    ensures { told result (slices image.new store.new values.new) ≡ called (slices image.old store.old values.old) domain (OnStore (Execute address)) }
{
    let c = Access::Execute { address };
    call(image, store, values, domain, Call::OnStore(c))
}

// LK: the address of the pair that grants rights at an address.
#[unsafe(no_mangle)]
pub extern "C" fn reshqobi_lk(
    image: &mut [u8],
    store: &mut [u8],
    values: &mut [u8],
    domain: u64,
    address: u64,
    rights: u64,
) -> u64
    ensures { told result (slices image.new store.new values.new) ≡ called (slices image.old store.old values.old) domain (OnStore (Lookup address rights)) }
{
    let c = Access::Lookup { address, rights };
    call(image, store, values, domain, Call::OnStore(c))
}
