// The calls on the caller's domain as C functions: IN, RM, GT, LO, CA and RT.
ghost use Rattle.std.specs.Prelude.{◌≡◌};
ghost use Rattle.calls.specs.declared.Call.TheVariants.{OnDomain};
ghost use Rattle.calls.specs.declared.DomainCall.TheVariants.{Insert, Remove, Get, Lock, PdxCall, PdxReturn};
ghost use Rattle.byte_calls.specs.Called.{slices, told, called};

use byte_calls::call;
use calls::{Call, DomainCall, Presented};

// IN: a Clist capability becomes a slot.
#[unsafe(no_mangle)]
pub extern "C" fn reshqobi_in(
    image: &mut [u8],
    store: &mut [u8],
    values: &mut [u8],
    domain: u64,
    slot: u64,
    page: u64,
    password: u64,
) -> u64
    ensures { told result (slices image.new store.new values.new) ≡ called (slices image.old store.old values.old) domain (OnDomain (Insert slot (record { page = page; password = password }))) }
{
    let c = DomainCall::Insert {
        slot,
        list: Presented { page, password },
    };
    call(image, store, values, domain, Call::OnDomain(c))
}

// RM: the slot goes.
#[unsafe(no_mangle)]
pub extern "C" fn reshqobi_rm(
    image: &mut [u8],
    store: &mut [u8],
    values: &mut [u8],
    domain: u64,
    slot: u64,
) -> u64
    ensures { told result (slices image.new store.new values.new) ≡ called (slices image.old store.old values.old) domain (OnDomain (Remove slot)) }
{
    let c = DomainCall::Remove { slot };
    call(image, store, values, domain, Call::OnDomain(c))
}

// GT: the number of slots, the locks, and the slots' pages.
#[unsafe(no_mangle)]
pub extern "C" fn reshqobi_gt(
    image: &mut [u8],
    store: &mut [u8],
    values: &mut [u8],
    domain: u64,
) -> u64
    ensures { told result (slices image.new store.new values.new) ≡ called (slices image.old store.old values.old) domain (OnDomain Get) }
{
    let c = DomainCall::Get;
    call(image, store, values, domain, Call::OnDomain(c))
}

// LO: locks the slot and all before it, or the whole domain by 255.
#[unsafe(no_mangle)]
pub extern "C" fn reshqobi_lo(
    image: &mut [u8],
    store: &mut [u8],
    values: &mut [u8],
    domain: u64,
    slot: u64,
) -> u64
    ensures { told result (slices image.new store.new values.new) ≡ called (slices image.old store.old values.old) domain (OnDomain (Lock slot)) }
{
    let c = DomainCall::Lock { slot };
    call(image, store, values, domain, Call::OnDomain(c))
}

// CA: enters a procedure.
#[unsafe(no_mangle)]
pub extern "C" fn reshqobi_ca(
    image: &mut [u8],
    store: &mut [u8],
    values: &mut [u8],
    domain: u64,
    entry: u64,
    choice: u64,
) -> u64
    ensures { told result (slices image.new store.new values.new) ≡ called (slices image.old store.old values.old) domain (OnDomain (PdxCall entry choice)) }
{
    let c = DomainCall::PdxCall { entry, choice };
    call(image, store, values, domain, Call::OnDomain(c))
}

// RT: the domain saved last comes back.
#[unsafe(no_mangle)]
pub extern "C" fn reshqobi_rt(
    image: &mut [u8],
    store: &mut [u8],
    values: &mut [u8],
    domain: u64,
) -> u64
    ensures { told result (slices image.new store.new values.new) ≡ called (slices image.old store.old values.old) domain (OnDomain PdxReturn) }
{
    let c = DomainCall::PdxReturn;
    call(image, store, values, domain, Call::OnDomain(c))
}
