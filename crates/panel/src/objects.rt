// The calls on objects as C functions: CR, DL, AP, DP and RG.
ghost use Rattle.std.specs.Prelude.{◌≡◌};
ghost use Rattle.calls.specs.declared.Call.TheVariants.{OnObject};
ghost use Rattle.calls.specs.declared.ObjectCall.TheVariants.{Create, Delete, AddPassword, DropPassword, Register};
ghost use Rattle.byte_calls.specs.Called.{slices, told, called};

use byte_calls::call;
use calls::{Call, Entries, ObjectCall, Presented};

// CR: a new object in the caller's estate, charged to an account.
#[unsafe(no_mangle)]
pub extern "C" fn reshqobi_cr(
    image: &mut [u8],
    store: &mut [u8],
    values: &mut [u8],
    domain: u64,
    page: u64,
    pages: u64,
    password: u64,
    account: u64,
) -> u64
    ensures { told result (slices image.new store.new values.new) ≡ called (slices image.old store.old values.old) domain (OnObject (Create page pages password account)) }
{
    let c = ObjectCall::Create {
        page,
        pages,
        password,
        account,
    };
    call(image, store, values, domain, Call::OnObject(c))
}

// DL: the object goes.
#[unsafe(no_mangle)]
pub extern "C" fn reshqobi_dl(
    image: &mut [u8],
    store: &mut [u8],
    values: &mut [u8],
    domain: u64,
    base: u64,
) -> u64
    ensures { told result (slices image.new store.new values.new) ≡ called (slices image.old store.old values.old) domain (OnObject (Delete base)) }
{
    let c = ObjectCall::Delete { base };
    call(image, store, values, domain, Call::OnObject(c))
}

// AP: a password more.
#[unsafe(no_mangle)]
pub extern "C" fn reshqobi_ap(
    image: &mut [u8],
    store: &mut [u8],
    values: &mut [u8],
    domain: u64,
    base: u64,
    password: u64,
    mode: u64,
) -> u64
    ensures { told result (slices image.new store.new values.new) ≡ called (slices image.old store.old values.old) domain (OnObject (AddPassword base password mode)) }
{
    let c = ObjectCall::AddPassword {
        base,
        password,
        mode,
    };
    call(image, store, values, domain, Call::OnObject(c))
}

// DP: a password less, or the registration that has it.
#[unsafe(no_mangle)]
pub extern "C" fn reshqobi_dp(
    image: &mut [u8],
    store: &mut [u8],
    values: &mut [u8],
    domain: u64,
    base: u64,
    password: u64,
) -> u64
    ensures { told result (slices image.new store.new values.new) ≡ called (slices image.old store.old values.old) domain (OnObject (DropPassword base password)) }
{
    let c = ObjectCall::DropPassword { base, password };
    call(image, store, values, domain, Call::OnObject(c))
}

// RG: the object becomes a procedure. Entries past their number are no arguments.
#[unsafe(no_mangle)]
pub extern "C" fn reshqobi_rg(
    image: &mut [u8],
    store: &mut [u8],
    values: &mut [u8],
    domain: u64,
    base: u64,
    password: u64,
    list_page: u64,
    list_password: u64,
    entries: u64,
    entry0: u64,
    entry1: u64,
    entry2: u64,
    entry3: u64,
) -> u64
    ensures { told result (slices image.new store.new values.new) ≡ called (slices image.old store.old values.old) domain (OnObject (Register base password (record { page = list_page; password = list_password }) (record { count = entries; first = entry0; second = entry1; third = entry2; fourth = entry3 }))) }
{
    let c = ObjectCall::Register {
        base,
        password,
        list: Presented {
            page: list_page,
            password: list_password,
        },
        entries: Entries {
            count: entries,
            first: entry0,
            second: entry1,
            third: entry2,
            fourth: entry3,
        },
    };
    call(image, store, values, domain, Call::OnObject(c))
}
