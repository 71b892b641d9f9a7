// The C functions of include/reshqobi.h: each hands its numbers on as a call on the three slices. Their names, their numbers and the three
// slices are the C interface, which is why they are one for each call.
#![tactic(auto)]

ghost use Rattle.std.specs.Prelude.{◌≡◌, [], ◌∷◌};
ghost use Rattle.byte_calls.specs.Called.{slices, told, booted};

use byte_calls::boot_call;

pub mod accesses;
pub mod domains;
pub mod objects;

// BT: the first state and store.
#[unsafe(no_mangle)]
pub extern "C" fn reshqobi_bt(
    image: &mut [u8],
    store: &mut [u8],
    values: &mut [u8],
    domain: u64,
    home0: u64,
    home1: u64,
    home2: u64,
    home3: u64,
    limit0: u64,
    limit1: u64,
    limit2: u64,
    limit3: u64,
    account0: u64,
    set0: u64,
    account1: u64,
    set1: u64,
    account2: u64,
    set2: u64,
    account3: u64,
    set3: u64,
) -> u64
    ensures { told result (slices image.new store.new values.new) ≡ booted (slices image.old store.old values.old) domain (home0 ∷ home1 ∷ home2 ∷ home3 ∷ limit0 ∷ limit1 ∷ limit2 ∷ limit3 ∷ account0 ∷ set0 ∷ account1 ∷ set1 ∷ account2 ∷ set2 ∷ account3 ∷ set3 ∷ []) }
{
    let plan = [
        home0, home1, home2, home3, limit0, limit1, limit2, limit3, account0, set0, account1, set1,
        account2, set2, account3, set3,
    ];
    boot_call(image, store, values, domain, plan)
}
