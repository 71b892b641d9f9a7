// The calls, each with the arguments that it takes.
ghost use Rattle.std.specs.Prelude.{ℕ, ◌≡◌};
ghost use Rattle.lines.specs.Reading.{asked};
ghost use Rattle.lines.specs.Grammar.{register_of, call_of};

use crate::Mnemonic;
use calls::{Access, Call, DomainCall, Entries, ObjectCall, Presented};

// RG with n arguments: any number of entries, of which the first four are kept.
fn register(n: usize, x: &[u64; 8]) -> ObjectCall
    ensures { result ≡ register_of n x.now }
{
    let [
        base,
        password,
        page,
        list_password,
        first,
        second,
        third,
        fourth,
    ] = *x;
    ObjectCall::Register {
        base,
        password,
        list: Presented {
            page,
            password: list_password,
        },
        entries: Entries {
            count: n.saturating_sub(4) as u64,
            first,
            second,
            third,
            fourth,
        },
    }
}

// The call of these letters with n arguments, the first eight in x; none where it takes another number of them. RG takes more than eight, so
// the count stands beside them.
#[tactic(auto, unfolding(crate::specs::Grammar::call_of))]
pub fn call_of(mnemonic: Mnemonic, n: usize, x: &[u64; 8]) -> Option<Call>
    ensures { (d : ℕ) → asked d result ≡ call_of d mnemonic n x.now }
{
    let call = match (mnemonic, &x[..n.min(8)]) {
        (Mnemonic::Rd, &[address]) => Call::OnStore(Access::Read { address }),
        (Mnemonic::Wr, &[address, value]) => Call::OnStore(Access::Write { address, value }),
        (Mnemonic::Ex, &[address]) => Call::OnStore(Access::Execute { address }),
        (Mnemonic::Lk, &[address, rights]) => Call::OnStore(Access::Lookup { address, rights }),
        (Mnemonic::Cr, &[page, pages, password, account]) => Call::OnObject(ObjectCall::Create {
            page,
            pages,
            password,
            account,
        }),
        (Mnemonic::Dl, &[base]) => Call::OnObject(ObjectCall::Delete { base }),
        (Mnemonic::Ap, &[base, password, mode]) => Call::OnObject(ObjectCall::AddPassword {
            base,
            password,
            mode,
        }),
        (Mnemonic::Dp, &[base, password]) => Call::OnObject(ObjectCall::DropPassword {
            base,
            password,
        }),
        (Mnemonic::Rg, &[_, _, _, _, ..]) => Call::OnObject(register(n, x)),
        (Mnemonic::In, &[slot, page, password]) => Call::OnDomain(DomainCall::Insert {
            slot,
            list: Presented { page, password },
        }),
        (Mnemonic::Rm, &[slot]) => Call::OnDomain(DomainCall::Remove { slot }),
        (Mnemonic::Gt, &[]) => Call::OnDomain(DomainCall::Get),
        (Mnemonic::Lo, &[slot]) => Call::OnDomain(DomainCall::Lock { slot }),
        (Mnemonic::Ca, &[entry, choice]) => Call::OnDomain(DomainCall::PdxCall { entry, choice }),
        (Mnemonic::Rt, &[]) => Call::OnDomain(DomainCall::PdxReturn),
        _ => return None,
    };
    Some(call)
}
