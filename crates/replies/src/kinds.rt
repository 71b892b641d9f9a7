// What a line asks for; and an access, and a call on objects, answered from the parts of the state that they read.
ghost use Rattle.std.specs.Prelude.{◌≡◌, Ok};
ghost use Rattle.calls.specs.Parts.{caller_of};
ghost use Rattle.replies.specs.Kinds.{call_kind, kind_of, AccessTold, ObjectTold};

use crate::{Kind, ObjectReply};
use access_calls::access;
use apply::object_call;
use calls::{Access, Call, ObjectCall, caller_of};
use lines::Line;
use state::{Accounts, Frame, Table};
use text::{answer_number, answer_value, put_line};

// A call of a domain that is known.
fn known_kind(d: usize, call: Call) -> Kind
    ensures { result ≡ call_kind (Ok d) call }
{
    match call {
        Call::OnStore(c) => Kind::Access(d, c),
        Call::OnObject(c) => Kind::Object(d, c),
        Call::OnDomain(c) => Kind::Domain(d, c),
    }
}

// A call; refused by 2 or 4 where its caller is not known.
fn call_kind(d: u64, call: Call, words: usize) -> Kind
    ensures { result ≡ call_kind (caller_of words d) call }
{
    match caller_of(words, d) {
        Ok(k) => known_kind(k, call),
        Err(why) => Kind::Known(u64::from(why)),
    }
}

// A line, with a store of so many words; 1 answers one that is not readable.
pub fn kind_of(words: usize, reading: Option<Line>) -> Kind
    ensures { result ≡ kind_of words reading }
{
    match reading {
        None => Kind::Known(1),
        Some(Line::Boot { domain }) => Kind::Boot(domain),
        Some(Line::Call { domain, call }) => call_kind(domain, call, words),
    }
}

// An access, answered at `at`: where the text ends. Number, buffer and place apart, as `put_line` takes them.
pub fn access_line(
    t: Table,
    store: &mut [u64],
    f: Frame,
    call: Access,
    number: u64,
    out: &mut [u8],
    at: usize,
) -> usize
    ensures { AccessTold t f call number store.old store.new out.old at out.new result }
{
    let a = access(t, store, f, call);
    put_line(out, at, number, answer_number(a), &[answer_value(a)])
}

// A call on objects by domain d, answered at `at`.
pub fn object_line(
    t: Table,
    x: Accounts,
    store: &mut [u64],
    d: usize,
    f: Frame,
    call: ObjectCall,
    number: u64,
    out: &mut [u8],
    at: usize,
) -> ObjectReply
    ensures { ObjectTold t x d f call number store.old store.new out.old at out.new result }
{
    let altered = object_call(t, x, store, d as u64, f, call);
    let answer = answer_number(altered.map(|_| 0));
    let at = put_line(out, at, number, answer, &[0]);
    ObjectReply { altered, at }
}
