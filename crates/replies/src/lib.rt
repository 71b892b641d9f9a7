// A line of the call program, answered into a lent buffer: what it asks for, and how each kind of line but a call on the caller's domain is
// answered.
#![tactic(auto)]

use calls::{Access, Altered, DomainCall, ObjectCall, Refusal};
use state::State;

pub mod boots;
pub mod kinds;

// What a line asks for, by what it may change: nothing, for its answer is known (the paper's number, as it is printed); words; an estate and
// words; the caller's domain; all.
#[derive(Clone, Copy)]
pub enum Kind {
    Known(u64),
    Access(usize, Access),
    Object(usize, ObjectCall),
    Domain(usize, DomainCall),
    Boot(u64),
}

// Behind a call on objects: the estate that it changed, or why it is refused, and the end of the text.
#[derive(Clone, Copy)]
pub struct ObjectReply {
    pub altered: Result<Altered, Refusal>,
    pub at: usize,
}

// Behind a boot: the state, and the end of the text.
#[derive(Clone, Copy)]
pub struct NewState {
    pub state: State,
    pub at: usize,
}
