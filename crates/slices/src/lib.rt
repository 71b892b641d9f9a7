// The store and the values of a C call as slices of bytes: their lengths, the values written, a refusal.
#![tactic(auto)]

pub mod lengths;
pub mod values;
