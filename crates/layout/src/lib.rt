// The layout of the state's image: how many bytes each part takes and where it begins, a state and words in a slice of bytes of any
// length, and, for the crate alone, each part of a state at a place.
#![tactic(auto)]

mod accounts;
mod frames;
mod objects;
mod parts;
pub mod sizes;
pub mod states;
pub mod words;
