// What the calls change, part by part: a frame, a domain, an object, an estate.
#![tactic(auto)]

pub mod domains;
pub mod estates;
pub mod frames;
pub mod objects;
