// Writes messages into the rest of a lent buffer from a place: the checks that reading makes, and then 9.
#![tactic(auto)]

pub mod write;
