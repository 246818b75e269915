// Bytes in what a caller lends. They are written into the rest of a buffer from a place, all of them or none: where
// they have no room the answer is 9, and the buffer is as it was. A part of a slice is lent on, never copied.
#![tactic(auto)]

pub mod part;
pub mod written;
