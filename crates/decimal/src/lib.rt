// Numbers in decimal, written into the rest of a lent buffer from a place; 9 where they have no room, and the buffer is
// as it was.
#![tactic(auto)]

pub mod decimal;
