// A frame's zone, command, answer code and data. `fields` finds them in the bytes of one whole frame, the data as a
// part of what is lent; `raw` writes them as a frame of any zone, command and answer code, with only 3 and 9.
#![tactic(auto)]

pub mod fields;
pub mod raw;
