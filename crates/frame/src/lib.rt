// Frames on the serial line, both directions, out of bytes that come one by one or in parts. `reader` has the house
// rule for one byte; `part` takes several at once; `capture` says what the events and totals of a whole capture are
// (`frame_capture` finds them). A reader keeps no bytes, so that it is small by value: whoever reads keeps them.
#![tactic(auto)]

pub mod capture;
pub mod direction;
pub mod part;
pub mod reader;
