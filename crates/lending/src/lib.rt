// Thin functions by value over the doors of `host`: each keeps what it is given in a local, lends it to one door, and
// gives back what is left, so that a program that lends nothing itself may call the doors.
#![tactic(auto)]

mod room;
pub mod sheets;
pub mod trackers;
