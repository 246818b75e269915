// What a unit has answered since its tracker was made new: one byte or unknown for each row and zone. A tracker is made
// for one unit and never filled from a store: that a sign-off speaks of one unit's answers rests on it. `tracker_code`
// has the code.
#![tactic(auto)]

pub mod capture;
pub mod cell;
pub mod feed;
pub mod tracker;
