// `known` makes a tracker new and tells what is known, `feed` takes one answer, and `capture` takes every answer frame
// of a whole capture.
#![tactic(auto)]

pub mod capture;
pub mod cell;
pub mod feed;
pub mod known;
