// The doors over what a host keeps itself, and lends: lists of lines (`sheets`), and trackers (`trackers`). Each calls
// one function by value of the crates below, which has the same contract, so that nothing is decided here.
#![tactic(auto)]

pub mod sheets;
pub mod trackers;
