// `sign` holds a sheet's lines against what a tracker knows; `capture` does so with a tracker of its own, fed with one
// capture alone; `by_letter` takes a profile's letter and a sheet file's bytes instead of lines.
#![tactic(auto)]

pub mod by_letter;
pub mod capture;
pub mod sign;
