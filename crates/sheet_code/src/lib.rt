// `line` says which line is legal, `lines` keeps a sheet's lines by value, and `check` accepts a sheet or finds its
// lowest fault: 6, then 7 and 8 with the line's index.
#![tactic(auto)]

pub mod check;
pub mod line;
pub mod lines;
