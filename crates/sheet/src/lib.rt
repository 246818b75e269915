// Sheets of wanted settings: a line (`line`), and a sheet's lines by value (`sheet`). `sheet_code` has the code.
#![tactic(auto)]

pub mod line;
pub mod sheet;
