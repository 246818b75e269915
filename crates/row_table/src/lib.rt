// Document 01's table of rows, and the two tables by which a command finds its row.
#![tactic(auto)]

pub mod table;
