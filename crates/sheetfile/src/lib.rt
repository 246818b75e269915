// A sheet as bytes: what it is written as (`write`). By definitions alone: its file, its run, and what reading and
// writing them answer. `sheetfile_code` has the code.
#![tactic(auto)]

pub mod write;
