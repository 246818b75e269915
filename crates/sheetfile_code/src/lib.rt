// `file` reads a sheet file; `write` writes a sheet's file, or the run that sets it, all of it or nothing; `by_letter`
// does all of this for whoever has a profile's letter and a file's bytes, and no lines.
#![tactic(auto)]

pub mod by_letter;
pub mod file;
pub mod write;
