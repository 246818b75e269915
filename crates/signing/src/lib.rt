// The sign-off of a sheet: what a sheet file that is held against a capture gives with it (`by_letter`). `signing_code`
// has the code.
#![tactic(auto)]

pub mod by_letter;
