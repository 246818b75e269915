// The rows of the two profiles. `profile` names the receiver families and their zones, `table` says what a row is
// (`row_table` finds it), and `signed` goes from a code to the number it means and back, and says where 80 is minus
// zero.
#![tactic(auto)]

pub mod profile;
pub mod signed;
pub mod table;
