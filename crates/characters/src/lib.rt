// Characters, and numbers as text. They know no receiver: which bytes are capitals and digits, what a hex digit counts,
// and the two hex digits of a byte, written into the rest of a lent buffer from a place (`decimal` does so with decimal
// digits). Where they have no room the answer is 9, and the buffer is as it was.
#![tactic(auto)]

pub mod class;
pub mod hex;
