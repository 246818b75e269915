// Makes a typed message of zone, command, answer code and data, or of a frame's bytes, or gives the refusal.
#![tactic(auto)]

pub mod read;
