// What data say in a row, and what data say it.
#![tactic(auto)]

pub mod content;
