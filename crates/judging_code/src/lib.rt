// Judges by `judging`: reading, writing, sheets and cells all ask here.
#![tactic(auto)]

pub mod judge;
