// Whole captures: from event to event, jumping over data, and how many bytes are of each kind.
#![tactic(auto)]

pub mod capture;
