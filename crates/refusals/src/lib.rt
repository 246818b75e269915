// How refusals are given: each by its name, with its number in the documents (`refusal`). By definitions alone: rules
// in an order, of which the first that applies refuses; and what it is for a contract to admit one answer only.
#![tactic(auto)]

pub mod refusal;
