// What a row allows, by definitions alone: which zone, command and data make a legal message, and the refusal of any
// other, 1 to 4 in document 01's order, or 13 at 4's place. Reading, writing, sheets and cells all go by it, so a rule
// of rows is said once. `judging_code` judges.
#![tactic(auto)]
