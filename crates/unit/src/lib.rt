#![tactic(auto)]

// What a unit does with the bytes that are sent to it, as definitions alone: a command reader, settings, and the house rules
// where the pages are silent. Demand 3, that a pulled plug never leaves a wrong setting, is stated and proved of it.
