#![tactic(auto)]

// Lists, as definitions alone: what holds of each element, and the bytes of elements one after the other. They know no
// receiver: the crates above say by them what is said of each line, each record, each answer and each event.
