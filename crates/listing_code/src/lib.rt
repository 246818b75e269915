// `piece` puts whole lines at the head of a lent buffer as long as there is room for any line, and says where the next
// piece goes on; `event` puts one event's line, and `put` texts and numbers.
#![tactic(auto)]

mod event;
pub mod piece;
mod put;
