use message::read::{Denial, Said};

// What a line shows of a message: what it says and whether it is an answer, or a denial. So commands and statuses are
// put by one call, which the compiler takes in.
#[derive(Clone, Copy, Debug, PartialEq, Eq)]
pub enum Shown {
    Said(Said, bool),
    Denied(Denial),
}
