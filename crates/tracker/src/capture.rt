use crate::tracker::Tracker;
use refusals::refusal::Refusal;

// A tracker once a capture was fed, and whether it was: with a refusal it is as it was. It stands beside the answer and
// not in it: what it is after a refusal is promised too (`CaptureFedPromise.long`).
#[derive(Clone, Copy, Debug, PartialEq, Eq)]
pub struct CaptureFed {
    pub tracker: Tracker,
    pub answer: Result<(), Refusal>,
}
