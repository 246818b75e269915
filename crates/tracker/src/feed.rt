use crate::tracker::Tracker;
use message::read::Message;
use refusals::refusal::Refusal;

// A tracker once it was fed, and what was fed: the message, or the refusal, with which the tracker is as it was. It
// stands beside the reading and not in it: what it is after a refusal is promised too (`FeedPromise.refused`).
#[derive(Clone, Copy, Debug, PartialEq, Eq)]
pub struct AnswerFed {
    pub tracker: Tracker,
    pub reading: Result<Message, Refusal>,
}
