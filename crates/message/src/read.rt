use crate::content::Content;

// What a command asks for, or a status tells: zone, command, and what the data say.
#[derive(Clone, Copy, Debug, PartialEq, Eq)]
pub struct Said {
    pub zone: u8,
    pub command: u8,
    pub content: Content,
}

// What a unit denied, as it came. Its data stay in the slice that was lent. A type of its own beside `Fields`:
// MessagePromise.denied names it as what a unit denied.
#[derive(Clone, Copy, Debug, PartialEq, Eq)]
pub struct Denial {
    pub zone: u8,
    pub command: u8,
    pub answer: u8,
}

#[derive(Clone, Copy, Debug, PartialEq, Eq)]
pub enum Message {
    Command(Said),
    Status(Said),
    Denied(Denial),
}
