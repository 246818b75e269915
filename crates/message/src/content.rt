// What the data of a message say, in the words of document 01.
#[derive(Clone, Copy, Debug, PartialEq, Eq)]
pub enum Content {
    Request,
    Up,
    Down,
    On,
    Off,
    Toggle,
    LevellerOff,
    // a setting or a status with its number, signed where the row is signed
    Number(i16),
    // an input of S 0F, and its state
    Input(u8, bool),
}

// The data that say it: one byte or two.
#[derive(Clone, Copy, Debug, PartialEq, Eq)]
pub enum Encoded {
    One(u8),
    Two(u8, u8),
}
