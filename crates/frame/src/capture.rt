// What the bytes of a stretch of a capture are.
#[derive(Clone, Copy, Debug, PartialEq, Eq)]
pub enum Kind {
    Frame,
    Broken,
    Noise,
    Pending,
}

// A stretch of a capture: where it starts, how many bytes it has, and what they are.
#[derive(Clone, Copy, Debug, PartialEq, Eq)]
pub struct Event {
    pub at: usize,
    pub length: usize,
    pub kind: Kind,
}

// How many bytes of a capture are of each kind.
#[derive(Clone, Copy, Debug, Default, PartialEq, Eq)]
pub struct Totals {
    pub frame: usize,
    pub broken: usize,
    pub noise: usize,
    pub pending: usize,
}
