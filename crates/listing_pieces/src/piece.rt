// Where a listing goes on: at its start, with the events from a place of the capture on, or nowhere: three, so no `Option`.
#[derive(Clone, Copy, Debug, PartialEq, Eq)]
pub enum Place {
    Start,
    Event(usize),
    End,
}

// A piece of the listing: how many bytes it has, and where the next goes on.
#[derive(Clone, Copy, Debug, PartialEq, Eq)]
pub struct Piece {
    pub length: usize,
    pub next: Place,
}
