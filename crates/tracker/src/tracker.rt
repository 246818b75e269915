use crate::cell::CELLS;
use row::profile::Profile;

// What one unit has answered since its tracker was made new.
#[derive(Clone, Copy, Debug, PartialEq, Eq)]
pub struct Tracker {
    pub profile: Profile,
    // A state and a byte for each cell; no `Option<u8>`, which has no room for a state that the host has spoilt, and
    // any state but 1 is unknown (`KeptPromise.unknown`); two arrays, since `KeptPromise` and
    // `fresh_tracker` name each.
    pub states: [u8; CELLS],
    pub values: [u8; CELLS],
}

// What a tracker keeps of a row and zone: of three states, two of which have no byte, so no `Option`.
#[derive(Clone, Copy, Debug, PartialEq, Eq)]
pub enum Kept {
    Value(u8),
    Unknown,
    NoCell,
}
