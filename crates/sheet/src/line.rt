// A line of a sheet: the value that a row is to have in a zone.
#[derive(Clone, Copy, Debug, Default, PartialEq, Eq)]
pub struct Line {
    pub zone: u8,
    pub command: u8,
    pub value: u8,
}
