// Codes from low to high; none where low is above high, as in any range, so that one test (the definition within)
// reads all four of a row. No RangeInclusive, which is an iterator and is not Copy.
#[derive(Clone, Copy, Debug, PartialEq, Eq)]
pub struct Codes {
    pub low: u8,
    pub high: u8,
}

// A row of document 01's table: what a command may hold, and what an answer may. Its fields are the marks of that
// table as specs/Table.antt has them: the profile by its letter, and a flag for each mark.
#[derive(Clone, Copy, Debug, PartialEq, Eq)]
pub struct Row {
    // its place in the table, from 0
    pub place: usize,
    // the profile's letter
    pub profile: u8,
    pub code: u8,
    // the row's zones are 1 to this
    pub zones: u8,
    // the codes that a command sets; none in a pair row
    pub settings: Codes,
    pub settings2: Codes,
    // the codes that an answer holds; in a pair row, the inputs
    pub answers: Codes,
    pub answers2: Codes,
    // F0 requests
    pub request: bool,
    // F1 steps up and F2 steps down
    pub steps: bool,
    // F1 is on and F2 off
    pub switch: bool,
    // 02 toggles
    pub toggle: bool,
    // the data are an input and 00 or 01
    pub pair: bool,
    // codes mean signed numbers
    pub signed: bool,
    // FF is off
    pub off: bool,
    // a sheet may set it
    pub sheet: bool,
}

// How many rows the table has.
pub const ROW_COUNT: usize = 19;
