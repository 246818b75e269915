use crate::line::Line;

// The most lines that a sheet may have.
pub const SHEET_LIMIT: usize = 24;

// The lines of a sheet, by value. A count over the limit stands for any longer sheet, so that a longer list can be
// given by value and refused with 6: past the limit no line is kept.
// An array and a count, and no slice: a sheet by value owns its lines, and nothing here is on a heap.
#[derive(Clone, Copy, Debug, PartialEq, Eq)]
pub struct Sheet {
    pub count: usize,
    pub lines: [Line; SHEET_LIMIT],
}
