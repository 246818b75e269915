use row::table::ROW_COUNT;

// As many cells as a tracker has: three to each row.
pub const CELLS: usize = ROW_COUNT * 3;
