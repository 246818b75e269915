ghost use Rattle.std.specs.Prelude.{◌≡◌, ◌≤◌, ◌<◌};
ghost use Rattle.row.specs.Table.{row_count};
ghost use Rattle.tracker.specs.Cell.{cell_of};

use row::table::Row;

// The cell of a row and zone, in the table's order.
pub(crate) fn cell_of(row: Row, zone: u8) -> usize
    requires { (row.place < row_count) × (1 ≤ zone) × (zone ≤ 3) }
    ensures { result ≡ cell_of row zone }
{
    row.place * 3 + usize::from(zone) - 1
}
