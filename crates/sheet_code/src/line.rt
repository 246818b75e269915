ghost use Rattle.std.specs.Prelude.{◌≡◌};
ghost use Rattle.sheet.specs.Line.{is_sheet_value, is_legal, same_cell};

use judging_code::judge::{is_setting, judge_row};
use row::profile::Profile;
use row::signed::is_minus_zero;
use row::table::Row;
use sheet::line::Line;

// Whether a line is legal for a sheet: a zone of the profile and the row, a sheet row, one of its setting codes
// but not minus zero.
#[tactic(auto, unfolding(sheet::specs::Line::is_legal))]
pub fn is_legal(profile: Profile, line: Line) -> bool
    ensures { result ≡ is_legal profile line }
{
    judge_row(profile, line.zone, line.command).is_ok_and(|row| is_sheet_value(row, line.value))
}

// Whether a value is one that a sheet may set in a row.
pub fn is_sheet_value(row: Row, value: u8) -> bool
    ensures { result ≡ is_sheet_value row value }
{
    row.sheet && !is_minus_zero(row, value) && is_setting(row, value)
}

// Whether two lines have the same zone and row; the value is not compared.
pub(crate) fn is_same_cell(a: Line, b: Line) -> bool
    ensures { result ≡ same_cell a b }
{
    a.zone == b.zone && a.command == b.command
}
