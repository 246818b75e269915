ghost use Rattle.std.specs.Prelude.{◌≡◌};
ghost use Rattle.sheet.specs.Sheet.{no_lines, with_line};

use sheet::line::Line;
use sheet::sheet::{SHEET_LIMIT, Sheet};

// A sheet of no lines.
pub fn no_lines() -> Sheet
    ensures { result ≡ no_lines }
{
    Sheet {
        count: 0,
        lines: [Line::default(); SHEET_LIMIT],
    }
}

// The sheet with one line more; past the limit no line is kept, and the count stands at one more than the limit.
#[tactic(auto, unfolding(sheet::specs::Sheet::with_line))]
pub fn with_line(sheet: Sheet, line: Line) -> Sheet
    ensures { result ≡ with_line sheet line }
{
    let mut next = sheet;
    if SHEET_LIMIT <= sheet.count {
        next.count = SHEET_LIMIT + 1;
    } else {
        next.lines[sheet.count] = line;
        next.count += 1;
    }
    next
}
