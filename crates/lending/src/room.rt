ghost use Rattle.std.specs.Prelude.{◌≡◌, ◌≤◌};
ghost use Rattle.lending.specs.Room.{room_limit, room_of, count_of};

use sheet::line::Line;
use sheet::sheet::{SHEET_LIMIT, Sheet};

// Room for the longest list that is lent: one line more than a sheet may have.
pub(crate) const ROOM: usize = SHEET_LIMIT + 1;

// The lines of a sheet, and behind them one of zeros.
// Each of the five doors lends `&room[..count]` for itself: one function for all of them would take the door as a
// closure, and of a closure that has the buffer its caller learns the result alone, and not what was written.
#[tactic(auto, unfolding(crate::specs::Room::room_of))]
pub(crate) fn room_of(sheet: Sheet) -> [Line; ROOM]
    ensures { result ≡ room_of sheet }
{
    let mut room = [Line::default(); ROOM];
    room[..SHEET_LIMIT].copy_from_slice(&sheet.lines);
    room
}

// How many of them are lent: any longer sheet counts as one line too long.
#[tactic(auto, unfolding(crate::specs::Room::count_of))]
pub(crate) fn count_of(sheet: Sheet) -> usize
    ensures counts { result ≡ count_of sheet }
    ensures within { result ≤ room_limit }
{
    sheet.count.min(ROOM)
}
