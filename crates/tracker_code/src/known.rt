ghost use Rattle.std.specs.Prelude.{◌≡◌, ◌<◌, Some};
ghost use Rattle.tracker.specs.Cell.{cell_count};
ghost use Rattle.tracker.specs.Computed.{with_told};
ghost use Rattle.tracker.specs.Tracker.{fresh_tracker, is_spoilt, kept_in};

use crate::cell::cell_of;
use judging_code::judge::judge_row;
use row::profile::Profile;
use row::table::Row;
use sheet_code::line::is_sheet_value;
use tracker::cell::CELLS;
use tracker::tracker::{Kept, Tracker};

// The state of a cell that is known; any other is unknown, so that a state is a number and no enum (`Tracker`).
pub const KNOWN: u8 = 1;

// A tracker that knows nothing.
pub fn new_tracker(profile: Profile) -> Tracker
    ensures { result ≡ fresh_tracker profile }
{
    Tracker {
        profile,
        states: [0; CELLS],
        values: [0; CELLS],
    }
}

// Makes a cell known, in place: a tracker that is passed on and given back is copied.
pub(crate) fn make_known(tracker: &mut Tracker, cell: usize, byte: u8)
    requires { cell < cell_count }
    ensures { tracker.new ≡ with_told tracker.old (Some (cell, byte)) }
{
    tracker.states[cell] = KNOWN;
    tracker.values[cell] = byte;
}

// The byte that is known of a row and zone.
#[tactic(auto, unfolding(tracker::specs::Tracker::kept_in), using(tracker::proofs::Cells::stands, tracker::proofs::Cells::within))]
pub fn kept_in(tracker: Tracker, zone: u8, command: u8) -> Kept
    ensures { result ≡ kept_in tracker zone command }
{
    let row = match judge_row(tracker.profile, zone, command) {
        Ok(row) if !row.pair => row,
        _ => return Kept::NoCell,
    };
    let at = cell_of(row, zone);
    let value = tracker.values[at];
    if tracker.states[at] == KNOWN && !is_spoilt(row, value) {
        Kept::Value(value)
    } else {
        Kept::Unknown
    }
}

// Whether a kept byte is no legal value of its sheet row: then it was spoilt.
fn is_spoilt(row: Row, value: u8) -> bool
    ensures { result ≡ is_spoilt row value }
{
    row.sheet && !is_sheet_value(row, value)
}
