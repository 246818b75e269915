ghost use Rattle.std.specs.Prelude.{◌≡◌, ◌≤◌};
ghost use Rattle.sheet.specs.Sheet.{sheet_limit, lines_of};
ghost use Rattle.signing.specs.Sign.{holds, all_hold, sign_off};

use refusals::refusal::Fault;
use sheet::line::Line;
use sheet::sheet::Sheet;
use sheet_code::check::checked;
use tracker::tracker::{Kept, Tracker};
use tracker_code::known::kept_in;

// The sheet's refusal under the tracker's own profile; else yes exactly when every line's cell is known
// and equal.
#[tactic(auto, using(sheet::proofs::Sheets::accepted_short))]
pub fn sign_sheet(tracker: Tracker, sheet: Sheet) -> Result<bool, Fault>
    ensures { result ≡ sign_off tracker (lines_of sheet) }
{
    checked(tracker.profile, sheet)?;
    Ok(sheet_holds(tracker, sheet))
}

// Whether each line of a sheet has its cell known and equal.
#[tactic(auto, using(sheet::proofs::Faults::first_short))]
pub(crate) fn sheet_holds(tracker: Tracker, sheet: Sheet) -> bool
    requires { sheet.count ≤ sheet_limit }
    ensures { result ≡ all_hold tracker (lines_of sheet) }
{
    all_hold(tracker, &sheet.lines[..sheet.count])
}

#[tactic(auto, unfolding(signing::specs::Sign::all_hold))]
fn all_hold(tracker: Tracker, lines: &[Line]) -> bool
    ensures { result ≡ all_hold tracker lines.now }
{
    lines.iter().all(|&line| holds(tracker, line))
}

// Whether a line's cell is known and equal.
fn holds(tracker: Tracker, line: Line) -> bool
    ensures { result ≡ holds tracker line }
{
    match kept_in(tracker, line.zone, line.command) {
        Kept::Value(value) => value == line.value,
        Kept::Unknown | Kept::NoCell => false,
    }
}
