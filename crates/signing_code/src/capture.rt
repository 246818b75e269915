ghost use Rattle.std.specs.Prelude.{◌≡◌, [], ◌∷◌, length, Err, Ok};
ghost use Rattle.refusals.specs.Rule.{ruled};
ghost use Rattle.frame.specs.Capture.{long_capture};
ghost use Rattle.sheet.specs.Sheet.{lines_of};
ghost use Rattle.tracker.specs.Capture.{tracked_by};
ghost use Rattle.signing.specs.Capture.{capture_signed};

use crate::sign::sign_sheet;
use refusals::refusal::{Fault, Refusal};
use row::profile::Profile;
use sheet::sheet::Sheet;
use tracker::tracker::Tracker;
use tracker_code::capture::after_capture;
use tracker_code::known::new_tracker;

// Signs a sheet off by a capture alone, with a tracker of its own: 11 first, then the sheet's refusal,
// then yes or no.
pub fn capture_signs(profile: Profile, sheet: Sheet, capture: &[u8]) -> Result<bool, Fault>
    ensures { result ≡ capture_signed profile (lines_of sheet) capture.now }
{
    sign_sheet(fed_with(profile, capture)?, sheet)
}

// A tracker made new and fed one capture; 11 for a capture over the limit.
pub(crate) fn fed_with(profile: Profile, capture: &[u8]) -> Result<Tracker, Refusal>
    ensures { result ≡ ruled (long_capture (length capture.now) ∷ []) Err (Ok (tracked_by profile capture.now)) }
{
    let fed = after_capture(new_tracker(profile), capture);
    fed.answer?;
    Ok(fed.tracker)
}
