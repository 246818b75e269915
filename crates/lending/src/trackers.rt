ghost use Rattle.std.specs.Prelude.{◌≡◌};
ghost use Rattle.sheet.specs.Sheet.{lines_of};
ghost use Rattle.tracker.specs.Tracker.{kept_in};
ghost use Rattle.tracker.specs.Feed.{answer_fed};
ghost use Rattle.tracker.specs.Capture.{capture_fed};
ghost use Rattle.signing.specs.Sign.{sign_off};
ghost use Rattle.signing.specs.Capture.{capture_signed};

use crate::room::{count_of, room_of};
use fields::fields::Fields;
use host::trackers::{feed, feed_capture, read_cell, sign_capture, sign_off};
use refusals::refusal::Fault;
use row::profile::Profile;
use sheet::sheet::Sheet;
use tracker::capture::CaptureFed;
use tracker::feed::AnswerFed;
use tracker::tracker::{Kept, Tracker};

// The byte that a tracker knows of a row and zone.
pub fn read_cell_lent(tracker: Tracker, zone: u8, command: u8) -> Kept
    ensures { result ≡ kept_in tracker zone command }
{
    read_cell(&tracker, zone, command)
}

// Feeds what an answer's frame brings.
pub fn feed_lent(mut tracker: Tracker, fields: Fields, body: &[u8]) -> AnswerFed
    ensures { result ≡ answer_fed tracker fields.zone fields.command fields.answer body.now }
{
    let reading = feed(&mut tracker, fields, body);
    AnswerFed { tracker, reading }
}

// Feeds every answer frame of a whole capture, in order.
pub fn feed_capture_lent(mut tracker: Tracker, capture: &[u8]) -> CaptureFed
    ensures { result ≡ capture_fed tracker capture.now }
{
    let answer = feed_capture(&mut tracker, capture);
    CaptureFed { tracker, answer }
}

// Signs a sheet off by what the tracker knows.
#[tactic(auto, using(crate::proofs::Rooms::brought, signing::proofs::Together::sign_together))]
pub fn sign_off_lent(tracker: Tracker, sheet: Sheet) -> Result<bool, Fault>
    ensures { result ≡ sign_off tracker (lines_of sheet) }
{
    let room = room_of(sheet);
    let count = count_of(sheet);
    sign_off(&tracker, &room[..count])
}

// Signs a sheet off by a capture of answers alone.
#[tactic(auto, using(crate::proofs::Rooms::brought, signing::proofs::Together::capture_together))]
pub fn sign_capture_lent(profile: Profile, sheet: Sheet, capture: &[u8]) -> Result<bool, Fault>
    ensures { result ≡ capture_signed profile (lines_of sheet) capture.now }
{
    let room = room_of(sheet);
    let count = count_of(sheet);
    sign_capture(profile, &room[..count], capture)
}
