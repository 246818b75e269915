ghost use Rattle.std.specs.Prelude.{◌≡◌};
ghost use Rattle.tracker.specs.Tracker.{kept_in};
ghost use Rattle.tracker.specs.Feed.{answer_fed};
ghost use Rattle.tracker.specs.Capture.{capture_fed};
ghost use Rattle.signing.specs.Sign.{sign_off};
ghost use Rattle.signing.specs.Capture.{capture_signed};

use crate::sheets::with_lines;
use fields::fields::Fields;
use message::read::Message;
use refusals::refusal::{Fault, Refusal};
use row::profile::Profile;
use sheet::line::Line;
use sheet_code::lines::no_lines;
use signing_code::capture::capture_signs;
use signing_code::sign::sign_sheet;
use tracker::tracker::{Kept, Tracker};
use tracker_code::capture::after_capture;
use tracker_code::feed::after_answer;
use tracker_code::known::kept_in;

// The byte that a tracker knows of a row and zone.
pub fn read_cell(tracker: &Tracker, zone: u8, command: u8) -> Kept
    ensures { result ≡ kept_in tracker.now zone command }
{
    kept_in(*tracker, zone, command)
}

// Feeds what an answer's frame brings to the tracker where the host keeps it: a status answer makes its one cell
// known. It gives the message, or the refusal, and then the tracker is as it was.
pub fn feed(tracker: &mut Tracker, fields: Fields, body: &[u8]) -> Result<Message, Refusal>
    ensures answers { result ≡ (answer_fed tracker.old fields.zone fields.command fields.answer body.now).reading }
    ensures leaves { tracker.new ≡ (answer_fed tracker.old fields.zone fields.command fields.answer body.now).tracker }
{
    let fed = after_answer(*tracker, fields, body);
    *tracker = fed.tracker;
    fed.reading
}

// Feeds every answer frame of a whole capture, in order; 11 for a capture over 60,000 bytes, and then the tracker is
// as it was. A frame that is cut between two captures is fed by neither.
pub fn feed_capture(tracker: &mut Tracker, capture: &[u8]) -> Result<(), Refusal>
    ensures answers { result ≡ (capture_fed tracker.old capture.now).answer }
    ensures leaves { tracker.new ≡ (capture_fed tracker.old capture.now).tracker }
{
    let fed = after_capture(*tracker, capture);
    *tracker = fed.tracker;
    fed.answer
}

// Signs a sheet off by what the tracker knows: the sheet's refusal under the tracker's own profile, or yes exactly when
// every line's cell is known and equal, or no.
#[tactic(auto, using(signing::proofs::Together::sign_together))]
pub fn sign_off(tracker: &Tracker, lines: &[Line]) -> Result<bool, Fault>
    ensures { result ≡ sign_off tracker.now lines.now }
{
    sign_sheet(*tracker, with_lines(lines, no_lines()))
}

// Signs a sheet off by a capture of answers alone: 11, then the sheet's refusal, then yes or no.
#[tactic(auto, using(signing::proofs::Together::capture_together))]
pub fn sign_capture(profile: Profile, lines: &[Line], capture: &[u8]) -> Result<bool, Fault>
    ensures { result ≡ capture_signed profile lines.now capture.now }
{
    capture_signs(profile, with_lines(lines, no_lines()), capture)
}
