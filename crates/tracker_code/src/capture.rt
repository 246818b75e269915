ghost use Rattle.std.specs.Prelude.{◌≡◌};
ghost use Rattle.tracker.specs.Feed.{answers_fed};
ghost use Rattle.tracker.specs.Capture.{brought_by, capture_fed};
ghost use Rattle.tracker.specs.Computed.{told_of, told_at};

use crate::feed::told_by;
use crate::known::make_known;
use fields::fields::{frame_data, frame_fields};
use frame::capture::{Event, Kind};
use frame::direction::Direction;
use frame_capture::capture::{CAPTURE_LIMIT, next_event};
use lent::part::bytes_at;
use refusals::refusal::Refusal;
use row::profile::Profile;
use tracker::capture::CaptureFed;
use tracker::tracker::Tracker;

// Feeds every answer frame of a capture, in order; noise, broken and pending bytes and refused frames
// change nothing. 11 for a capture over 60,000 bytes, and then the tracker is as it was.
pub fn after_capture(tracker: Tracker, capture: &[u8]) -> CaptureFed
    ensures { result ≡ capture_fed tracker capture.now }
{
    if capture.len() > CAPTURE_LIMIT {
        return CaptureFed {
            tracker,
            answer: Err(Refusal::TooLong),
        };
    }
    CaptureFed {
        tracker: feed_events(tracker, capture),
        answer: Ok(()),
    }
}

// The events of a capture, one after another. A `while`: the place goes on by whole events. The tracker stays in this
// function's own local, and each event answers with a cell and its byte: a tracker that is passed on and given back is
// copied for every event.
#[tactic(auto, using(tracker::proofs::Captures::event_some, tracker::proofs::Captures::event_inside, tracker::proofs::Captures::feeds_end, tracker::proofs::Tells::inside_at))]
fn feed_events(tracker: Tracker, capture: &[u8]) -> Tracker
    ensures { result ≡ answers_fed tracker (brought_by capture.now) }
{
    let profile = tracker.profile;
    let mut next = tracker;
    let mut at = 0;
    while let Some(event) = next_event(Direction::Answer, capture, at) {
        at += event.length;
        if let Some((cell, byte)) = told_at(profile, capture, event) {
            make_known(&mut next, cell, byte);
        }
    }
    next
}

// What an event makes known: a frame does; any other is nothing.
fn told_at(profile: Profile, capture: &[u8], event: Event) -> Option<(usize, u8)>
    ensures { result ≡ told_at profile capture.now event }
{
    match event.kind {
        Kind::Frame => told_of(profile, bytes_at(capture, event.at, event.length)),
        Kind::Broken | Kind::Noise | Kind::Pending => None,
    }
}

// What the bytes of a frame make known.
fn told_of(profile: Profile, bytes: &[u8]) -> Option<(usize, u8)>
    ensures { result ≡ told_of profile bytes.now }
{
    let fields = frame_fields(Direction::Answer, bytes)?;
    told_by(profile, fields, frame_data(Direction::Answer, bytes))
}
