ghost use Rattle.std.specs.Prelude.{◌≡◌, ◌+◌, ◌<◌, ◌≤◌, ◌^◌, length};
ghost use Rattle.frame.specs.Letter.{direction_of};
ghost use Rattle.frame.specs.Capture.{events_from, first_of, totals_of, counted_of, counted_by};
ghost use Rattle.frame.specs.Computed.{stretch_at, with_event, with_noise};

use frame::capture::{Event, Kind, Totals};
use frame::direction::Direction;
use frame::reader::Reader;
use refusals::refusal::Refusal;

// The longest capture whose bytes are counted. Three crates test it, each before its own work; the test is one
// comparison, and a function for it would be no shorter.
pub const CAPTURE_LIMIT: usize = 60000;

// The first event that a fresh reader makes of the bytes from a place on. Begin at 0 and go on at
// each event's end: these are the capture's events. No length is refused here.
#[tactic(auto, using(frame::proofs::Header::header_most, frame::proofs::Header::header_least, frame::proofs::Events::events_end, frame::proofs::Events::events_here))]
pub fn next_event(direction: Direction, capture: &[u8], at: usize) -> Option<Event>
    ensures { result ≡ first_of (events_from direction capture.now at) }
{
    if at < capture.len() {
        Some(stretch(usize::from(Reader::header(direction)), capture, at))
    } else {
        None
    }
}

// The four totals of a capture; 11 for one over 60,000 bytes.
pub fn capture_totals(direction: Direction, capture: &[u8]) -> Result<Totals, Refusal>
    ensures { result ≡ counted_of direction capture.now }
{
    if capture.len() <= CAPTURE_LIMIT {
        Ok(count_events(direction, capture))
    } else {
        Err(Refusal::TooLong)
    }
}

// The same by the direction's letter; 12 for a letter that names none, before 11.
pub fn capture_totals_by_letter(letter: u8, capture: &[u8]) -> Result<Totals, Refusal>
    ensures { result ≡ counted_by (direction_of letter) capture.now }
{
    capture_totals(Direction::try_from(letter)?, capture)
}

// The totals, event by event. Noise is passed over at once: it is what is left.
#[tactic(auto, using(frame::proofs::Header::header_most, frame::proofs::Header::header_least, frame::proofs::Events::Within, frame::proofs::Events::stretch_within, frame::proofs::Totals::totals_from, frame::proofs::Totals::totals_more, frame::proofs::Totals::totals_end, frame::proofs::Totals::totals_whole, frame::proofs::Totals::sum, frame::proofs::Totals::sum_more, frame::proofs::Totals::noisy, frame::proofs::Totals::noisy_event, frame::proofs::Totals::noisy_all, frame::proofs::Totals::noise_here))]
fn count_events(direction: Direction, capture: &[u8]) -> Totals
    ensures { result ≡ totals_of direction capture.now }
{
    let header = usize::from(Reader::header(direction));
    let mut totals = Totals::default();
    let mut at = 0;
    // a `while`, since the place goes on by whole stretches, as no iterator of a slice does
    while at < capture.len() {
        if capture[at] != Reader::OPENS {
            at += 1;
            continue;
        }
        let event = stretch(header, capture, at);
        totals = add_event(totals, event);
        at += event.length;
    }
    with_noise(totals, capture.len())
}

// The totals of so many bytes, of which those in no other total are noise.
fn with_noise(totals: Totals, count: usize) -> Totals
    requires { totals.frame + totals.broken + totals.pending ≤ count }
    ensures { result ≡ with_noise totals count }
{
    Totals {
        noise: count - totals.frame - totals.broken - totals.pending,
        ..totals
    }
}

// The totals with the bytes of one event more.
fn add_event(mut totals: Totals, event: Event) -> Totals
    requires { totals.frame + totals.broken + totals.noise + totals.pending + event.length < 2 ^ 64 }
    ensures { result ≡ with_event totals event.length event.kind }
{
    match event.kind {
        Kind::Frame => totals.frame += event.length,
        Kind::Broken => totals.broken += event.length,
        Kind::Noise => totals.noise += event.length,
        Kind::Pending => totals.pending += event.length,
    }
    totals
}

// The stretch that starts at a place, over the header's length. It jumps over the data: no value
// there ends or opens anything.
#[tactic(auto, unfolding(frame::specs::Computed::stretch_at))]
fn stretch(header: usize, capture: &[u8], at: usize) -> Event
    requires { (0 < header) × (header ≤ 5) × (at < length capture.now) }
    ensures { result ≡ stretch_at header capture.now at }
{
    let pending = Event {
        at,
        length: capture.len() - at,
        kind: Kind::Pending,
    };
    if capture[at] != Reader::OPENS {
        return Event {
            at,
            length: 1,
            kind: Kind::Noise,
        };
    }
    let Some(&dl) = capture.get(at + (header - 1)) else {
        return pending;
    };
    let end = header + usize::from(dl);
    let (length, kind) = match capture.get(at + end) {
        None => return pending,
        Some(&Reader::ENDS) => (end + 1, Kind::Frame),
        Some(&Reader::OPENS) => (end, Kind::Broken),
        Some(_) => (end + 1, Kind::Broken),
    };
    Event { at, length, kind }
}
