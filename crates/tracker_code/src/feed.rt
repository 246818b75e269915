ghost use Rattle.std.specs.Prelude.{◌≡◌};
ghost use Rattle.judging.specs.Judge.{row_judged};
ghost use Rattle.row.specs.MinusZero.{normal};
ghost use Rattle.tracker.specs.Feed.{answer_fed};
ghost use Rattle.tracker.specs.Computed.{told_in, told_by, with_told, Inside};

use crate::cell::cell_of;
use crate::known::make_known;
use fields::fields::Fields;
use frame::direction::Direction;
use judging_code::judge::{is_answer, judge_row};
use message_read::read::read_message;
use row::profile::Profile;
use row::signed::is_minus_zero;
use row::table::Row;
use tracker::feed::AnswerFed;
use tracker::tracker::Tracker;

// Feeds what an answer's frame brings, read under the tracker's own profile.
#[tactic(auto, using(tracker::proofs::Tells::tells, tracker::proofs::Tells::inside))]
pub fn after_answer(tracker: Tracker, fields: Fields, body: &[u8]) -> AnswerFed
    ensures { result ≡ answer_fed tracker fields.zone fields.command fields.answer body.now }
{
    let profile = tracker.profile;
    let reading = read_message(profile, Direction::Answer, fields, body);
    let Ok(message) = reading else {
        return AnswerFed { tracker, reading };
    };
    AnswerFed {
        tracker: with_told(tracker, told_by(profile, fields, body)),
        reading: Ok(message),
    }
}

// The tracker with a cell made known.
fn with_told(tracker: Tracker, told: Option<(usize, u8)>) -> Tracker
    requires { Inside told }
    ensures { result ≡ with_told tracker told }
{
    let mut next = tracker;
    if let Some((cell, byte)) = told {
        make_known(&mut next, cell, byte);
    }
    next
}

// What an answer makes known: a status its one cell; a denied or refused answer nothing. No message is read and its
// byte written back: a capture has thousands of answers. The byte is kept as it came, 80 as 00 where it is minus zero.
pub(crate) fn told_by(profile: Profile, fields: Fields, body: &[u8]) -> Option<(usize, u8)>
    ensures { result ≡ told_by profile fields.zone fields.command fields.answer body.now }
{
    if fields.answer != 0x00 || body.len() != 1 {
        return None;
    }
    told_in(profile, fields.zone, fields.command, body[0])
}

// What the one byte of an accepted answer makes known; a row of pairs has no cell.
#[tactic(auto, using(tracker::proofs::Cells::stands))]
fn told_in(profile: Profile, zone: u8, command: u8, byte: u8) -> Option<(usize, u8)>
    ensures { result ≡ told_in (row_judged profile zone command) zone byte }
{
    match judge_row(profile, zone, command) {
        Ok(row) if !row.pair && is_answer(row, byte) => Some((
            cell_of(row, zone),
            kept_byte(row, byte),
        )),
        _ => None,
    }
}

// The byte that is kept of an answer.
fn kept_byte(row: Row, byte: u8) -> u8
    ensures { result ≡ normal row byte }
{
    if is_minus_zero(row, byte) { 0x00 } else { byte }
}
