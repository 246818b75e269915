ghost use Rattle.std.specs.Prelude.{◌≡◌, ◌<◌, length};
ghost use Rattle.judging.specs.Judge.{within, is_setting, is_answer, is_word, is_pair, has_byte, has_length, has_value, has_data, is_step_or_request, lacks_step, value_refusal, row_judged, judged_of};
ghost use Rattle.frame.specs.declared.direction.Direction.TheVariants as direction;

use frame::direction::Direction;
use refusals::refusal::Refusal;
use row::profile::Profile;
use row::table::{Codes, Row};

// Judges zone, row, length and value of a message: 1 for the profile's zones, 2, 1 for the row's zones, 3, 4 or 13.
#[tactic(auto, using(judging::proofs::Judges::judge_refused, judging::proofs::Judges::length_some, judging::proofs::Steps::wrong_size, judging::proofs::Steps::wrong_value, judging::proofs::Steps::fits))]
pub fn judge(
    profile: Profile,
    direction: Direction,
    zone: u8,
    command: u8,
    body: &[u8],
) -> Result<Row, Refusal>
    ensures { result ≡ judged_of profile direction zone command body.now }
{
    let row = judge_row(profile, zone, command)?;
    if !length_fits(direction, row, body.len()) {
        return Err(Refusal::WrongLength);
    }
    if !value_fits(direction, row, body) {
        return Err(value_refusal(direction, row, body));
    }
    Ok(row)
}

// Judges zone and row alone. Zone and command come one by one: callers have them in a Line, a Fields or a Said, each
// with a third field of its own.
#[tactic(auto, unfolding(judging::specs::Judge::row_judged))]
pub fn judge_row(profile: Profile, zone: u8, command: u8) -> Result<Row, Refusal>
    ensures { result ≡ row_judged profile zone command }
{
    if !(1..=profile.zones()).contains(&zone) {
        return Err(Refusal::WrongZone);
    }
    let row = row_table::table::find_row(profile, command).ok_or(Refusal::NoRow)?;
    if row.zones < zone {
        return Err(Refusal::WrongZone);
    }
    Ok(row)
}

// Whether a row has these data in a direction.
pub fn data_fit(direction: Direction, row: Row, body: &[u8]) -> bool
    ensures { result ≡ has_data direction row body.now }
{
    length_fits(direction, row, body.len()) && value_fits(direction, row, body)
}

// Whether a row has data of this length in a direction.
pub fn length_fits(direction: Direction, row: Row, length: usize) -> bool
    ensures { result ≡ has_length direction row length }
{
    match length {
        1 => direction == Direction::Command || !row.pair,
        2 => row.pair,
        _ => false,
    }
}

// Whether a row has these data in a direction, of one byte or two.
fn value_fits(direction: Direction, row: Row, body: &[u8]) -> bool
    requires { 0 < length body.now }
    ensures { result ≡ has_value direction row body.now }
{
    match (direction, body) {
        (_, [input, state]) => pair_fits(row, *input, *state),
        (Direction::Command, _) => command_fits(row, body[0]),
        (Direction::Answer, _) => is_answer(row, body[0]),
    }
}

// The refusal of data that don't fit a row in a direction: 13 for a command's step or request that the row
// lacks, else 4.
pub fn value_refusal(direction: Direction, row: Row, body: &[u8]) -> Refusal
    ensures { result ≡ value_refusal direction row body.now }
{
    match direction {
        Direction::Command if lacks_step(row, body) => Refusal::NoStep,
        _ => Refusal::WrongValue,
    }
}

// Whether a command's data are one byte F0, F1 or F2 that the row lacks.
fn lacks_step(row: Row, body: &[u8]) -> bool
    ensures { result ≡ lacks_step row body.now }
{
    matches!(body, [byte] if is_step_or_request(*byte) && !command_fits(row, *byte))
}

fn is_step_or_request(byte: u8) -> bool
    ensures { result ≡ is_step_or_request byte }
{
    matches!(byte, 0xF0 | 0xF1 | 0xF2)
}

// Whether a row has this pair: an input of the row, and 00 or 01.
fn pair_fits(row: Row, input: u8, state: u8) -> bool
    ensures { result ≡ is_pair row input state }
{
    row.pair && state <= 1 && is_answer(row, input)
}

// Whether a command of this row may hold this one byte.
fn command_fits(row: Row, byte: u8) -> bool
    ensures { result ≡ has_byte direction.Command row byte }
{
    is_setting(row, byte) || is_word(row, byte)
}

// Whether a byte of a command is a request, a step, on, off or a toggle of this row.
pub fn is_word(row: Row, byte: u8) -> bool
    ensures { result ≡ is_word row byte }
{
    match byte {
        0xF0 => row.request,
        0xF1 | 0xF2 => row.steps || row.switch,
        0x02 => row.toggle,
        _ => false,
    }
}

// Whether a code is one that a command of this row sets.
pub fn is_setting(row: Row, code: u8) -> bool
    ensures { result ≡ is_setting row code }
{
    lies_within(row.settings, code) || lies_within(row.settings2, code)
}

// Whether a code is one that an answer of this row holds; in a pair row, an input.
pub fn is_answer(row: Row, code: u8) -> bool
    ensures { result ≡ is_answer row code }
{
    lies_within(row.answers, code) || lies_within(row.answers2, code)
}

fn lies_within(codes: Codes, code: u8) -> bool
    ensures { result ≡ within codes code }
{
    (codes.low..=codes.high).contains(&code)
}
