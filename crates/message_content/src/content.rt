ghost use Rattle.std.specs.Prelude.{◌≡◌};
ghost use Rattle.std.specs.Fn.{FnOnceReturnsAt};
ghost use Rattle.judging.specs.Judge.{is_word, value_refusal};
ghost use Rattle.message.specs.Content.{word_of, is_leveller_off, value_content, byte_content, content_of, number_code, encoded_of, encoded_data, size_of, form_number, is_said, is_form};

use frame::direction::Direction;
use judging_code::judge::{data_fit, is_word, value_refusal};
use message::content::{Content, Encoded};
use refusals::refusal::Refusal;
use row::table::Row;

// What data of one byte or two say in a row; no data say what a byte of 00 says.
#[tactic(auto, unfolding(message::specs::Content::content_of))]
pub fn content_of(direction: Direction, row: Row, body: &[u8]) -> Content
    ensures { result ≡ content_of direction row body.now }
{
    match body {
        [input, state] => Content::Input(*input, *state == 1),
        [] => byte_content(direction, row, 0),
        [byte, ..] => byte_content(direction, row, *byte),
    }
}

fn byte_content(direction: Direction, row: Row, byte: u8) -> Content
    ensures { result ≡ byte_content direction row byte }
{
    match direction {
        Direction::Command if is_word(row, byte) => word_of(row, byte),
        _ => value_content(row, byte),
    }
}

// F0, F1, F2 and 02, where the row has them.
fn word_of(row: Row, byte: u8) -> Content
    ensures { result ≡ word_of row byte }
{
    match byte {
        0xF0 => Content::Request,
        0x02 => Content::Toggle,
        0xF1 if row.switch => Content::On,
        0xF1 => Content::Up,
        _ if row.switch => Content::Off,
        _ => Content::Down,
    }
}

// A code of the row: off, or its number.
fn value_content(row: Row, code: u8) -> Content
    ensures { result ≡ value_content row code }
{
    if code == 0xFF && row.off {
        Content::LevellerOff
    } else if row.signed {
        Content::Number(row::signed::number_of(code))
    } else {
        Content::Number(i16::from(code))
    }
}

// The data that say something in a row; nothing is checked, also not whether the row can say it.
pub fn encode(row: Row, content: Content) -> Option<Encoded>
    ensures { result ≡ encoded_of row content }
{
    match content {
        Content::Request => Some(Encoded::One(0xF0)),
        Content::Up | Content::On => Some(Encoded::One(0xF1)),
        Content::Down | Content::Off => Some(Encoded::One(0xF2)),
        Content::Toggle => Some(Encoded::One(0x02)),
        Content::LevellerOff => Some(Encoded::One(0xFF)),
        Content::Number(number) => number_code(row, number),
        Content::Input(input, on) => Some(Encoded::Two(input, u8::from(on))),
    }
}

// The code of a number in a row.
fn number_code(row: Row, number: i16) -> Option<Encoded>
    ensures { result ≡ number_code row number }
{
    let coded = if row.signed {
        row::signed::code_of(number)
    } else {
        row::signed::plain_code_of(number)
    };
    coded.map(Encoded::One)
}

// How many bytes of data say it.
pub fn size_of(content: Content) -> usize
    ensures { result ≡ size_of content }
{
    match content {
        Content::Input(_, _) => 2,
        _ => 1,
    }
}

// Whether a row can say this in a direction: its data say it there.
#[tactic(auto, unfolding(message::specs::Content::is_form))]
pub fn is_form(direction: Direction, row: Row, content: Content) -> bool
    ensures { result ≡ is_form direction row content }
{
    with_data(
        encode(row, content),
        |body| is_said(direction, row, body, content),
    )
}

// How a form that a row lacks in a direction is refused: as a missing step where its data are a step or request that
// the row lacks, else as a wrong value.
pub fn form_refusal(direction: Direction, row: Row, content: Content) -> Refusal
    ensures { result ≡ value_refusal direction row (encoded_data (encoded_of row content)) }
{
    with_data(
        encode(row, content),
        |body| value_refusal(direction, row, body),
    )
}

// What is answered of the data that are encoded. The bytes live in this function, so they are lent to a closure.
fn with_data<R, F: FnOnce(&[u8]) -> R>(encoded: Option<Encoded>, then: F) -> R
    requires callable { F.IsAlwaysCallable then }
    ensures { FnOnceReturnsAt F.FnOnce then (encoded_data encoded) result }
{
    match encoded {
        Some(Encoded::One(byte)) => then(&[byte]),
        Some(Encoded::Two(first, second)) => then(&[first, second]),
        None => then(&[]),
    }
}

// Whether a row has these data in a direction, and they say this form.
fn is_said(direction: Direction, row: Row, body: &[u8], content: Content) -> bool
    ensures { result ≡ is_said direction row body.now content }
{
    data_fit(direction, row, body)
        && form_number(content_of(direction, row, body)) == form_number(content)
}

// Which form it is, whatever its number or input: the definition form_number, which is_said compares by.
fn form_number(content: Content) -> u8
    ensures { result ≡ form_number content }
{
    match content {
        Content::Request => 0,
        Content::Up => 1,
        Content::Down => 2,
        Content::On => 3,
        Content::Off => 4,
        Content::Toggle => 5,
        Content::LevellerOff => 6,
        Content::Number(_) => 7,
        Content::Input(_, _) => 8,
    }
}
