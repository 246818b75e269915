// Messages read, codes and rows; and how messages are said.
use crate::arguments::Arguments;
use crate::out::{Output, Stop, say_buffer, say_byte, say_byte_after, say_integer};
use message::content::Content;
use message::read::{Denial, Message, Said};
use message_read::read::{denied_data, read_frame, read_message};
use refusals::refusal::Refusal;
use row::signed::{code_of, number_of, plain_code_of};
use row_table::table::find_row;
use sheet::line::Line;
use sheet_code::line::is_legal;
use std::io;
use std::io::Write;

// The message that the bytes of one whole frame are.
pub(crate) fn frame(out: &mut Output, arguments: &Arguments) -> Result<(), Stop> {
    let profile = arguments.profile()?;
    let direction = arguments.direction(2)?;
    let bytes = arguments.bytes(3);
    let body = denied_data(profile, direction, bytes);
    match read_frame(profile, direction, bytes) {
        Some(reading) => say_reading(out, reading, body)?,
        None => write!(out, "not one frame")?,
    }
    Ok(())
}

// The message that fields and data bring.
pub(crate) fn read(out: &mut Output, arguments: &Arguments) -> Result<(), Stop> {
    let profile = arguments.profile()?;
    let direction = arguments.direction(2)?;
    let body = arguments.bytes(6);
    let reading = read_message(profile, direction, arguments.fields(3), body);
    say_reading(out, reading, body)?;
    Ok(())
}

// A message, or its refusal; the data are a denied one's.
pub(crate) fn say_reading(
    out: &mut Output,
    reading: Result<Message, Refusal>,
    body: &[u8],
) -> io::Result<()> {
    match reading {
        Ok(Message::Command(said)) => say_said(out, "command ", said),
        Ok(Message::Status(said)) => say_said(out, "status ", said),
        Ok(Message::Denied(denial)) => say_denied(out, denial, body),
        Err(refusal) => write!(out, "{refusal}"),
    }
}

fn say_said(out: &mut Output, word: &str, said: Said) -> io::Result<()> {
    write!(out, "{word}{}", said.zone)?;
    say_byte_after(out, said.command)?;
    write!(out, " ")?;
    say_content(out, said.content)
}

fn say_denied(out: &mut Output, denial: Denial, body: &[u8]) -> io::Result<()> {
    write!(out, "denied {}", denial.zone)?;
    say_byte_after(out, denial.command)?;
    say_byte_after(out, denial.answer)?;
    say_buffer(out, body)
}

pub(crate) fn say_content(out: &mut Output, content: Content) -> io::Result<()> {
    match content {
        Content::Request => write!(out, "request"),
        Content::Up => write!(out, "up"),
        Content::Down => write!(out, "down"),
        Content::On => write!(out, "on"),
        Content::Off | Content::LevellerOff => write!(out, "off"),
        Content::Toggle => write!(out, "toggle"),
        Content::Number(number) => {
            write!(out, "number ")?;
            say_integer(out, number)
        }
        Content::Input(input, true) => write!(out, "input {input} on"),
        Content::Input(input, false) => write!(out, "input {input} off"),
    }
}

// The number that a code means in a signed row.
pub(crate) fn number(out: &mut Output, arguments: &Arguments) -> Result<(), Stop> {
    say_integer(out, number_of(arguments.byte(1)))?;
    Ok(())
}

// The code of a number in a signed row.
pub(crate) fn code(out: &mut Output, arguments: &Arguments) -> Result<(), Stop> {
    say_code(out, code_of(arguments.short(1).cast_signed()))
}

// The code of a number in a row that is not signed.
pub(crate) fn plain(out: &mut Output, arguments: &Arguments) -> Result<(), Stop> {
    say_code(out, plain_code_of(arguments.short(1).cast_signed()))
}

fn say_code(out: &mut Output, code: Option<u8>) -> Result<(), Stop> {
    match code {
        Some(code) => say_byte(out, code)?,
        None => write!(out, "none")?,
    }
    Ok(())
}

// Whether the profile has a row of that command.
pub(crate) fn row(out: &mut Output, arguments: &Arguments) -> Result<(), Stop> {
    match find_row(arguments.profile()?, arguments.byte(2)) {
        Some(_) => write!(out, "row")?,
        None => write!(out, "none")?,
    }
    Ok(())
}

// Whether a sheet line is legal.
pub(crate) fn legal(out: &mut Output, arguments: &Arguments) -> Result<(), Stop> {
    let line = Line {
        zone: arguments.byte(2),
        command: arguments.byte(3),
        value: arguments.byte(4),
    };
    if !is_legal(arguments.profile()?, line) {
        write!(out, "not ")?;
    }
    write!(out, "legal")?;
    Ok(())
}
