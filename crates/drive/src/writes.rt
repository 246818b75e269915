// Operations that write into a buffer of a given length, all AA before.
ghost use Rattle.std.specs.Prelude.{◌<◌};

use crate::arguments::Arguments;
use crate::doors::lines_of;
use crate::out::{Output, Stop, say_buffer};
use characters::hex::write_hex;
use decimal::decimal::write_decimal;
use fields::raw::write_raw;
use lending::sheets::{write_run_lent, write_sheet_file_lent};
use message::content::Content;
use message::read::{Denial, Message, Said};
use message_write::write::{write_fields, write_message};
use sheetfile_code::by_letter::{copy_file, run_of_file};
use std::fmt::Display;
use std::io::Write;

// The most that a buffer has.
const ROOM: usize = 4096;

// Writes into a buffer whose length is the argument at a place, from the place in it that the next one is, and says the
// answer and the buffer.
fn written<E: Display + Drop, W: FnOnce(&mut [u8], usize) -> Result<usize, E>>(
    out: &mut Output,
    arguments: &Arguments,
    place: usize,
    write: W,
) -> Result<(), Stop>
    requires counted { place < 14 }
    requires callable { W.IsAlwaysCallable write }
{
    let mut room = [0xAAu8; ROOM];
    let length = arguments.number(place).min(ROOM as u64) as usize;
    let buf = &mut room[ROOM - length..];
    match write(buf, arguments.number(place + 1) as usize) {
        Ok(count) => write!(out, "bytes {count}")?,
        Err(refused) => write!(out, "{refused}")?,
    }
    say_buffer(out, buf)?;
    Ok(())
}

pub(crate) fn decimal(out: &mut Output, arguments: &Arguments) -> Result<(), Stop> {
    written(out, arguments, 1, |buf, at| {
        write_decimal(buf, at, u32::from(arguments.short(3)))
    })
}

pub(crate) fn hex(out: &mut Output, arguments: &Arguments) -> Result<(), Stop> {
    written(out, arguments, 1, |buf, at| {
        write_hex(buf, at, arguments.byte(3))
    })
}

pub(crate) fn raw(out: &mut Output, arguments: &Arguments) -> Result<(), Stop> {
    written(out, arguments, 2, |buf, at| {
        let direction = arguments.direction(1)?;
        write_raw(direction, arguments.fields(4), arguments.bytes(7), buf, at)
    })
}

pub(crate) fn message(out: &mut Output, arguments: &Arguments) -> Result<(), Stop> {
    written(out, arguments, 2, |buf, at| {
        let profile = arguments.profile()?;
        write_message(profile, buf, at, message_of(arguments), arguments.bytes(11))
    })
}

pub(crate) fn fields(out: &mut Output, arguments: &Arguments) -> Result<(), Stop> {
    written(out, arguments, 3, |buf, at| {
        let profile = arguments.profile()?;
        let direction = arguments.direction(2)?;
        write_fields(
            profile,
            direction,
            arguments.fields(5),
            arguments.bytes(8),
            buf,
            at,
        )
    })
}

pub(crate) fn file(out: &mut Output, arguments: &Arguments) -> Result<(), Stop> {
    written(out, arguments, 2, |buf, at| {
        copy_file(arguments.byte(1), arguments.bytes(4), buf, at)
    })
}

pub(crate) fn run(out: &mut Output, arguments: &Arguments) -> Result<(), Stop> {
    written(out, arguments, 2, |buf, at| {
        run_of_file(arguments.byte(1), arguments.bytes(4), buf, at)
    })
}

// The file of a list of lines.
pub(crate) fn door_file(out: &mut Output, arguments: &Arguments) -> Result<(), Stop> {
    written(out, arguments, 2, |buf, at| {
        let profile = arguments.sheet_profile()?;
        write_sheet_file_lent(profile, lines_of(arguments.bytes(4)), buf, at)
    })
}

// The run of a list of lines.
pub(crate) fn door_run(out: &mut Output, arguments: &Arguments) -> Result<(), Stop> {
    written(out, arguments, 2, |buf, at| {
        let profile = arguments.sheet_profile()?;
        write_run_lent(profile, lines_of(arguments.bytes(4)), buf, at)
    })
}

// A message by its kind and form, as tests/README.md numbers them.
fn message_of(arguments: &Arguments) -> Message {
    let fields = arguments.fields(5);
    let said = Said {
        zone: fields.zone,
        command: fields.command,
        content: content_of(arguments),
    };
    match arguments.byte(4) {
        b'D' => Message::Denied(Denial {
            zone: fields.zone,
            command: fields.command,
            answer: fields.answer,
        }),
        b'C' => Message::Command(said),
        _ => Message::Status(said),
    }
}

// What a message to be written says.
fn content_of(arguments: &Arguments) -> Content {
    match arguments.byte(8) {
        0 => Content::Request,
        1 => Content::Up,
        2 => Content::Down,
        3 => Content::On,
        4 => Content::Off,
        5 => Content::Toggle,
        6 => Content::LevellerOff,
        7 => Content::Number(arguments.short(9).cast_signed()),
        _ => Content::Input(arguments.byte(9), arguments.byte(10) != 0),
    }
}
