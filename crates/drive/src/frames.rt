// Readers, captures and the bytes of frames.
use crate::arguments::Arguments;
use crate::out::{Output, Stop, say_between, say_buffer, say_byte, say_byte_after, say_bytes};
use fields::fields::{frame_data, frame_fields};
use frame::capture::{Event, Kind};
use frame::part::take_part;
use frame::reader::{ByteAnswer, Reader};
use frame_capture::capture::{capture_totals_by_letter, next_event};
use lent::part::{bytes_at, last_bytes};
use std::io;
use std::io::Write;

// A fresh reader takes each byte.
pub(crate) fn feed(out: &mut Output, arguments: &Arguments) -> Result<(), Stop> {
    let mut reader = Reader::new(arguments.direction(1)?);
    for (place, byte) in arguments.bytes(2).iter().enumerate() {
        let fed = reader.feed(*byte);
        reader = fed.reader;
        say_between(out, place)?;
        say_answer(out, fed.answer)?;
    }
    Ok(())
}

fn say_answer(out: &mut Output, answer: ByteAnswer) -> io::Result<()> {
    match answer {
        ByteAnswer::Waiting => write!(out, "w"),
        ByteAnswer::Noise => write!(out, "n"),
        ByteAnswer::Frame(length) => write!(out, "f{length}"),
        ByteAnswer::Broken(length) => write!(out, "b{length}"),
    }
}

// Part after part of a stream: the arguments from the second on.
pub(crate) fn parts(out: &mut Output, arguments: &Arguments) -> Result<(), Stop> {
    let mut reader = Reader::new(arguments.direction(1)?);
    for place in 2..arguments.count() {
        let part = take_part(reader, arguments.bytes(place));
        reader = part.reader;
        say_between(out, place - 2)?;
        write!(out, "{}/{}/{}", part.frame, part.broken, part.noise)?;
    }
    Ok(())
}

// The events of a capture, from 0 on. The place is counted by hand: as in tracker_code's feed_events, it goes on by
// whole events. A capture has no more events than bytes.
pub(crate) fn events(out: &mut Output, arguments: &Arguments) -> Result<(), Stop> {
    let direction = arguments.direction(1)?;
    let capture = arguments.bytes(2);
    let mut at = 0usize;
    for place in 0..capture.len() {
        let Some(event) = next_event(direction, capture, at) else {
            break;
        };
        say_between(out, place)?;
        say_event(out, event)?;
        at = at.wrapping_add(event.length);
    }
    Ok(())
}

// The first event from a place on.
pub(crate) fn event(out: &mut Output, arguments: &Arguments) -> Result<(), Stop> {
    let direction = arguments.direction(1)?;
    match next_event(direction, arguments.bytes(3), arguments.number(2) as usize) {
        Some(event) => say_event(out, event)?,
        None => write!(out, "end")?,
    }
    Ok(())
}

fn say_event(out: &mut Output, event: Event) -> io::Result<()> {
    let kind = match event.kind {
        Kind::Frame => 'f',
        Kind::Broken => 'b',
        Kind::Noise => 'n',
        Kind::Pending => 'p',
    };
    write!(out, "{}+{}{kind}", event.at, event.length)
}

pub(crate) fn totals(out: &mut Output, arguments: &Arguments) -> Result<(), Stop> {
    let totals = capture_totals_by_letter(arguments.byte(1), arguments.bytes(2))?;
    write!(out, "frame {} broken {}", totals.frame, totals.broken)?;
    write!(out, " noise {} pending {}", totals.noise, totals.pending)?;
    Ok(())
}

// What the bytes of one whole frame bring.
pub(crate) fn fields(out: &mut Output, arguments: &Arguments) -> Result<(), Stop> {
    let direction = arguments.direction(1)?;
    let bytes = arguments.bytes(2);
    let Some(fields) = frame_fields(direction, bytes) else {
        return Ok(write!(out, "not one frame")?);
    };
    say_byte(out, fields.zone)?;
    say_byte_after(out, fields.command)?;
    say_byte_after(out, fields.answer)?;
    say_buffer(out, frame_data(direction, bytes))?;
    Ok(())
}

// The bytes at a place.
pub(crate) fn part(out: &mut Output, arguments: &Arguments) -> Result<(), Stop> {
    let place = arguments.number(1) as usize;
    let length = arguments.number(2) as usize;
    say_bytes(out, bytes_at(arguments.bytes(3), place, length))?;
    Ok(())
}

// The last bytes.
pub(crate) fn last(out: &mut Output, arguments: &Arguments) -> Result<(), Stop> {
    let length = arguments.number(1) as usize;
    say_bytes(out, last_bytes(arguments.bytes(2), length))?;
    Ok(())
}
