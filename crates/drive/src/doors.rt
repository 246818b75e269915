// Lists of lines and trackers, lent to the doors of `host`.
use crate::arguments::Arguments;
use crate::messages::say_reading;
use crate::out::{Output, Stop};
use crate::sheets::{say_kept, say_signed};
use lending::sheets::check_sheet_lent;
use lending::trackers::{
    feed_capture_lent, feed_lent, read_cell_lent, sign_capture_lent, sign_off_lent,
};
use refusals::refusal::Fault;
use sheet::line::Line;
use sheet::sheet::Sheet;
use sheet_code::lines::{no_lines, with_line};
use std::io::Write;
use tracker_code::known::new_tracker;

// A list of lines checked.
pub(crate) fn check(out: &mut Output, arguments: &Arguments) -> Result<(), Stop> {
    let profile = arguments.sheet_profile()?;
    check_sheet_lent(profile, lines_of(arguments.bytes(2)))?;
    write!(out, "accepted")?;
    Ok(())
}

// A list of lines signed off by a capture.
pub(crate) fn sign(out: &mut Output, arguments: &Arguments) -> Result<(), Stop> {
    let profile = arguments.sheet_profile()?;
    let sheet = lines_of(arguments.bytes(2));
    say_signed(out, sign_capture_lent(profile, sheet, arguments.bytes(3))?)?;
    Ok(())
}

// The same by a tracker that the capture was fed to.
pub(crate) fn sign_off(out: &mut Output, arguments: &Arguments) -> Result<(), Stop> {
    let tracker = new_tracker(arguments.sheet_profile()?);
    let fed = feed_capture_lent(tracker, arguments.bytes(3));
    fed.answer.map_err(Fault::from)?;
    let sheet = lines_of(arguments.bytes(2));
    say_signed(out, sign_off_lent(fed.tracker, sheet)?)?;
    Ok(())
}

// What a tracker knows of a cell once it was fed with a capture.
pub(crate) fn cell(out: &mut Output, arguments: &Arguments) -> Result<(), Stop> {
    let fed = feed_capture_lent(new_tracker(arguments.profile()?), arguments.bytes(2));
    fed.answer?;
    let kept = read_cell_lent(fed.tracker, arguments.byte(3), arguments.byte(4));
    say_kept(out, kept)?;
    Ok(())
}

// One answer, and what is known of its cell then.
pub(crate) fn feed(out: &mut Output, arguments: &Arguments) -> Result<(), Stop> {
    let fields = arguments.fields(2);
    let body = arguments.bytes(5);
    let fed = feed_lent(new_tracker(arguments.profile()?), fields, body);
    say_reading(out, fed.reading, body)?;
    write!(out, " ; ")?;
    say_kept(
        out,
        read_cell_lent(fed.tracker, fields.zone, fields.command),
    )?;
    Ok(())
}

// Three bytes a line: zone, command and value.
pub(crate) fn lines_of(bytes: &[u8]) -> Sheet {
    let (lines, _) = bytes.as_chunks::<3>();
    lines
        .iter()
        .fold(no_lines(), |sheet, &[zone, command, value]| {
            with_line(
                sheet,
                Line {
                    zone,
                    command,
                    value,
                },
            )
        })
}
