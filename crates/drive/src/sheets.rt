// Sheet files, sign-offs and cells; and how sheets' answers are said.
use crate::arguments::Arguments;
use crate::out::{Output, Stop, say_byte, say_byte_after};
use sheet::sheet::Sheet;
use sheetfile_code::by_letter::check_file;
use sheetfile_code::file::read_file_by_letter;
use signing_code::by_letter::{cell_in_capture, sign_file};
use std::io;
use std::io::Write;
use tracker::tracker::Kept;

// The lines of a sheet file.
pub(crate) fn check(out: &mut Output, arguments: &Arguments) -> Result<(), Stop> {
    let letter = arguments.byte(1);
    let file = arguments.bytes(2);
    check_file(letter, file)?;
    say_sheet(out, read_file_by_letter(letter, file)?)?;
    Ok(())
}

fn say_sheet(out: &mut Output, sheet: Sheet) -> io::Result<()> {
    write!(out, "accepted {} :", sheet.count)?;
    if sheet.count == 0 {
        return write!(out, " -");
    }
    for line in sheet.lines.iter().take(sheet.count) {
        say_byte_after(out, line.zone)?;
        say_byte(out, line.command)?;
        say_byte(out, line.value)?;
    }
    Ok(())
}

// A sheet file signed off by a capture.
pub(crate) fn sign(out: &mut Output, arguments: &Arguments) -> Result<(), Stop> {
    let signed = sign_file(arguments.byte(1), arguments.bytes(2), arguments.bytes(3))?;
    say_signed(out, signed)?;
    Ok(())
}

pub(crate) fn say_signed(out: &mut Output, signed: bool) -> io::Result<()> {
    if !signed {
        write!(out, "not ")?;
    }
    write!(out, "signed")
}

// What is known of a cell after a capture.
pub(crate) fn cell(out: &mut Output, arguments: &Arguments) -> Result<(), Stop> {
    let capture = arguments.bytes(2);
    let kept = cell_in_capture(
        arguments.byte(1),
        capture,
        arguments.byte(3),
        arguments.byte(4),
    )?;
    say_kept(out, kept)?;
    Ok(())
}

pub(crate) fn say_kept(out: &mut Output, kept: Kept) -> io::Result<()> {
    match kept {
        Kept::Value(value) => {
            write!(out, "value")?;
            say_byte_after(out, value)
        }
        Kept::Unknown => write!(out, "unknown"),
        Kept::NoCell => write!(out, "no cell"),
    }
}
