// Signs a sheet file off by a capture of answers, with a tracker of its own.
//   signoff PROFILE SHEET CAPTURE
#![tactic(auto)]

mod files;

use characters::hex::hex_byte;
use decimal::decimal::write_integer;
use fields::fields::Fields;
use files::{LONG, count, letter, read_file, say_refused};
use frame::direction::Direction;
use lent::part::bytes_at;
use message::content::Content;
use message::read::{Message, Said};
use message_read::read::read_message;
use refusals::refusal::{Fault, Refusal};
use row::profile::Profile;
use sheet::line::Line;
use signing::by_letter::HeldFile;
use signing_code::by_letter::hold_file;
use std::io;
use std::io::Stdout;
use tracker::tracker::{Kept, Tracker};
use tracker_code::known::kept_in;

fn main(rt: HostRuntime) -> io::Result<()> {
    let err = rt.stderr();
    if count(&rt, 5) != 4 {
        return err.write_all(
            b"usage: signoff PROFILE SHEET CAPTURE (the letter A or S, and the paths of a sheet file and of a capture of answers)\n",
        );
    }
    let mut room = [0u8; LONG];
    let Some(file) = read_file(&rt, err, b"signoff", 2, &mut room)? else {
        return Ok(());
    };
    if file.len() == LONG {
        return err.write_all(b"signoff: the sheet file has more than 65,535 bytes\n");
    }
    let mut more = [0u8; LONG];
    let Some(capture) = read_file(&rt, err, b"signoff", 3, &mut more)? else {
        return Ok(());
    };
    let out = rt.stdout();
    match held_by(letter(&rt), file, capture) {
        Ok(held) => say_held(out, held),
        Err(fault) => say_refused(&out, fault),
    }
}

// Under the profile that the letter names; 12 where there is not one letter.
fn held_by(letter: Option<u8>, file: &[u8], capture: &[u8]) -> Result<HeldFile, Fault> {
    let letter = letter.ok_or(Refusal::WrongLetter)?;
    hold_file(Profile::try_from(letter)?, file, capture)
}

// The sign-off; where it is no, the lines that do not hold.
fn say_held(out: Stdout, held: HeldFile) -> io::Result<()> {
    if held.agrees {
        return out.write_all(b"signed\n");
    }
    out.write_all(b"not signed\n")?;
    for line in held.sheet.lines.iter().take(held.sheet.count) {
        say_line(out, held.tracker, *line)?;
    }
    Ok(())
}

fn say_line(out: Stdout, tracker: Tracker, line: Line) -> io::Result<()> {
    let profile = tracker.profile;
    match kept_in(tracker, line.zone, line.command) {
        Kept::Value(value) if value != line.value => {
            say_wanted(out, profile, line)?;
            say_value(out, profile, Line { value, ..line })?;
        }
        Kept::Unknown => {
            say_wanted(out, profile, line)?;
            out.write_all(b" unknown")?;
        }
        _ => return Ok(()),
    }
    out.write_all(b"\n")
}

// Zone, code and wanted value.
fn say_wanted(out: Stdout, profile: Profile, line: Line) -> io::Result<()> {
    out.print(line.zone)?;
    out.write_all(b" ")?;
    say_hex(out, line.command)?;
    say_value(out, profile, line)
}

// A line's value as the listing prints it: a status of a sheet row is a number, or Leveller's off.
fn say_value(out: Stdout, profile: Profile, line: Line) -> io::Result<()> {
    let fields = Fields {
        zone: line.zone,
        command: line.command,
        answer: 0,
    };
    out.write_all(b" ")?;
    match read_message(profile, Direction::Answer, fields, &[line.value]) {
        Ok(
            Message::Status(
                Said {
                    content: Content::Number(number),
                    ..
                },
            ),
        ) => say_integer(out, number),
        Ok(
            Message::Status(
                Said {
                    content: Content::LevellerOff,
                    ..
                },
            ),
        ) => out.write_all(b"off"),
        _ => say_hex(out, line.value),
    }
}

// A number that may be below zero: five digits at most, and a sign.
fn say_integer(out: Stdout, number: i16) -> io::Result<()> {
    let mut digits = [0u8; 6];
    let count = write_integer(&mut digits, 0, i32::from(number)).unwrap_or(0);
    out.write_all(bytes_at(&digits, 0, count))
}

fn say_hex(out: Stdout, byte: u8) -> io::Result<()> {
    out.write_all(&hex_byte(byte))
}
