ghost use Rattle.std.specs.Prelude.{◌≡◌, ◌++◌, ◌+◌, ◌*◌, ◌≤◌, length, drop, Ok};
ghost use Rattle.sheet.specs.Sheet.{sheet_limit, lines_of};
ghost use Rattle.lists.specs.InOrder.{in_order};
ghost use Rattle.sheetfile.specs.File.{record_size};
ghost use Rattle.sheetfile.specs.Run.{line_frame};
ghost use Rattle.sheet.specs.Check.{sheet_verdict};
ghost use Rattle.sheetfile.specs.Written.{sheet_answered, sheet_left, file_answered, file_left, run_answered, run_left};
ghost use Rattle.sheetfile.specs.Computed.{zeros_of, bytes_of, sheet_bytes};

use crate::file::RECORD;
use fields::fields::Fields;
use fields::raw::write_raw;
use frame::direction::Direction;
use lent::written::lacks_room;
use refusals::refusal::{Fault, Refusal};
use row::profile::Profile;
use sheet::line::Line;
use sheet::sheet::{SHEET_LIMIT, Sheet};
use sheet_code::check::checked;
use sheetfile::write::Form;

// The zeros that a run begins with, unless the sheet is empty.
pub const FLUSH: usize = 255;

// Room for any run: the zeros, and a frame for each line up to the limit; a frame has as many bytes as a record.
pub const RUN_ROOM: usize = FLUSH + SHEET_LIMIT * RECORD;

// Writes a sheet's file into the rest of the buffer from a place: the sheet's checks, then 9. Beside `put_run`, since
// the documents name a file and a run; what they share is `put_sheet`, over the form.
pub fn put_file(buf: &mut [u8], at: usize, profile: Profile, sheet: Sheet) -> Result<usize, Fault>
    ensures answers { result ≡ file_answered profile (lines_of sheet) buf.old at }
    ensures leaves { buf.new ≡ file_left profile (lines_of sheet) buf.old at }
{
    put_sheet(Form::File, profile, sheet, buf, at)
}

// Writes a sheet's run into the rest of the buffer from a place: the sheet's checks, then 9 for the whole run.
pub fn put_run(buf: &mut [u8], at: usize, profile: Profile, sheet: Sheet) -> Result<usize, Fault>
    ensures answers { result ≡ run_answered profile (lines_of sheet) buf.old at }
    ensures leaves { buf.new ≡ run_left profile (lines_of sheet) buf.old at }
{
    put_sheet(Form::Run, profile, sheet, buf, at)
}

// The sheet's checks first. Form and profile go together from here on, one by one as `bytes_of` has them, which the
// clauses cite.
#[tactic(auto, using(sheet::proofs::Sheets::accepted_short, sheet::proofs::Faults::first_short))]
pub(crate) fn put_sheet(
    form: Form,
    profile: Profile,
    sheet: Sheet,
    buf: &mut [u8],
    at: usize,
) -> Result<usize, Fault>
    ensures answers { result ≡ sheet_answered (sheet_verdict profile (lines_of sheet)) buf.old at (sheet_bytes form profile (lines_of sheet)) }
    ensures leaves { buf.new ≡ sheet_left (sheet_verdict profile (lines_of sheet)) buf.old at (sheet_bytes form profile (lines_of sheet)) }
{
    checked(profile, sheet)?;
    put_accepted(form, profile, &sheet.lines[..sheet.count], buf, at)
}

// Then 9 for all of it, before the first byte.
#[tactic(auto, using(lent::proofs::Room::room_within, lent::proofs::Writes::write_nine, lent::proofs::Writes::write_there, sheetfile::proofs::Filled::sheet_length, sheetfile::proofs::Filled::zeros_most))]
fn put_accepted(
    form: Form,
    profile: Profile,
    lines: &[Line],
    buf: &mut [u8],
    at: usize,
) -> Result<usize, Fault>
    requires { length lines.now ≤ sheet_limit }
    ensures answers { result ≡ sheet_answered (Ok tt) buf.old at (sheet_bytes form profile lines.now) }
    ensures leaves { buf.new ≡ sheet_left (Ok tt) buf.old at (sheet_bytes form profile lines.now) }
{
    let length = zeros_of(form, lines.len()) + lines.len() * RECORD;
    if lacks_room(buf.len(), at, length) {
        return Err(Fault::from(Refusal::NoRoom));
    }
    put_bytes(form, profile, lines, &mut buf[at..at + length]);
    Ok(length)
}

// How many zeros stand before so many lines: none before a file's, and none before none.
fn zeros_of(form: Form, count: usize) -> usize
    ensures { result ≡ zeros_of form count }
{
    match form {
        Form::Run if count > 0 => FLUSH,
        _ => 0,
    }
}

// The zeros, and then the lines.
fn put_bytes(form: Form, profile: Profile, lines: &[Line], part: &mut [u8])
    requires { length part.old ≡ zeros_of form (length lines.now) + length lines.now * record_size }
    ensures { part.new ≡ sheet_bytes form profile lines.now }
{
    let (zeros, rest) = part.split_at_mut(zeros_of(form, lines.len()));
    zeros.fill(0);
    put_lines(form, profile, lines, rest);
}

// Each line in its own tail, by place: document 01 names that form ("the writer is lent the tail of the buffer"), and
// the run hands each frame its own tail.
#[tactic(auto, unfolding(lists::specs::InOrder::in_order))]
fn put_lines(form: Form, profile: Profile, lines: &[Line], part: &mut [u8])
    requires { length part.old ≡ length lines.now * record_size }
    ensures { part.new ≡ in_order (bytes_of form profile) lines.now }
{
    for (i, line) in lines.iter().enumerate() {
        put_line(form, profile, *line, &mut part[i * RECORD..]);
    }
}

// One line at the head of its tail: a record of a sheet file, or the frame of the command that sets its value.
#[tactic(auto, using(lent::proofs::Tail::mid_placed))]
fn put_line(form: Form, profile: Profile, line: Line, tail: &mut [u8])
    requires { record_size ≤ length tail.old }
    ensures { tail.new ≡ bytes_of form profile line ++ drop record_size tail.old }
{
    let Line {
        zone,
        command,
        value,
    } = line;
    match form {
        Form::File => tail[..RECORD].copy_from_slice(&[
            b'S',
            b'L',
            profile.letter(),
            zone,
            command,
            value,
        ]),
        Form::Run => put_command(line, tail),
    }
}

// The frame of the command that sets a line's value, by the frame writer.
fn put_command(line: Line, tail: &mut [u8])
    requires { record_size ≤ length tail.old }
    ensures { tail.new ≡ line_frame line ++ drop record_size tail.old }
{
    let fields = Fields {
        zone: line.zone,
        command: line.command,
        answer: 0,
    };
    // it has room and one byte of data, so it can't refuse
    let _ = write_raw(Direction::Command, fields, &[line.value], tail, 0);
}
