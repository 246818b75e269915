ghost use Rattle.std.specs.Prelude.{◌≡◌};
ghost use Rattle.sheet.specs.Sheet.{with_all};
ghost use Rattle.sheet.specs.Check.{sheet_verdict};
ghost use Rattle.sheetfile.specs.Written.{file_answered, file_left, run_answered, run_left};

use refusals::refusal::Fault;
use row::profile::Profile;
use sheet::line::Line;
use sheet::sheet::Sheet;
use sheet_code::check::checked;
use sheet_code::lines::{no_lines, with_line};
use sheetfile_code::write::{put_file, put_run};

// A sheet with a list of lines more.
pub fn with_lines(lines: &[Line], from: Sheet) -> Sheet
    ensures { result ≡ with_all from lines.now }
{
    lines
        .iter()
        .fold(from, |sheet, line| with_line(sheet, *line))
}

// The check of a sheet that comes as a list of lines: 6, then the lowest line at fault.
#[tactic(auto, using(sheet::proofs::Sheets::verdict_together))]
pub fn check_sheet(profile: Profile, lines: &[Line]) -> Result<(), Fault>
    ensures { result ≡ sheet_verdict profile lines.now }
{
    checked(profile, with_lines(lines, no_lines()))
}

// Writes its file into the rest of the buffer from a place: the sheet's checks, then 9. Beside `write_run`, since the
// documents name a file and a run; below, one function writes both.
#[tactic(auto, using(sheetfile::proofs::Together::file_answer, sheetfile::proofs::Together::file_after))]
pub fn write_sheet_file(
    profile: Profile,
    lines: &[Line],
    buf: &mut [u8],
    at: usize,
) -> Result<usize, Fault>
    ensures answers { result ≡ file_answered profile lines.now buf.old at }
    ensures leaves { buf.new ≡ file_left profile lines.now buf.old at }
{
    put_file(buf, at, profile, with_lines(lines, no_lines()))
}

// Writes its run into the rest of the buffer from a place: the sheet's checks, then 9 for the whole run.
#[tactic(auto, using(sheetfile::proofs::Together::run_answer, sheetfile::proofs::Together::run_after))]
pub fn write_run(
    profile: Profile,
    lines: &[Line],
    buf: &mut [u8],
    at: usize,
) -> Result<usize, Fault>
    ensures answers { result ≡ run_answered profile lines.now buf.old at }
    ensures leaves { buf.new ≡ run_left profile lines.now buf.old at }
{
    put_run(buf, at, profile, with_lines(lines, no_lines()))
}
