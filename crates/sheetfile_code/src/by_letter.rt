ghost use Rattle.std.specs.Prelude.{◌≡◌};
ghost use Rattle.row.specs.Profile.{profile_of};
ghost use Rattle.sheetfile.specs.Written.{sheet_answered, sheet_left};
ghost use Rattle.sheetfile.specs.Computed.{file_as};
ghost use Rattle.sheetfile.specs.ByLetter.{file_verdict_by, copy_answered, copy_left, file_run_answered, file_run_left};

use crate::file::{read_file, read_file_by_letter};
use crate::write::put_sheet;
use refusals::refusal::Fault;
use row::profile::Profile;
use sheetfile::write::Form;

// The check of a sheet that comes as its file: 12 for a letter that names no profile, then the file's refusals.
#[tactic(auto, using(sheetfile::proofs::Plains::verdict_by))]
pub fn check_file(letter: u8, file: &[u8]) -> Result<(), Fault>
    ensures { result ≡ file_verdict_by (profile_of letter) file.now }
{
    read_file_by_letter(letter, file)?;
    Ok(())
}

// Writes an accepted sheet file into the rest of the buffer from a place: the file's refusals, then 9. What it shares
// with `run_of_file` is `write_by`, over the form.
pub fn copy_file(letter: u8, file: &[u8], buf: &mut [u8], at: usize) -> Result<usize, Fault>
    ensures answers { result ≡ copy_answered (profile_of letter) file.now buf.old at }
    ensures leaves { buf.new ≡ copy_left (profile_of letter) file.now buf.old at }
{
    write_by(Form::File, letter, file, buf, at)
}

// Writes the run of a sheet file into the rest of the buffer from a place: the file's refusals, then 9.
pub fn run_of_file(letter: u8, file: &[u8], buf: &mut [u8], at: usize) -> Result<usize, Fault>
    ensures answers { result ≡ file_run_answered (profile_of letter) file.now buf.old at }
    ensures leaves { buf.new ≡ file_run_left (profile_of letter) file.now buf.old at }
{
    write_by(Form::Run, letter, file, buf, at)
}

// Under the profile that the letter names, the file's refusals first.
#[tactic(auto, using(sheetfile::proofs::Plains::refused_answer, sheetfile::proofs::Plains::refused_left, sheetfile::proofs::Plains::as_answer, sheetfile::proofs::Plains::as_left))]
fn write_by(form: Form, letter: u8, file: &[u8], buf: &mut [u8], at: usize) -> Result<usize, Fault>
    ensures answers { result ≡ sheet_answered (file_verdict_by (profile_of letter) file.now) buf.old at (file_as form file.now) }
    ensures leaves { buf.new ≡ sheet_left (file_verdict_by (profile_of letter) file.now) buf.old at (file_as form file.now) }
{
    let profile = Profile::try_from(letter)?;
    let sheet = read_file(profile, file)?;
    put_sheet(form, profile, sheet, buf, at)
}
