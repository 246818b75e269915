ghost use Rattle.std.specs.Prelude.{◌≡◌};
ghost use Rattle.sheet.specs.Sheet.{lines_of};
ghost use Rattle.sheet.specs.Check.{sheet_verdict};
ghost use Rattle.sheetfile.specs.Written.{file_answered, file_left, run_answered, run_left};

use crate::room::{count_of, room_of};
use host::sheets::{check_sheet, write_run, write_sheet_file};
use refusals::refusal::Fault;
use row::profile::Profile;
use sheet::sheet::Sheet;

// The check of a sheet.
#[tactic(auto, using(crate::proofs::Rooms::brought, sheet::proofs::Sheets::verdict_together))]
pub fn check_sheet_lent(profile: Profile, sheet: Sheet) -> Result<(), Fault>
    ensures { result ≡ sheet_verdict profile (lines_of sheet) }
{
    let room = room_of(sheet);
    let count = count_of(sheet);
    check_sheet(profile, &room[..count])
}

// Writes its file into the rest of the buffer from a place: a door of its own, as `write_run_lent` is, for each of
// `host`.
#[tactic(auto, using(crate::proofs::Rooms::brought, sheetfile::proofs::Together::file_answer, sheetfile::proofs::Together::file_after))]
pub fn write_sheet_file_lent(
    profile: Profile,
    sheet: Sheet,
    buf: &mut [u8],
    at: usize,
) -> Result<usize, Fault>
    ensures answers { result ≡ file_answered profile (lines_of sheet) buf.old at }
    ensures leaves { buf.new ≡ file_left profile (lines_of sheet) buf.old at }
{
    let room = room_of(sheet);
    let count = count_of(sheet);
    write_sheet_file(profile, &room[..count], buf, at)
}

// Writes its run into the rest of the buffer from a place.
#[tactic(auto, using(crate::proofs::Rooms::brought, sheetfile::proofs::Together::run_answer, sheetfile::proofs::Together::run_after))]
pub fn write_run_lent(
    profile: Profile,
    sheet: Sheet,
    buf: &mut [u8],
    at: usize,
) -> Result<usize, Fault>
    ensures answers { result ≡ run_answered profile (lines_of sheet) buf.old at }
    ensures leaves { buf.new ≡ run_left profile (lines_of sheet) buf.old at }
{
    let room = room_of(sheet);
    let count = count_of(sheet);
    write_run(profile, &room[..count], buf, at)
}
